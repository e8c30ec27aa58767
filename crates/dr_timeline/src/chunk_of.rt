ghost use Rattle.std.specs.Prelude.{◌≡◌};
ghost use Rattle.dr_time.specs.Instant.{IsInstant};
ghost use Rattle.dr_cuts.specs.Chunks.{chunk};

use dr_base::Event;
use dr_schema::Schema;

/// The start of the chunk of an event, in milliseconds since the epoch.
pub fn chunk_start(schema: &Schema, event: &Event) -> i64
    requires { IsInstant event.now.time }
    ensures { result ≡ chunk schema.now event.now }
{
    schema.segment_granularity().truncate(event.time)
}
