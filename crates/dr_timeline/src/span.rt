ghost use Rattle.std.specs.Prelude.{◌≡◌, map};
ghost use Rattle.std.specs.List.{AllByRecursion};
ghost use Rattle.dr_answers.specs.Span.{span};
ghost use Rattle.dr_gran.specs.Truncation.{truncation};
ghost use Rattle.dr_time.specs.Instant.{IsInstant};
ghost use Rattle.dr_schema.specs.Fits.{FitsSchema};
ghost use Rattle.dr_rollup.specs.Unrolled.{unrolled};

use dr_chunks::Stream;
use dr_schema::Schema;

/// From the least to the greatest truncated time of events, both included, in milliseconds since the epoch; none where there
/// is no event. Truncation keeps the order of times, so these are the truncated least and greatest time: it takes constant
/// time.
pub fn span_of(schema: &Schema, events: &Stream) -> Option<(i64, i64)>
    requires { AllByRecursion (FitsSchema schema.now) events.now.items }
    ensures { result ≡ span (map (unrolled schema.now) events.now.items) }
{
    match events.times() {
        None => None,
        Some((least, greatest)) => { Some((row_time(schema, least), row_time(schema, greatest))) }
    }
}

// A truncated time.
fn row_time(schema: &Schema, time: i64) -> i64
    requires { IsInstant time }
    ensures { result ≡ truncation schema.now.query_granularity time }
{
    schema.query_granularity().truncate(time)
}
