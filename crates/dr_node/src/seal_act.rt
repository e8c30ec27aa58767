ghost use Rattle.std.specs.Prelude.{◌≡◌, OnErr};
ghost use Rattle.dr_base.specs.Reading.{GivesUnless};
ghost use Rattle.dr_timeline.specs.Refusal.{is_memory};
ghost use Rattle.dr_timeline.specs.Stepping.{seal};

use crate::act::Act;
use dr_timeline::{Timeline, TimelineError};

/// Seals the open range of a chunk, as `Timeline::seal`, whose refusals it has. It changes nothing where it is refused.
#[derive(Debug, Drop)]
pub struct SealAct {
    /// The start of the chunk in milliseconds since the epoch.
    pub chunk: i64,
}

impl Act for SealAct {
    type Answer = Result<(), TimelineError>;

    ghost needs = { λ act schema. Unit {0} };

    ghost does = { λ act old answer new. OnErr answer (new ≡ old) × GivesUnless is_memory (λ _. new) answer (seal old act.chunk) };

    fn act(self, timeline: &mut Timeline) -> Result<(), TimelineError> {
        timeline.seal(self.chunk)
    }
}
