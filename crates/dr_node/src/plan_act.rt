ghost use Rattle.std.specs.Prelude.{◌≡◌, IfOk};
ghost use Rattle.dr_merge.specs.Joined.{IsJobOf};
ghost use Rattle.dr_base.specs.Reading.{GivesUnless};
ghost use Rattle.dr_timeline.specs.Refusal.{is_memory};
ghost use Rattle.dr_timeline.specs.Stepping.{plan};

use crate::act::Act;
use dr_timeline::{Job, Purpose, Timeline, TimelineError};

/// Plans a job over sealed ranges of a chunk, as `Timeline::plan`, whose refusals it has. It changes nothing.
#[derive(Debug, Drop)]
pub struct PlanAct {
    /// The start of the chunk in milliseconds since the epoch.
    pub chunk: i64,
    /// The place of the first range among the sealed ranges of the chunk, from 0.
    pub lo: usize,
    /// The place behind the last range.
    pub hi: usize,
    /// What for.
    pub purpose: Purpose,
}

impl Act for PlanAct {
    type Answer = Result<Job, TimelineError>;

    ghost needs = { λ act schema. Unit {0} };

    ghost does = { λ act old answer new. (new ≡ old) × IfOk answer (λ job. IsJobOf old.schema job) × GivesUnless is_memory (λ job. job) answer (plan old act.chunk act.lo act.hi act.purpose) };

    fn act(self, timeline: &mut Timeline) -> Result<Job, TimelineError> {
        timeline.plan(self.chunk, self.lo, self.hi, self.purpose)
    }
}
