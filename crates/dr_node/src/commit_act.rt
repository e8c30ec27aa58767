ghost use Rattle.std.specs.Prelude.{◌≡◌, IfOk, OnErr};
ghost use Rattle.dr_base.specs.Reading.{GivesUnless};
ghost use Rattle.dr_merge.specs.Joined.{joined_fragment};
ghost use Rattle.dr_timeline.specs.Refusal.{is_memory};
ghost use Rattle.dr_timeline.specs.Stepping.{commit};
ghost use Rattle.dr_timeline.specs.Steps.{Commits};

use crate::act::Act;
use dr_timeline::{Fragment, Job, Timeline, TimelineError};

/// Commits a job, as `Timeline::commit`, whose refusals it has: the fragment, which is what `work` gives for the job, takes the
/// place of the ranges that the job was planned with, wherever these stand by now, and of no others. It changes nothing where
/// it is refused.
#[derive(Drop)]
pub struct CommitAct<'a> {
    /// The job.
    pub job: &'a Job,
    /// What its fragments are joined to.
    pub fragment: Fragment,
}

impl<'a> Act for CommitAct<'a> {
    type Answer = Result<u64, TimelineError>;

    ghost needs = { λ act schema. act.fragment ≡ joined_fragment schema act.job.now };

    ghost does = { λ act old answer new. OnErr answer (new ≡ old) × IfOk answer (λ version. Commits old act.job.now version new) × GivesUnless is_memory (λ version. (version, new)) answer (commit old act.job.now) };

    fn act(self, timeline: &mut Timeline) -> Result<u64, TimelineError> {
        timeline.commit(self.job, self.fragment)
    }
}
