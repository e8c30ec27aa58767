ghost use Rattle.std.specs.Prelude.{◌≡◌, ◌≤◌, ◌⊎◌, IfErr};
ghost use Rattle.dr_merge.specs.declared.merge_error.MergeError.TheVariants as merge;
ghost use Rattle.dr_timeline.specs.declared.timeline_error.TimelineError.TheVariants.{NoMemory, NoSuchRange, Stale, CommitsFull};
ghost use Rattle.dr_node.specs.declared.node_error.NodeError.TheVariants as error;

use crate::commit_act::CommitAct;
use crate::merger_report::MergerReport;
use crate::node::Node;
use crate::node_error::NodeError;
use crate::plan_act::PlanAct;
use crate::policy::Policy;
use crate::seat::Seat;
use crate::stop::Stop;
use dr_books::Books;
use dr_timeline::{RangeInfo, TimelineError, work};
use std::alloc::AllocError;
use std::sync::Wait;
use std::thread;

impl<B: Books> Node<B> {
    /// Merges in turns until it is stopped, and tells what it did: it pins, asks the policy over the ranges of the snapshot, which
    /// it has let go, plans the job that the policy names, tells it so, joins the fragments of the job and commits it. Where the
    /// policy names none, the turn ends. A job whose ranges aren't there, when it is planned or when it is committed, is counted
    /// as stale. Refusals, each of which ends it: 0 `NoMemory`, 59 `ImageTooLarge`, 95 `CommitsFull`.
    ///
    /// It holds the lock three times a turn, for as long as a pin, a plan and a commit take; the policy is asked and fragments
    /// are joined outside of it. It waits for the lock, and ends once it is stopped.
    pub fn merger<R: Wait, P: Policy>(
        &self,
        rt: &R,
        seat: &mut Seat<B>,
        policy: &P,
        stop: &Stop,
    ) -> Result<MergerReport, NodeError>
        ensures floor { seat.old.floor ≤ seat.new.floor }
        ensures same { (seat.new.number ≡ seat.old.number) × (seat.new.mine ≡ seat.old.mine) × (seat.new.own ≡ seat.old.own) }
        ensures refusals { IfErr result (λ e. (e ≡ error.Timeline NoMemory) ⊎ (e ≡ error.Merge merge.NoMemory) ⊎ (e ≡ error.Merge merge.ImageTooLarge) ⊎ (e ≡ error.Timeline CommitsFull)) }
    {
        let mut report = MergerReport {
            commits: 0,
            stale: 0,
        };
        for _ in rt.forever() {
            if stop.is_stopped() {
                return Ok(report);
            }
            let ranges = self.ranges_now(rt, seat)?;
            let Some((chunk, lo, hi, purpose)) = policy.next(ranges.as_slice()) else {
                thread::yield_now();
                continue;
            };
            let plan = PlanAct {
                chunk,
                lo,
                hi,
                purpose,
            };
            match self.merge(rt, policy, plan) {
                Ok(_) => report.commits = report.commits.saturating_add(1),
                Err(NodeError::Timeline(TimelineError::Stale | TimelineError::NoSuchRange)) => {
                    report.stale = report.stale.saturating_add(1);
                }
                Err(error) => return Err(error),
            }
        }
        unreachable!()
    }

    // The ranges of a snapshot, which is let go at once: a policy that takes its time keeps no share of the open ranges, which
    // the next event would have to copy.
    fn ranges_now<R: Wait>(&self, rt: &R, seat: &mut Seat<B>) -> Result<Vec<RangeInfo>, AllocError>
        ensures floor { seat.old.floor ≤ seat.new.floor }
        ensures same { (seat.new.number ≡ seat.old.number) × (seat.new.mine ≡ seat.old.mine) × (seat.new.own ≡ seat.old.own) }
    {
        let snapshot = self.pin(rt, seat)?;
        snapshot.ranges().to_vec(self.alloc)
    }

    // Plans a job, joins its fragments and commits it.
    fn merge<R: Wait, P: Policy>(&self, rt: &R, policy: &P, plan: PlanAct) -> Result<u64, NodeError>
        ensures { IfErr result (λ e. (e ≡ error.Timeline NoMemory) ⊎ (e ≡ error.Timeline NoSuchRange) ⊎ (e ≡ error.Merge merge.NoMemory) ⊎ (e ≡ error.Merge merge.ImageTooLarge) ⊎ (e ≡ error.Timeline Stale) ⊎ (e ≡ error.Timeline CommitsFull)) }
    {
        let job = self.apply(rt, plan)?;
        policy.planned();
        let fragment = work(self.alloc, &self.schema, &job)?;
        let commit = CommitAct {
            job: &job,
            fragment,
        };
        Ok(self.apply(rt, commit)?)
    }
}
