//! A timeline that many threads share, behind one lock with the books of its seats: threads accept events and pin snapshots through
//! seats, and merge outside of the lock. What a seat knows of its own events holds whatever other threads do, and closing a node
//! shows which events were kept.
#![tactic(auto)]

mod act;
mod closed;
mod closing;
mod commit_act;
mod kept;
mod merger_report;
mod merging;
mod node;
mod node_error;
mod plan_act;
mod policy;
mod receipt;
mod seal_act;
mod seat;
mod seating;
mod stop;

pub use act::Act;
pub use closed::Closed;
pub use commit_act::CommitAct;
pub use dr_books::{Books, Joined, NodeLedger, OneSeat};
pub use merger_report::MergerReport;
pub use node::Node;
pub use node_error::NodeError;
pub use plan_act::PlanAct;
pub use policy::Policy;
pub use receipt::Receipt;
pub use seal_act::SealAct;
pub use seat::Seat;
pub use stop::Stop;
