//! The accepted events of a data source with the segments that they are cut into, and the answers over what was pinned.
//! Whatever the cuts, the answer to a matching query is that over the raw events, one by one.
#![tactic(auto)]

mod answering;
mod ask_error;
mod chunk_of;
mod imaging;
mod known_texts;
mod outcome;
mod planned;
mod scanning;
mod scattering;
mod snapshot;
mod span;
mod stats;
mod timeline;
mod timeline_error;
mod versioning;

pub use ask_error::AskError;
pub use dr_answers::AnswerError;
pub use dr_ask::{Query, QueryError};
pub use dr_cuts::RangeInfo;
pub use dr_fragment::{Fragment, SharedEvent};
pub use dr_merge::{Job, MergeError, Purpose, work};
pub use dr_workers::{Gate, OpenGate};
pub use outcome::Outcome;
pub use snapshot::Snapshot;
pub use stats::Stats;
pub use timeline::Timeline;
pub use timeline_error::TimelineError;
