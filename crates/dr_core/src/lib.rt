//! A timeline with its jobs and snapshots, and a run of steps on it from its start: accepting, sealing, planning, committing,
//! pinning and asking, each answered. Each answer to a matching query is, byte for byte, the answer over the raw events that
//! were accepted before its pin.
#![tactic(auto)]

mod asking;
mod asking_by;
mod bytes;
mod core_error;
mod core_run;
mod reply;
mod step;
mod timeline_core;
mod worker_run;

pub use asking::ask;
pub use asking_by::ask_by;
pub use bytes::Bytes;
pub use core_error::CoreError;
pub use core_run::run_core_one;
pub use reply::Reply;
pub use step::Step;
pub use timeline_core::Core;
pub use worker_run::run_core;
