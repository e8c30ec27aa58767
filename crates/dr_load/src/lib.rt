//! Files of events that threads ingest into one node, one for each file, while a merger publishes and a query is asked. The answer
//! over all events comes after they have ended.
#![tactic(auto)]

mod answering;
mod asking;
mod eight;
mod failure;
mod ingested;
mod ingesting;
mod load;
mod load_error;
mod loading;
mod node_load;
mod order;
mod progress;
mod publish_all;
mod tally;
mod totals;
mod waiting;
mod watch;

pub use failure::Failure;
pub use load::{load_run, load_watched};
pub use load_error::LoadError;
pub use progress::Progress;
pub use watch::{NoWatch, Watch};
