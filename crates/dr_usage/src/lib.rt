//! The command line of the program `druid-node`: what its words ask for, as `clap` reads them. Whatever else they are is bad usage.
#![tactic(auto)]

mod command;
mod named;
mod usage;
mod usage_error;

pub use command::Command;
pub use usage::{USAGE, command_of};
pub use usage_error::UsageError;
