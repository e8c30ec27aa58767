//! A script: lines of commands, what each does to a timeline, and the run of a script over a reader and a writer.
//! A line is read, given to the timeline, and answered by one line.
#![tactic(auto)]

mod answering;
mod asking;
mod hexadecimal;
mod reply;
mod script;
mod script_error;
mod session;
mod wording;

pub use script::run_script;
