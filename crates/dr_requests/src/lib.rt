//! A line of a script as what it asks for: its words, numbers and instants, and the command that they make.
//! A line that fits no command is refused.
#![tactic(auto)]

mod command_error;
mod laws;
mod request;
mod requests;
mod words;

pub use command_error::CommandError;
pub use laws::{what_is_read_is_spelled, what_is_spelled_is_read};
pub use request::Request;
pub use requests::request_in;
pub use words::instant_in;
