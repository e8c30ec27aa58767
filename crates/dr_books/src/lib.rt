//! The books of the seats of a node: two ledgers for each seat, of how many events it accepted and of how many events of the
//! stream it has seen. The books lie with the stream, and each seat holds its share of them, so that what a seat knows of
//! itself is what the books say, whatever other threads did.
#![tactic(auto)]

mod books;
mod joined;
mod node_ledger;
mod one_seat;
mod side;

pub use books::Books;
pub use joined::Joined;
pub use node_ledger::NodeLedger;
pub use one_seat::{OneSeat, OneShare};
pub use side::Side;
