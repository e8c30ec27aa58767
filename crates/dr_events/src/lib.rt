//! Events, as they are read from JSON lines into the columns of a schema.
//! Each line is either the one event that it spells or the first refusal.
#![tactic(auto)]

mod begun;
mod dimension;
mod event_reader;
mod event_time;
mod input;
mod learning;
mod line_object;
mod metric;
mod names;
mod numbers;
mod numerals;
mod places;
mod reading;
mod scalar;
mod unparseable;
mod values;

pub use event_reader::EventReader;
pub use reading::read_event;
pub use unparseable::Unparseable;
