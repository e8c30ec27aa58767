//! Instants, intervals and unions of intervals, in milliseconds on the calendar of ISO 8601.
//! It reads instants and intervals from text, and prints times.
#![tactic(auto)]

mod calendar;
mod clock;
mod digits;
mod instant;
mod interval;
mod joined;
mod laws;
mod printing;
mod time_error;
mod union;

pub use calendar::{first_day_of_month, month_of_day};
pub use instant::{DAY_MILLIS, FIRST_INSTANT, LAST_INSTANT, parse_instant};
pub use interval::{Interval, parse_interval};
pub use laws::{
    a_day_number_has_one_date, days_are_counted_from_1970, printed_instants_read_back,
    unions_have_a_first_time_from_each_time, unions_start_at_their_first_time,
    what_is_read_is_spelled, what_is_spelled_is_read,
};
pub use printing::print_instant;
pub use time_error::TimeError;
pub use union::Union;
