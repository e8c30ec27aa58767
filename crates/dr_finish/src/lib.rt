//! From the partial result of a query to the groups that it gives. Buckets are filled, groups kept that a `having` keeps, put in
//! order, the first ones left out, and at most so many given.
#![tactic(auto)]

mod bound;
mod filling;
mod finishing;
mod grouping;
mod keeping;
mod limiting;
mod listing;
mod meeting;
mod ordering;
mod series;
mod spreading;

pub use finishing::finish;
