//! Tests of the public calls of `dr_node`, over one thread and over two: what seats see, what closing shows, what acts do, and that
//! a merger leaves the lock free. Each ends by itself, and tells the same whatever threads do.
#![tactic(auto)]

#[cfg(test)]
mod acts;
#[cfg(test)]
mod answers;
#[cfg(test)]
mod eight;
#[cfg(test)]
mod events;
#[cfg(test)]
mod mergers;
#[cfg(test)]
mod pairs;
#[cfg(test)]
mod queries;
#[cfg(test)]
mod seats;
#[cfg(test)]
mod turns;
