//! Tests of answers by several workers, over `dr_scatter` and `dr_timeline`: that they are those of one worker, that workers run at
//! once, and that each enters the gate once for each range; and of rows that are added to groups. Each test ends by itself, and tells
//! the same whatever threads do.
#![tactic(auto)]

#[cfg(test)]
mod adding;
#[cfg(test)]
mod answers;
#[cfg(test)]
mod entries;
#[cfg(test)]
mod gated;
#[cfg(test)]
mod queries;
#[cfg(test)]
mod ranges;
#[cfg(test)]
mod scattered;
