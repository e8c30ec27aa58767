//! Tests of loads: files that lie in memory, ingested by threads.
#![tactic(auto)]

#[cfg(test)]
mod bell;
#[cfg(test)]
mod ending;
#[cfg(test)]
mod loads;
#[cfg(test)]
mod meeting;
#[cfg(test)]
mod publications;
#[cfg(test)]
mod signals;
