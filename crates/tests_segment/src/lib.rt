//! Tests of the public calls of `dr_image` and `dr_segment`: images of other programs, whole and damaged, are opened, and rows are
//! written. They stand here so that neither crate is proved once more with its tests.
#![tactic(auto)]

#[cfg(test)]
mod damage;
#[cfg(test)]
mod reading;
#[cfg(test)]
mod writing;
