//! Tests of rows where they lie, over `dr_rollup` and `dr_fragment`: those of an open index, and those of the range of an image.
#![tactic(auto)]

#[cfg(test)]
mod images;
#[cfg(test)]
mod indexes;
#[cfg(test)]
mod rows;
