//! Tests of the public calls of `dr_scan`: scans over an image, the text of entries, and identifiers.
//! They stand here so that no crate below them is proved once more with its tests.
#![tactic(auto)]

#[cfg(test)]
mod identifiers;
#[cfg(test)]
mod scans;
