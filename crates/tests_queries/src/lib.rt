//! Tests of the public calls of `dr_places`, `dr_patterns`, `dr_rowindex`, `dr_filter`, `dr_select`, `dr_having`, `dr_order` and
//! `dr_ask`, value by value and refusal by refusal: of filters and conditions on groups, that they keep the same one by one and asked of
//! many at once.
//! They stand here so that no crate below them is proved once more with its tests.
#![tactic(auto)]

#[cfg(test)]
mod filters;
#[cfg(test)]
mod groups;
#[cfg(test)]
mod indexes;
#[cfg(test)]
mod likes;
#[cfg(test)]
mod orders;
#[cfg(test)]
mod queries;
#[cfg(test)]
mod rows;
