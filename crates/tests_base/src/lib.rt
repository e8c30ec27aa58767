//! Tests of the public calls of `dr_base`, `dr_time`, `dr_gran`, `dr_agg`, `dr_slots` and `dr_dict` that no script of `examples/`
//! reaches.
//! They stand here so that no crate of the program is proved once more with its tests.
#![tactic(auto)]

#[cfg(test)]
mod buckets;
#[cfg(test)]
mod dictionaries;
#[cfg(test)]
mod fields;
#[cfg(test)]
mod rollups;
#[cfg(test)]
mod slots;
#[cfg(test)]
mod unions;
