//! Tests of the public calls of `dr_schema`, `dr_spec` and `dr_events` that no script of `examples/` reaches.
//! They stand here so that no crate of the program is proved once more with its tests.
#![tactic(auto)]

#[cfg(test)]
mod events;
