//! Tests of `run_core_one` and `run_core` of `dr_core`, over lists of steps that no script of `examples/` has.
#![tactic(auto)]

#[cfg(test)]
mod runs;
