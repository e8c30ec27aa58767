//! Tests of runs of a script whose input or output fails in mid-stream, or comes in parts, as no file and no terminal does on demand.
//! They stand here so that no crate of the program is proved once more with its tests.
#![tactic(auto)]

#[cfg(test)]
mod runs;
