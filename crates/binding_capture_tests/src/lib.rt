//! Tests of `binding_capture`: a crate with tests is proved twice, so they stand in one of their own.
#![tactic(auto)]

#[cfg(test)]
mod captured;
