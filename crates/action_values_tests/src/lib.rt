//! Tests of `action_values`: a crate with tests is proved twice, so they stand in one of their own.
#![tactic(auto)]

#[cfg(test)]
mod bindings;
#[cfg(test)]
mod yielding;
