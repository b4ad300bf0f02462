//! Tests of `rv_prelude`: a crate with tests is proved twice, so they stand in one of their own.
#![tactic(auto)]

#[cfg(test)]
mod chains;
#[cfg(test)]
mod outside;
#[cfg(test)]
mod programs;
