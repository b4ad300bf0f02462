//! Tests of `rv_yield`: a crate with tests is proved twice, so they stand in one of their own.
#![tactic(auto)]

#[cfg(test)]
mod evaluation;
#[cfg(test)]
mod lookups;
#[cfg(test)]
mod programs;
#[cfg(test)]
mod truths;
