//! Tests of `rv_codegen`: a crate with tests is proved twice, so they stand in one of their own.
#![tactic(auto)]

#[cfg(test)]
mod calls;
#[cfg(test)]
mod counts;
#[cfg(test)]
mod generation;
#[cfg(test)]
mod storage;
#[cfg(test)]
mod tools;
