//! Tests of `sort_rules`: a crate with tests is proved twice, so they stand in one of their own.
#![tactic(auto)]

#[cfg(test)]
mod judgements;
#[cfg(test)]
mod measures;
#[cfg(test)]
mod parts;
#[cfg(test)]
mod tables;
