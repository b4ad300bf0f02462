//! Tests of `source_lex`: a crate with tests is proved twice, so they stand in one of their own.
#![tactic(auto)]

#[cfg(test)]
mod numbers;
#[cfg(test)]
mod scans;
