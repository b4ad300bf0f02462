//! Tests of `acg_driver`: a crate with tests is proved twice, so they stand in one of their own.
#![tactic(auto)]

#[cfg(test)]
mod act;
#[cfg(test)]
mod assembled;
#[cfg(test)]
mod compiled;
#[cfg(test)]
mod faults;
#[cfg(test)]
mod images;
#[cfg(test)]
mod options;
#[cfg(test)]
mod others;
#[cfg(test)]
mod perform;
#[cfg(test)]
mod tools;
#[cfg(test)]
mod yielders;
