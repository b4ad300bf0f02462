//! Descriptions read: their items, as plain data, or the first run that is none of a description.
#![tactic(auto)]

mod alternatives;
mod patterns;
pub mod phase;
pub mod reader;
mod rules;
mod runs;
mod single;
