//! Charts: which nonterminals have a tree over which spans of lexemes.
#![tactic(auto)]

pub mod filling;
mod first;
mod near;
mod numbers;
mod rows;
mod rule_lists;
mod rules;
mod runs;
mod source;
pub mod spans;

pub use spans::Chart;
