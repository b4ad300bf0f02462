//! The meaning of a source by the equations of a language: the tree becomes one action.
#![tactic(auto)]

mod covering;
mod entering;
pub mod errors;
pub mod expanding;
mod filled;
mod filling;
mod frames;
mod source;
mod table;

pub use errors::ExpandError;
pub use expanding::expand;
