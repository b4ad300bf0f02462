//! The least sort table of an action, or the node at which it is ill-sorted.
#![tactic(auto)]

mod error;
mod inference;
mod queue;
mod raising;
mod settling;
mod tables;
mod task;
mod tour;
mod worklist;

pub use error::SortError;
pub use inference::infer;
