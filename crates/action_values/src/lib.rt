//! The values of actions in an arena: data and bindings, the operations on them, and what yielders yield.
#![tactic(auto)]

pub mod bindings;
mod context;
pub mod data;
pub mod datum;
mod leaves;
mod operations;
mod walk;
pub mod yielding;

pub use datum::{Binding, Datum};
