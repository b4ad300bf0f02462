//! Action texts: reading them as graphs of actions, and printing graphs as such texts.
#![tactic(auto)]

mod action_jobs;
pub mod action_reader;
mod classes;
pub mod errors;
mod lookup;
mod names;
mod notes;
mod preorder;
mod print_jobs;
pub mod printing;
mod reading;
mod spacing;
mod table;
pub mod template_reader;
mod token_class;
mod unfinished;
mod yielder_jobs;

pub use token_class::{is_function, is_variable};
