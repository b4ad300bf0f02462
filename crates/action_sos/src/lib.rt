//! Performances of actions, a step at a time.
#![tactic(auto)]

mod answers;
mod branch;
mod compounds;
mod end_steps;
mod ends;
mod grow;
mod joins;
mod moves;
mod node_steps;
mod part;
mod performer;
mod plan;
mod primitives;
mod running;
mod take;
mod world;

pub use answers::{Moved, Outcome};
pub use performer::Performer;
