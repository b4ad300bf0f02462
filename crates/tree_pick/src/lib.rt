//! The one tree of a source: a phrase of the start over all its lexemes, where there is no other.
#![tactic(auto)]

mod building;
mod choices;
mod corners;
pub mod errors;
mod parse;
mod phrases;
pub mod picking;
mod runs;
mod walking;

pub use errors::TreeError;
pub use picking::pick;
