//! Grammars of languages, and the trees of their phrases.
#![tactic(auto)]

mod copying;
pub mod errors;
pub mod grammar;
mod literals;
pub mod part;
pub mod tree;
mod undefined;

pub use errors::GramError;
pub use grammar::Grammar;
pub use part::{Part, Production};
pub use tree::{Tree, TreePart};
