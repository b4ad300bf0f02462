//! The lexemes of a source, and the trees of phrases over them.
#![tactic(auto)]

mod bytes;
pub mod errors;
pub mod lexeme;
mod literals;
mod longest;
pub mod numbered;
mod places;
pub mod scanning;

pub use errors::ScanError;
pub use lexeme::{LexKind, Lexeme, Lexemes};
pub use numbered::{NumberedGrammar, Symbol};
pub use scanning::scan;
