//! Why productions are no grammar.
ghost use Rattle.std.specs.Prelude.{◌≡◌};
ghost use Rattle.gram_form.specs.declared.errors.GramError.TheVariants as error;

use std::alloc::{AllocError, AllocFailed};
use thiserror::Error;

/// Why productions with distinct names are no grammar.
#[derive(Clone, Copy, Debug, PartialEq, Eq, Drop, Error)]
pub enum GramError {
    /// No memory was left.
    #[error("out of memory")]
    Memory,
    /// The first part that names a nonterminal without a production. Each number counts from 0.
    #[error("part {part} of alternative {alternative} of production {production} is undefined")]
    Undefined {
        /// The number of its production.
        production: u32,
        /// The number of its alternative within the production.
        alternative: u32,
        /// The number of the part within the alternative.
        part: u32,
    },
    /// There is no production.
    #[error("there is no production")]
    Empty,
}

impl From<AllocError> for GramError {
    ghost from_gives = { λ _ e. e ≡ error.Memory };

    fn from(_error: AllocError) -> GramError {
        GramError::Memory
    }
}

impl<T: Drop> From<AllocFailed<T>> for GramError {
    ghost from_gives = { λ _ e. e ≡ error.Memory };

    fn from(_error: AllocFailed<T>) -> GramError {
        GramError::Memory
    }
}
