//! Why a source has no one tree.
ghost use Rattle.std.specs.Prelude.{◌≡◌};
ghost use Rattle.tree_pick.specs.declared.errors.TreeError.TheVariants as error;

use acg_base::Memory;
use std::alloc::AllocError;
use thiserror::Error;

/// Why a source has no one tree.
#[derive(Clone, Copy, Debug, PartialEq, Eq, Drop, Error)]
pub enum TreeError {
    /// No memory was left.
    #[error("out of memory")]
    Memory,
    /// No tree of the start spans all lexemes.
    #[error("no tree")]
    NoTree,
    /// Two different trees of the start span all lexemes.
    #[error("two different trees")]
    Ambiguous,
}

impl From<Memory> for TreeError {
    ghost from_gives = { λ _ e. e ≡ error.Memory };

    fn from(_error: Memory) -> TreeError {
        TreeError::Memory
    }
}

impl From<AllocError> for TreeError {
    ghost from_gives = { λ _ e. e ≡ error.Memory };

    fn from(_error: AllocError) -> TreeError {
        TreeError::Memory
    }
}
