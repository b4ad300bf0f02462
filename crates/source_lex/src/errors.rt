//! Why a source has no lexemes.
ghost use Rattle.std.specs.Prelude.{◌≡◌};
ghost use Rattle.source_lex.specs.declared.errors.ScanError.TheVariants.{Memory};

use std::alloc::{AllocError, AllocFailed};
use thiserror::Error;

/// Why a source has no lexemes.
#[derive(Clone, Copy, Debug, PartialEq, Eq, Drop, Error)]
pub enum ScanError {
    /// No memory was left.
    #[error("out of memory")]
    Memory,
    /// The first place where, after blanks, no lexeme begins.
    #[error("no lexeme begins at byte {offset}")]
    BadByte {
        /// How many bytes stand before it.
        offset: u32,
    },
    /// The source has more than 4096 lexemes.
    #[error("more than 4096 lexemes")]
    Count,
}

impl From<AllocError> for ScanError {
    ghost from_gives = { λ _ e. e ≡ Memory };

    fn from(_error: AllocError) -> ScanError {
        ScanError::Memory
    }
}

impl<T: Drop> From<AllocFailed<T>> for ScanError {
    ghost from_gives = { λ _ e. e ≡ Memory };

    fn from(_error: AllocFailed<T>) -> ScanError {
        ScanError::Memory
    }
}
