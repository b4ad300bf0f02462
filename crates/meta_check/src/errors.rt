//! Why items are no description.
ghost use Rattle.std.specs.Prelude.{◌≡◌};
ghost use Rattle.meta_check.specs.declared.errors.MetaError.TheVariants as error;

use std::alloc::{AllocError, AllocFailed};
use thiserror::Error;

/// Why items are no description.
#[derive(Clone, Copy, Debug, PartialEq, Eq, Drop, Error)]
pub enum MetaError {
    /// No memory was left.
    #[error("out of memory")]
    Memory,
    /// The first rule that is broken, and the first item that breaks it.
    #[error("item {item} breaks rule {rule}")]
    Rule {
        /// The number of the rule, from 1.
        rule: u8,
        /// The number of the item, from 0.
        item: u32,
    },
}

impl From<AllocError> for MetaError {
    ghost from_gives = { λ _ e. e ≡ error.Memory };

    fn from(_error: AllocError) -> MetaError {
        MetaError::Memory
    }
}

impl<T: Drop> From<AllocFailed<T>> for MetaError {
    ghost from_gives = { λ _ e. e ≡ error.Memory };

    fn from(_error: AllocFailed<T>) -> MetaError {
        MetaError::Memory
    }
}
