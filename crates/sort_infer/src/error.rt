//! Why no table is answered.
ghost use Rattle.std.specs.Prelude.{◌≡◌};
ghost use Rattle.sort_infer.specs.declared.error.SortError.TheVariants as sort_error;

use acg_base::Memory;
use std::alloc::{AllocError, AllocFailed};
use thiserror::Error;

/// Why no table is answered.
#[derive(Clone, Copy, Debug, PartialEq, Eq, Drop, Error)]
pub enum SortError {
    /// Want of memory.
    #[error("out of memory")]
    Memory,
    /// No table is admissible.
    #[error("ill-sorted at node {node}")]
    IllSorted {
        /// The least node at which the least marked table has a clash.
        node: u32,
    },
}

impl From<Memory> for SortError {
    ghost from_gives = { λ _ error. error ≡ sort_error.Memory };

    fn from(_error: Memory) -> SortError {
        SortError::Memory
    }
}

impl From<AllocError> for SortError {
    ghost from_gives = { λ _ error. error ≡ sort_error.Memory };

    fn from(_error: AllocError) -> SortError {
        SortError::Memory
    }
}

impl<T: Drop> From<AllocFailed<T>> for SortError {
    ghost from_gives = { λ _ error. error ≡ sort_error.Memory };

    fn from(_error: AllocFailed<T>) -> SortError {
        SortError::Memory
    }
}
