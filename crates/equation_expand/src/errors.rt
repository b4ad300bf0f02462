//! Why a tree has no action.
ghost use Rattle.std.specs.Prelude.{◌≡◌};
ghost use Rattle.equation_expand.specs.declared.errors.ExpandError.TheVariants as error;

use acg_base::Memory;
use std::alloc::{AllocError, AllocFailed};
use thiserror::Error;

/// Why the tree of a source has no action.
#[derive(Clone, Copy, Debug, PartialEq, Eq, Drop, Error)]
pub enum ExpandError {
    /// No memory was left.
    #[error("out of memory")]
    Memory,
    /// The first application that has no equation. Each number counts from 0.
    #[error("no equation of function {function} for alternative {alternative} of production {production}")]
    Uncovered {
        /// The number of the function among those that are declared.
        function: u32,
        /// The number of the production.
        production: u32,
        /// The number of the alternative within the production.
        alternative: u32,
    },
    /// The first numeral whose value passes 64 signed bits.
    #[error("the numeral at byte {offset} is too large")]
    BigNumeral {
        /// How many bytes of the source stand before it.
        offset: u32,
    },
    /// The action has more nodes than the limit.
    #[error("the action has too many nodes")]
    Nodes,
    /// The first `unfold` that has no `unfolding` around it.
    #[error("the unfold of node {node} has no unfolding around it")]
    StrayUnfold {
        /// Its number, in preorder from 0.
        node: u32,
    },
}

impl From<AllocError> for ExpandError {
    ghost from_gives = { λ _ e. e ≡ error.Memory };

    fn from(_error: AllocError) -> ExpandError {
        ExpandError::Memory
    }
}

impl<T: Drop> From<AllocFailed<T>> for ExpandError {
    ghost from_gives = { λ _ e. e ≡ error.Memory };

    fn from(_error: AllocFailed<T>) -> ExpandError {
        ExpandError::Memory
    }
}

impl From<Memory> for ExpandError {
    ghost from_gives = { λ _ e. e ≡ error.Memory };

    fn from(_error: Memory) -> ExpandError {
        ExpandError::Memory
    }
}
