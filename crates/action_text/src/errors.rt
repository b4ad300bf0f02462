//! Why a text is no action text.
ghost use Rattle.std.specs.Prelude.{◌≡◌};
ghost use Rattle.action_text.specs.declared.errors.TextError.TheVariants as error;

use acg_base::Memory;
use action_terms::GraphError;
use meta_lex::lex::LexError;
use std::alloc::{AllocError, AllocFailed};
use thiserror::Error;

/// Why a text is no action text, in the order in which the causes are looked for.
#[derive(Clone, Copy, Debug, PartialEq, Eq, Drop, Error)]
pub enum TextError {
    /// No memory was left.
    #[error("out of memory")]
    Memory,
    /// The first place where, after blanks, no token begins.
    #[error("no token begins at byte {offset}")]
    BadByte {
        /// How many bytes stand before it.
        offset: u32,
    },
    /// The first token with which the tokens so far begin no action text, or the end of a text
    /// that ends too early.
    #[error("the text goes wrong at byte {offset}")]
    NotAction {
        /// How many bytes stand before the token, or how many the text has.
        offset: u32,
    },
    /// The action has more than 65536 nodes, action nodes and yielders together.
    #[error("there are more than 65536 nodes")]
    Nodes,
    /// An `unfold` has no `unfolding` around it within its own closure, or within the action.
    #[error("the unfold at node {node} is stray")]
    StrayUnfold {
        /// The number of the least such node.
        node: u32,
    },
}

impl From<AllocError> for TextError {
    ghost from_gives = { λ _ e. e ≡ error.Memory };

    fn from(_error: AllocError) -> TextError {
        TextError::Memory
    }
}

impl<T: Drop> From<AllocFailed<T>> for TextError {
    ghost from_gives = { λ _ e. e ≡ error.Memory };

    fn from(_error: AllocFailed<T>) -> TextError {
        TextError::Memory
    }
}
