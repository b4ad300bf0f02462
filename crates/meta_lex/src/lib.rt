//! The tokens of action texts and descriptions: words, numbers, quoted texts and symbols.
#![tactic(auto)]

pub mod bytes;
pub mod lex;
pub mod token;
pub mod token_list;
