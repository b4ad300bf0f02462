//! Cutting a text into tokens.
ghost use Rattle.std.specs.Prelude.{◌≡◌, ◌<◌, ◌≤◌, ◌∷◌, length, drop, IfOk, IfErr, MatchOption};
ghost use Rattle.meta_lex.specs.Tokens.{AreTokens, AreNoOthers, IsTokenAt, IsLongest, HasNone, after_blanks, plain_token};
ghost use Rattle.meta_lex.specs.LexErrors.{IsLexError};
ghost use Rattle.meta_lex.specs.Forms.{kind_of};
ghost use Rattle.meta_lex.specs.declared.lex.LexError.TheVariants.{Memory};

use crate::bytes::{
    blanks, digits, is_bracket, is_digit, is_letter, is_single, quotable_bytes, word_bytes,
};
use crate::token::{Token, TokenKind};
use crate::token_list::Tokens;
use bumpalo::Bump;
use std::alloc::{AllocError, AllocFailed, Global};
use thiserror::Error;

/// Why a text has no tokens.
#[derive(Clone, Copy, Debug, PartialEq, Eq, Drop, Error)]
pub enum LexError {
    /// No memory was left.
    #[error("out of memory")]
    Memory,
    /// The first place where, after blanks, no token begins.
    #[error("no token begins at byte {offset}")]
    BadByte {
        /// How many bytes stand before it.
        offset: u32,
    },
}

impl From<AllocError> for LexError {
    ghost from_gives = { λ _ e. e ≡ Memory };

    fn from(_error: AllocError) -> LexError {
        LexError::Memory
    }
}

impl<T: Drop> From<AllocFailed<T>> for LexError {
    ghost from_gives = { λ _ e. e ≡ Memory };

    fn from(_error: AllocFailed<T>) -> LexError {
        LexError::Memory
    }
}

// The length of the longest number at the front, of one or more bytes.
fn number_len(first: u8, after: &[u8]) -> Option<usize>
    requires small { length after.now < 4294967295 }
    requires begins { kind_of first ≡ TokenKind.Number }
    ensures { MatchOption result (HasNone (first ∷ after.now)) (IsLongest TokenKind.Number (first ∷ after.now)) }
{
    let count = digits(after);
    if first == b'-' && count == 0 {
        None
    } else {
        Some(1 + count)
    }
}

// The length of the quoted text at the front, behind its first quote.
fn quoted_len(after: &[u8]) -> Option<usize>
    requires small { length after.now < 4294967295 }
    ensures { MatchOption result (HasNone (34 ∷ after.now)) (IsLongest TokenKind.Quoted (34 ∷ after.now)) }
{
    let count = quotable_bytes(after);
    if 0 < count && count < after.len() && after[count] == b'"' {
        Some(count + 2)
    } else {
        None
    }
}

// The length of the symbol at the front, of one or more bytes.
fn symbol_len(first: u8, after: &[u8]) -> Option<usize>
    requires begins { kind_of first ≡ TokenKind.Symbol }
    ensures { MatchOption result (HasNone (first ∷ after.now)) (IsLongest TokenKind.Symbol (first ∷ after.now)) }
{
    if is_single(first) {
        Some(1)
    } else if is_bracket(first) && !after.is_empty() && after[0] == first {
        Some(2)
    } else {
        None
    }
}

// The kind and the length of the longest token at the front, of one or more bytes.
fn longest(first: u8, after: &[u8]) -> Option<(TokenKind, usize)>
    requires { length after.now < 4294967295 }
    ensures { MatchOption result (HasNone (first ∷ after.now)) (λ t. IsLongest t.0 (first ∷ after.now) t.1) }
{
    if is_letter(first) {
        Some((TokenKind::Word, 1 + word_bytes(after)))
    } else if is_digit(first) || first == b'-' {
        Some((TokenKind::Number, number_len(first, after)?))
    } else if first == b'"' {
        Some((TokenKind::Quoted, quoted_len(after)?))
    } else {
        Some((TokenKind::Symbol, symbol_len(first, after)?))
    }
}

// The longest token at the place.
fn token_at<'a>(text: &'a [u8], at: usize) -> Option<Token<'a>>
    requires within { at < length text.now }
    requires small { length text.now < 4294967295 }
    ensures { MatchOption result (HasNone (drop at text.now)) (λ t. IsTokenAt text.now at (plain_token t)) }
{
    let (_, rest) = text.split_at(at);
    let (_, after) = rest.split_at(1);
    let (kind, len) = longest(rest[0], after)?;
    let (bytes, _) = rest.split_at(len);
    Some(Token {
        kind,
        bytes,
        offset: at as u32,
    })
}

// The first place from the given one on where no blank stands.
fn after_blanks(text: &[u8], from: usize) -> usize
    requires { from ≤ length text.now }
    ensures value { result ≡ after_blanks text.now from }
    ensures within { result ≤ length text.now }
{
    let (_, rest) = text.split_at(from);
    from + blanks(rest)
}

/// Cuts a text into its tokens: at each place the longest one, after the blanks (the bytes 9, 10,
/// 13 and 32). The tokens lie in the arena; `alloc` is for what is given back before the answer.
///
/// `LexError::BadByte` comes exactly where, after some tokens and blanks, no token begins, with the
/// first such place; `LexError::Memory` where no memory is left.
pub fn tokens<'a>(alloc: Global, arena: &'a Bump, bytes: &[u8]) -> Result<Tokens<'a>, LexError>
    requires { length bytes.now < 4294967295 }
    ensures tokens { IfOk result (λ ts. AreTokens bytes.now ts) }
    ensures no_others { IfOk result (λ ts. AreNoOthers bytes.now ts) }
    ensures error { IfErr result (λ e. IsLexError bytes.now e) }
{
    let text: &'a [u8] = arena.try_alloc_slice_copy(bytes)?;
    let mut list = Vec::new(alloc);
    let mut at = after_blanks(text, 0);
    while at < text.len() {
        let Some(token) = token_at(text, at) else {
            return Err(LexError::BadByte { offset: at as u32 });
        };
        at = after_blanks(text, at + token.bytes.len());
        list.push(token)?;
    }
    let list: &'a [Token<'a>] = arena.try_alloc_slice_copy(list.as_slice())?;
    Ok(Tokens { list })
}
