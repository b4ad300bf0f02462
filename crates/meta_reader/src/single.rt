//! Single tokens of a run.
ghost use Rattle.std.specs.Prelude.{◌≡◌, option_map};
ghost use Rattle.std.specs.Str.{bytes_eq};
ghost use Rattle.meta_lex.specs.Forms.{is_quoted};
ghost use Rattle.gram_form.specs.Plain.{plain_part};
ghost use Rattle.action_text.specs.Notes.{unquoted};
ghost use Rattle.meta_reader.specs.Parsing.{part_of};

use action_text::is_variable;
use gram_form::Part;
use meta_lex::token::{Token, TokenKind};

/// Tells whether a token is the word or symbol.
pub fn is_token(token: &Token<'_>, bytes: &[u8]) -> bool
    ensures { result ≡ bytes_eq token.now.bytes.now bytes.now }
{
    token.bytes == bytes
}

/// Tells whether a token is a quoted text.
pub fn is_quoted(token: &Token<'_>) -> bool
    ensures { result ≡ is_quoted token.now.bytes.now }
{
    token.kind == TokenKind::Quoted
}

/// The bytes between the quotes.
pub fn unquoted(token: &[u8]) -> &[u8]
    ensures { result.now ≡ unquoted token.now }
{
    if token.len() < 2 {
        &[]
    } else {
        &token[1..token.len() - 1]
    }
}

/// The part that a token is.
pub fn part_of<'a>(token: &Token<'a>) -> Option<Part<'a>>
    ensures { option_map plain_part result ≡ part_of token.now.bytes.now }
{
    if is_quoted(token) {
        Some(Part::Literal(unquoted(token.bytes)))
    } else if is_token(token, b"identifier") {
        Some(Part::Identifier)
    } else if is_token(token, b"numeral") {
        Some(Part::Numeral)
    } else if is_variable(token) {
        Some(Part::Nonterm(token.bytes))
    } else {
        None
    }
}
