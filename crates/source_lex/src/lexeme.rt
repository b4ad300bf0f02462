//! Lexemes.
ghost use Rattle.std.specs.Prelude.{IsTrue};
ghost use Rattle.source_lex.specs.Forms.{has_form};

use std::marker::Model;

/// What a lexeme is.
#[derive(Clone, Copy, Debug, PartialEq, Eq)]
pub enum LexKind {
    /// The literal of the grammar with this number, from 0.
    Literal(u32),
    /// A letter, then letters, digits and `_`.
    Identifier,
    /// One or more digits.
    Numeral,
}

/// A lexeme, as it stands in a source.
#[derive(Clone, Copy)]
pub struct Lexeme<'a> {
    /// What it is.
    pub kind: LexKind,
    /// Its bytes.
    pub bytes: &'a [u8],
    /// How many bytes of the source stand before it.
    pub offset: u32,
    // The bytes of an identifier or a numeral have its form.
    pub ghost form: { IsTrue (has_form kind bytes.now) },
}

/// The lexemes of a source, in order. Contracts see the list of their kinds, bytes and offsets.
#[derive(Drop)]
pub struct Lexemes<'a> {
    /// The lexemes.
    pub list: &'a [Lexeme<'a>],
}

impl<'a> Model for Lexemes<'a> {
    ghost use Rattle.std.specs.Prelude.{List, map};
    ghost use Rattle.source_lex.specs.Lexemes.{PlainLexeme, plain_lexeme};

    ghost Value = { List PlainLexeme };

    ghost view = { λ l. map plain_lexeme l.list.now };
}
