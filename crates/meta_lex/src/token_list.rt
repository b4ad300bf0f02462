//! The tokens of a text, in an arena.
use crate::token::Token;
use std::marker::Model;

/// The tokens of a text, in order. Contracts see the list of their kinds, bytes and offsets.
#[derive(Drop)]
pub struct Tokens<'a> {
    /// The tokens.
    pub list: &'a [Token<'a>],
}

impl<'a> Model for Tokens<'a> {
    ghost use Rattle.std.specs.Prelude.{List, map};
    ghost use Rattle.meta_lex.specs.Tokens.{PlainToken, plain_token};

    ghost Value = { List PlainToken };

    ghost view = { λ t. map plain_token t.list.now };
}
