//! One token.
ghost use Rattle.std.specs.Prelude.{IsTrue};
ghost use Rattle.meta_lex.specs.Forms.{has_form};

/// What a token is.
#[derive(Clone, Copy, Debug, PartialEq, Eq)]
pub enum TokenKind {
    /// A letter, then letters, digits and `-`.
    Word,
    /// One or more digits, with `-` before them or not.
    Number,
    /// One or more bytes from 0x21 to 0x7E but no `"`, between two `"`.
    Quoted,
    /// One of `[[ ]] ( ) , # . = | : _`.
    Symbol,
}

/// A token, as it stands in a text.
#[derive(Clone, Copy)]
pub struct Token<'a> {
    /// What it is.
    pub kind: TokenKind,
    /// Its bytes, the quotes of a quoted text too.
    pub bytes: &'a [u8],
    /// How many bytes of the text stand before it.
    pub offset: u32,
    // The bytes have the form of the kind.
    pub ghost form: { IsTrue (has_form kind bytes.now) },
}
