//! The bytes of a text in the making: tokens, and the spaces between them.
ghost use Rattle.std.specs.Prelude.{◌≡◌, ℕ, ◌∷◌, ◌++◌, [], List, OnOk, Some, length};
ghost use Rattle.std.specs.List.{list_any};
ghost use Rattle.acg_base.specs.Decimals.{decimal_of};
ghost use Rattle.meta_terms.specs.Words.{same_bytes};
ghost use Rattle.action_text.specs.Canonical.{is_joined, spaced, function_words};
ghost use Rattle.action_text.specs.Printing.{Says, SaysMore, HasGap};

use crate::unfinished::Text;
use acg_base::decimal_into;
use std::alloc::{AllocError, Global};

/// The words behind which a parenthesis opens arguments.
static FUNCTION_WORDS: [&[u8]; 12] = [
    b"sum",
    b"difference",
    b"product",
    b"integer-quotient",
    b"integer-remainder",
    b"is",
    b"than",
    b"both",
    b"either",
    b"negation",
    b"not",
    b"branch",
];

// Whether two tokens are the same.
fn is_same(token: &[u8], other: &[u8]) -> bool
    ensures { result ≡ same_bytes token.now other.now }
{
    token == other
}

// Whether the token is among the words.
fn is_among(token: &[u8], words: &[&[u8]]) -> bool
    ensures { result ≡ list_any (λ word. same_bytes token.now word.now) words.now }
{
    words.iter().any(|word| is_same(token, word))
}

// Whether a parenthesis behind the token opens arguments.
fn opens_arguments(token: &[u8]) -> bool
    ensures { result ≡ list_any (same_bytes token.now) function_words }
{
    is_among(token, &FUNCTION_WORDS)
}

// Whether no space stands between the two tokens.
fn is_joined(before: &[u8], token: &[u8]) -> bool
    ensures { result ≡ is_joined before.now token.now }
{
    is_same(before, b"(")
        || is_same(token, b")")
        || is_same(token, b",")
        || (is_same(token, b"(") && opens_arguments(before))
}

impl Text {
    /// A text with no token.
    pub fn new(alloc: Global) -> Text
        ensures { Says result [] }
    {
        Text {
            bytes: Vec::new(alloc),
            last: None,
        }
    }

    // Puts a space, where one stands before the token, and notes that the token begins there.
    fn begin(&mut self, token: &[u8]) -> Result<(), AllocError>
        ensures bytes { OnOk result (HasGap self.old self.new.bytes.items token.now) }
        ensures last { OnOk result (self.new.last ≡ Some (length self.new.bytes.items)) }
    {
        if let Some(start) = self.last {
            if !is_joined(&self.bytes[start..], token) {
                self.bytes.push(b' ')?;
            }
        }
        self.last = Some(self.bytes.len());
        Ok(())
    }

    /// Appends a word or a symbol.
    pub fn say(&mut self, token: &[u8]) -> Result<(), AllocError>
        ensures { OnOk result (SaysMore self.old self.new token.now) }
    {
        self.begin(token)?;
        self.bytes.extend_from_slice(token)?;
        Ok(())
    }

    /// Appends the decimal of a number.
    pub fn say_number(&mut self, value: i64) -> Result<(), AllocError>
        ensures { OnOk result (SaysMore self.old self.new (decimal_of value)) }
    {
        let mut digits = [0; 20];
        let size = decimal_into(value, &mut digits);
        self.say(&digits[..size])
    }

    /// Appends a quoted text of these bytes.
    pub fn say_quoted(&mut self, bytes: &[u8]) -> Result<(), AllocError>
        ensures { OnOk result (SaysMore self.old self.new (34 ∷ (bytes.now ++ 34 ∷ []))) }
    {
        self.begin(b"\"")?;
        self.bytes.push(b'"')?;
        self.bytes.extend_from_slice(bytes)?;
        self.bytes.push(b'"')?;
        Ok(())
    }

    /// The bytes of the text.
    pub fn into_bytes(self) -> Vec<u8>
        ensures { (tokens : List (List ℕ)) → Says self tokens → result.items ≡ spaced tokens }
    {
        self.bytes
    }
}
