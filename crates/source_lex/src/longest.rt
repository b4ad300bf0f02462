//! The longest lexeme at the front of a text.
ghost use Rattle.std.specs.Prelude.{◌≡◌, ◌≢◌, AllPairs, ℕ, ◌<◌, ◌≤◌, ◌∷◌, length, MatchOption};
ghost use Rattle.gram_form.specs.Plain.{texts};
ghost use Rattle.source_lex.specs.Lexemes.{IsNext, HasNone};
ghost use Rattle.source_lex.specs.Literals.{HasLengths, IsLongestAmong, HasNoneAmong, IsLongestWord, HasNoWord};

use crate::bytes::name_bytes;
use crate::lexeme::LexKind;
use crate::literals::Literals;
use meta_lex::bytes::{digits, is_digit, is_letter};

// The longest identifier or numeral at the front.
fn longest_word(first: u8, after: &[u8]) -> Option<(LexKind, usize)>
    requires { length after.now < 4294967295 }
    ensures { MatchOption result (HasNoWord (first ∷ after.now))
        (λ r. IsLongestWord (first ∷ after.now) r.0 r.1) }
{
    if is_letter(first) {
        Some((LexKind::Identifier, 1 + name_bytes(after)))
    } else if is_digit(first) {
        Some((LexKind::Numeral, 1 + digits(after)))
    } else {
        None
    }
}

/// The longest lexeme at the front, and its length. A literal is taken before an identifier or a
/// numeral of the same length.
pub(crate) fn longest(literals: &Literals<'_>, rest: &[u8]) -> Option<(LexKind, usize)>
    requires some { 0 < length rest.now }
    requires small { length rest.now < 4294967296 }
    requires few { length literals.now.texts.keys < 4294967296 }
    requires lengths { HasLengths literals.now.lengths.keys (texts literals.now.texts.keys) }
    requires distinct { AllPairs (λ x y. x ≢ y) (texts literals.now.texts.keys) }
    ensures { MatchOption result (HasNone (texts literals.now.texts.keys) rest.now)
        (λ r. IsNext (texts literals.now.texts.keys) rest.now r.0 r.1) }
{
    let (_, after) = rest.split_at(1);
    match (literals.longest(rest), longest_word(rest[0], after)) {
        (None, word) => word,
        (Some((number, len)), None) => Some((LexKind::Literal(number), len)),
        (Some((number, len)), Some(word)) => {
            if len < word.1 {
                Some(word)
            } else {
                Some((LexKind::Literal(number), len))
            }
        }
    }
}
