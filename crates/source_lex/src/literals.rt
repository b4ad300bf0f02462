//! The literals of a grammar, by their bytes.
ghost use Rattle.std.specs.Prelude.{◌≡◌, ◌≢◌, ℕ, ◌<◌, AllPairs, IfOk, MatchOption, length};
ghost use Rattle.gram_form.specs.Plain.{texts};
ghost use Rattle.source_lex.specs.Lexemes.{IsLexeme};
ghost use Rattle.source_lex.specs.Literals.{HasLengths, IsLongestAmong, HasNoneAmong};
ghost use Rattle.source_lex.specs.declared.lexeme.LexKind.TheVariants.{Literal};

use crate::places::places;
use indexmap::IndexSet;
use std::alloc::{AllocError, Global};

/// The literals, and each length that one of them has.
#[derive(Drop)]
pub(crate) struct Literals<'g> {
    texts: IndexSet<&'g [u8]>,
    lengths: IndexSet<usize>,
}

impl<'g> Literals<'g> {
    /// The literals of a grammar.
    pub(crate) fn new(alloc: Global, literals: &[&'g [u8]]) -> Result<Literals<'g>, AllocError>
        requires { AllPairs (λ x y. x ≢ y) (texts literals.now) }
        ensures literals { IfOk result (λ r. texts r.texts.keys ≡ texts literals.now) }
        ensures lengths { IfOk result (λ r. HasLengths r.lengths.keys (texts r.texts.keys)) }
    {
        let texts = places(alloc, literals)?;
        let mut lengths = IndexSet::new(alloc);
        for literal in literals {
            lengths.insert(literal.len())?;
        }
        Ok(Literals { texts, lengths })
    }

    // The number of the literal that the first `len` bytes are.
    fn of_length(&self, rest: &[u8], len: usize) -> Option<u32>
        requires { length self.now.texts.keys < 4294967296 }
        ensures { MatchOption result
            ((k : ℕ) → IsLexeme (texts self.now.texts.keys) (Literal k) rest.now len → ⊥)
            (λ k. IsLexeme (texts self.now.texts.keys) (Literal k) rest.now len) }
    {
        if len == 0 || len > rest.len() {
            return None;
        }
        let front = &rest[..len];
        let number = self.texts.get_index_of(&front)?;
        Some(number as u32)
    }

    /// The number of the longest literal at the front, and its length.
    pub(crate) fn longest(&self, rest: &[u8]) -> Option<(u32, usize)>
        requires few { length self.now.texts.keys < 4294967296 }
        requires lengths { HasLengths self.now.lengths.keys (texts self.now.texts.keys) }
        ensures { MatchOption result (HasNoneAmong (texts self.now.texts.keys) rest.now)
            (λ r. IsLongestAmong (texts self.now.texts.keys) rest.now r.0 r.1) }
    {
        let mut found = None;
        let mut most = 0;
        for len in self.lengths.as_slice() {
            if *len > most {
                if let Some(number) = self.of_length(rest, *len) {
                    found = Some((number, *len));
                    most = *len;
                }
            }
        }
        found
    }
}
