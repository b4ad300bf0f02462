//! Cutting a source into lexemes.
ghost use Rattle.std.specs.Prelude.{◌≡◌, ◌≢◌, AllPairs, ◌<◌, ◌≤◌, length, drop, IfOk, IfErr, MatchOption};
ghost use Rattle.acg_base.specs.declared.limits.TheConstants.{LIMIT_LEXEMES};
ghost use Rattle.gram_form.specs.Plain.{texts};
ghost use Rattle.meta_lex.specs.Tokens.{after_blanks};
ghost use Rattle.source_lex.specs.Lexemes.{AreLexemes, AreNoOthers, IsLexemeAt, HasNone, plain_lexeme};
ghost use Rattle.source_lex.specs.Literals.{HasLengths};
ghost use Rattle.source_lex.specs.ScanErrors.{IsScanError};

use crate::errors::ScanError;
use crate::lexeme::{Lexeme, Lexemes};
use crate::literals::Literals;
use crate::longest::longest;
use acg_base::LIMIT_LEXEMES;
use bumpalo::Bump;
use gram_form::Grammar;
use meta_lex::bytes::blanks;
use std::alloc::Global;

// The most lexemes of a source.
const MOST: usize = LIMIT_LEXEMES as usize;

// The lexeme at the place.
fn lexeme_at<'a>(literals: &Literals<'_>, text: &'a [u8], at: usize) -> Option<Lexeme<'a>>
    requires within { at < length text.now }
    requires small { length text.now < 4294967296 }
    requires few { length literals.now.texts.keys < 4294967296 }
    requires lengths { HasLengths literals.now.lengths.keys (texts literals.now.texts.keys) }
    requires distinct { AllPairs (λ x y. x ≢ y) (texts literals.now.texts.keys) }
    ensures { MatchOption result (HasNone (texts literals.now.texts.keys) (drop at text.now))
        (λ l. IsLexemeAt (texts literals.now.texts.keys) text.now at (plain_lexeme l)) }
{
    let (_, rest) = text.split_at(at);
    let (kind, len) = longest(literals, rest)?;
    let (bytes, _) = rest.split_at(len);
    Some(Lexeme {
        kind,
        bytes,
        offset: at as u32,
    })
}

// The first place from the given one on where no blank stands.
fn after_blanks(text: &[u8], from: usize) -> usize
    requires { from ≤ length text.now }
    ensures value { result ≡ after_blanks text.now from }
    ensures within { result ≤ length text.now }
{
    let (_, rest) = text.split_at(from);
    from + blanks(rest)
}

/// Cuts a source into its lexemes: at each place, after the blanks (the bytes 9, 10, 13 and 32), the
/// longest of a literal of the grammar, an identifier and a numeral; a literal is taken before an
/// identifier or a numeral of the same length. An empty literal is never taken. The lexemes lie in
/// the arena; `alloc` is for what is given back before the answer.
///
/// `ScanError::BadByte` comes exactly where, after some lexemes and blanks, no lexeme begins, with
/// the first such place; `ScanError::Count` exactly where the whole source is lexemes, and there are
/// more than `LIMIT_LEXEMES`; `ScanError::Memory` where no memory is left.
pub fn scan<'a>(
    alloc: Global,
    arena: &'a Bump,
    grammar: &Grammar<'_>,
    bytes: &[u8],
) -> Result<Lexemes<'a>, ScanError>
    requires small { length bytes.now < 4294967296 }
    requires few { length grammar.now.literals < 4294967296 }
    ensures lexemes { IfOk result (λ ls. AreLexemes grammar.now.literals bytes.now ls) }
    ensures count { IfOk result (λ ls. length ls ≤ LIMIT_LEXEMES) }
    ensures no_others { IfOk result (λ ls. AreNoOthers grammar.now.literals bytes.now ls) }
    ensures error { IfErr result (λ e. IsScanError grammar.now.literals bytes.now e) }
{
    let literals = Literals::new(alloc, grammar.literals)?;
    let text: &'a [u8] = arena.try_alloc_slice_copy(bytes)?;
    let mut list = Vec::new(alloc);
    let mut at = after_blanks(text, 0);
    while at < text.len() {
        let Some(lexeme) = lexeme_at(&literals, text, at) else {
            return Err(ScanError::BadByte { offset: at as u32 });
        };
        at = after_blanks(text, at + lexeme.bytes.len());
        list.push(lexeme)?;
    }
    if list.len() > MOST {
        return Err(ScanError::Count);
    }
    let list: &'a [Lexeme<'a>] = arena.try_alloc_slice_copy(list.as_slice())?;
    Ok(Lexemes { list })
}
