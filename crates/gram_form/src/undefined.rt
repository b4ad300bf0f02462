//! Looking for a nonterminal without a production.
ghost use Rattle.std.specs.Prelude.{◌≡◌, ℕ, map, MatchOption};
ghost use Rattle.gram_form.specs.Plain.{texts, plain_part, plain_alternative, plain_production};
ghost use Rattle.gram_form.specs.Grammars.{is_undefined, Place, IsUndefinedPart, IsUndefinedIn, IsUndefinedAmong};
ghost use Rattle.gram_form.specs.GrammarErrors.{IsFirstPart, IsFirstIn, IsFirstAmong, place_of};

use crate::part::{Part, Production};
use std::collections::BTreeSet;

/// The place of a part among productions: the numbers of its production, of its alternative and of
/// the part there, from 0.
#[derive(Clone, Copy)]
pub struct FoundPart {
    pub production: usize,
    pub alternative: usize,
    pub part: usize,
}

// Tells whether a part names a nonterminal that isn't among the names.
fn is_undefined<'t>(part: Part<'t>, names: &BTreeSet<&'t [u8]>) -> bool
    ensures { result ≡ is_undefined (texts names.now.keys) (plain_part part.entry) }
{
    match part {
        Part::Nonterm(name) => !names.contains(&name),
        Part::Literal(_) | Part::Identifier | Part::Numeral => false,
    }
}

// The first such part of an alternative.
fn undefined_part<'t>(parts: &[Part<'t>], names: &BTreeSet<&'t [u8]>) -> Option<usize>
    ensures { let known = texts names.now.keys in
        let all = map plain_part parts.now in
        MatchOption result ((k : ℕ) → IsUndefinedPart known all k → ⊥) (λ k. IsFirstPart known all k) }
{
    for (number, part) in parts.iter().enumerate() {
        if is_undefined(*part, names) {
            return Some(number);
        }
    }
    None
}

// The first such part of the alternatives, by the number of its alternative and its place there.
fn undefined_in<'t>(
    alternatives: &[&[Part<'t>]],
    names: &BTreeSet<&'t [u8]>,
) -> Option<(usize, usize)>
    ensures { let known = texts names.now.keys in
        let all = map plain_alternative alternatives.now in
        MatchOption result ((a k : ℕ) → IsUndefinedIn known all a k → ⊥) (λ r. IsFirstIn known all r.0 r.1) }
{
    for (alternative, parts) in alternatives.iter().enumerate() {
        if let Some(part) = undefined_part(parts, names) {
            return Some((alternative, part));
        }
    }
    None
}

/// The first part of the productions that names a nonterminal that isn't among the names.
pub fn first_undefined<'t>(list: &[Production<'t>], names: &BTreeSet<&'t [u8]>) -> Option<FoundPart>
    ensures { let known = texts names.now.keys in
        let all = map plain_production list.now in
        MatchOption result ((x : Place) → IsUndefinedAmong known all x → ⊥) (λ r. IsFirstAmong known all (place_of r)) }
{
    for (number, production) in list.iter().enumerate() {
        if let Some((alternative, part)) = undefined_in(production.alternatives, names) {
            return Some(FoundPart {
                production: number,
                alternative,
                part,
            });
        }
    }
    None
}
