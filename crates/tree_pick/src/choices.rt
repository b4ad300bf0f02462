//! What can be chosen at a spot of a tree, and whether it is the only choice.
ghost use Rattle.std.specs.Prelude.{◌≡◌, ◌<◌, ◌≤◌, ◌⊎◌, ◌↔◌, ℕ, length, Some, IfOk, OnOk, IsTrue, MatchOption, Contains, true};
ghost use Rattle.source_lex.specs.Numbered.{Alternative, alternative_of};
ghost use Rattle.source_lex.specs.Trees.{Has};
ghost use Rattle.chart_parse.specs.Growths.{HasPieces};
ghost use Rattle.tree_pick.specs.declared.phrases.Corner.TheVariants.{Leaf, Branch};
ghost use Rattle.tree_pick.specs.Runs.{AreWithin, AreWords, Cuts, CutsAmong};
ghost use Rattle.tree_pick.specs.Spines.{CanGrow, GrowsAlone};
ghost use Rattle.tree_pick.specs.Choices.{IsChoice, BeginsNot, IsBehind, IsWithin, CanTake, Takes, CanLeaf, CanStep};

use crate::parse::Parse;
use crate::phrases::{Choice, Corner, Span, Taken};
use crate::runs::{reaches, run_ends};
use acg_base::Memory;
use source_lex::Symbol;

/// What is still to be read of a leaf at the start, and from where.
fn behind_leaf<'s>(
    parse: &Parse<'_>,
    start: u32,
    parts: &'s [Symbol],
) -> Option<(&'s [Symbol], u32)>
    requires start { start ≤ length parse.now.kinds }
    requires short { length parse.now.kinds < 4294967296 }
    ensures { let corner = Leaf start in
        MatchOption result (BeginsNot parse.now.grammar parse.now.kinds corner parts.now)
        (λ r. IsBehind parse.now.grammar parse.now.kinds corner parts.now r.0.now r.1) }
{
    if parts.is_empty() {
        return Some((parts, start));
    }
    match parts[0] {
        Symbol::Word(kind) => {
            if parse.is_kind(start, kind) {
                Some((&parts[1..], start + 1))
            } else {
                None
            }
        }
        Symbol::Phrase(_) => None,
    }
}

/// What is still to be read behind a phrase of `from` that ends at the place, and from where.
fn behind_phrase<'s>(
    parse: &Parse<'_>,
    from: u32,
    at: u32,
    parts: &'s [Symbol],
) -> Option<(&'s [Symbol], u32)>
    requires at { at ≤ length parse.now.kinds }
    ensures { let corner = Branch from at in
        MatchOption result (BeginsNot parse.now.grammar parse.now.kinds corner parts.now)
        (λ r. IsBehind parse.now.grammar parse.now.kinds corner parts.now r.0.now r.1) }
{
    match parts.first() {
        Some(Symbol::Phrase(nonterm)) => {
            if *nonterm == from {
                Some((&parts[1..], at))
            } else {
                None
            }
        }
        Some(Symbol::Word(_)) | None => None,
    }
}

/// What is still to be read of parts that begin so, and from where.
fn behind<'s>(parse: &Parse<'_>, corner: Corner, parts: &'s [Symbol]) -> Option<(&'s [Symbol], u32)>
    requires within { IsWithin parse.now.kinds corner }
    requires short { length parse.now.kinds < 4294967296 }
    ensures { MatchOption result (BeginsNot parse.now.grammar parse.now.kinds corner parts.now)
        (λ r. IsBehind parse.now.grammar parse.now.kinds corner parts.now r.0.now r.1) }
{
    match corner {
        Corner::Leaf { start } => behind_leaf(parse, start, parts),
        Corner::Branch { from, at } => behind_phrase(parse, from, at, parts),
    }
}

/// Adds what is taken, if it grows from its end into the phrase.
fn add_if_grows(
    parse: &Parse<'_>,
    taken: Taken,
    into: Span,
    found: &mut Vec<Taken>,
) -> Result<(), Memory>
    requires production { taken.production < length parse.now.grammar }
    requires places { (taken.end ≤ length parse.now.kinds) × (into.end ≤ length parse.now.kinds) }
    ensures { OnOk result ((x : Taken) → Contains found.new.items x
        ↔ (Contains found.old.items x ⊎ ((taken ≡ x) × CanGrow parse.now.grammar parse.now.kinds
        into.nonterm into.end taken.production taken.end))) }
{
    if parse.grows(taken.production, taken.end, into) {
        found.push(taken)?;
    }
    Ok(())
}

/// Adds the alternative with each of the ends from which it grows into the phrase.
fn add_each(
    parse: &Parse<'_>,
    production: u32,
    alternative: u32,
    ends: &[u32],
    into: Span,
    found: &mut Vec<Taken>,
) -> Result<(), Memory>
    requires production { production < length parse.now.grammar }
    requires ends { AreWithin parse.now.kinds ends.now }
    requires end { into.end ≤ length parse.now.kinds }
    ensures { OnOk result ((x : Taken) → Contains found.new.items x ↔ (Contains found.old.items x
        ⊎ Takes parse.now.grammar parse.now.kinds production alternative
        (Contains ends.now) into.nonterm into.end x)) }
{
    for k in 0..ends.len() {
        let taken = Taken {
            production,
            alternative,
            end: ends[k],
        };
        add_if_grows(parse, taken, into, found)?;
    }
    Ok(())
}

/// Adds the alternative with each end of what is still to be read of it, if it grows from there
/// into the phrase.
fn add_ends(
    parse: &Parse<'_>,
    production: u32,
    alternative: u32,
    rest: &[Symbol],
    at: u32,
    into: Span,
    found: &mut Vec<Taken>,
) -> Result<(), Memory>
    requires production { production < length parse.now.grammar }
    requires places { (at ≤ length parse.now.kinds) × (into.end ≤ length parse.now.kinds) }
    requires short { length parse.now.kinds < 4294967296 }
    ensures { OnOk result ((x : Taken) → Contains found.new.items x ↔ (Contains found.old.items x
        ⊎ Takes parse.now.grammar parse.now.kinds production alternative
        (HasPieces parse.now.grammar parse.now.kinds rest.now at) into.nonterm into.end x)) }
{
    let ends = run_ends(parse, rest, at)?;
    add_each(parse, production, alternative, &ends, into, found)
}

/// Adds the alternative, if what is still to be read of it leads to the end of the phrase, where it
/// grows into nothing but itself.
fn add_whole(
    parse: &Parse<'_>,
    production: u32,
    alternative: u32,
    rest: &[Symbol],
    at: u32,
    into: Span,
    found: &mut Vec<Taken>,
) -> Result<(), Memory>
    requires stays { GrowsAlone parse.now.grammar parse.now.kinds production into.nonterm }
    requires places { (at ≤ length parse.now.kinds) × (into.end ≤ length parse.now.kinds) }
    requires short { length parse.now.kinds < 4294967296 }
    ensures { OnOk result ((x : Taken) → Contains found.new.items x ↔ (Contains found.old.items x
        ⊎ Takes parse.now.grammar parse.now.kinds production alternative
        (HasPieces parse.now.grammar parse.now.kinds rest.now at) into.nonterm into.end x)) }
{
    if production != into.nonterm {
        return Ok(());
    }
    if !reaches(parse, rest, at, into.end)? {
        return Ok(());
    }
    found.push(Taken {
        production,
        alternative,
        end: into.end,
    })?;
    Ok(())
}

/// Adds the alternative with each end of what is still to be read of it, if it grows from there
/// into the phrase. What begins no phrase of that nonterminal needs no look at all its ends.
fn add_rest(
    parse: &Parse<'_>,
    production: u32,
    alternative: u32,
    rest: &[Symbol],
    at: u32,
    into: Span,
    found: &mut Vec<Taken>,
) -> Result<(), Memory>
    requires production { production < length parse.now.grammar }
    requires places { (at ≤ length parse.now.kinds) × (into.end ≤ length parse.now.kinds) }
    requires short { length parse.now.kinds < 4294967296 }
    ensures { OnOk result ((x : Taken) → Contains found.new.items x ↔ (Contains found.old.items x
        ⊎ Takes parse.now.grammar parse.now.kinds production alternative
        (HasPieces parse.now.grammar parse.now.kinds rest.now at) into.nonterm into.end x)) }
{
    if parse.leads(production, into.nonterm) {
        add_ends(parse, production, alternative, rest, at, into, found)
    } else {
        add_whole(parse, production, alternative, rest, at, into, found)
    }
}

/// Adds what can be taken of the alternative, where it is to begin so and to grow into the phrase.
fn add_alternative(
    parse: &Parse<'_>,
    corner: Corner,
    production: u32,
    alternative: u32,
    into: Span,
    found: &mut Vec<Taken>,
) -> Result<(), Memory>
    requires within { IsWithin parse.now.kinds corner }
    requires end { into.end ≤ length parse.now.kinds }
    requires production { production < length parse.now.grammar }
    requires alternative { (parts : Alternative)
        × (alternative_of parse.now.grammar production alternative ≡ Some parts) }
    requires short { length parse.now.kinds < 4294967296 }
    ensures { OnOk result ((x : Taken) → Contains found.new.items x ↔ (Contains found.old.items x
        ⊎ ((x.production ≡ production) × (x.alternative ≡ alternative)
        × CanTake parse.now.grammar parse.now.kinds corner into.nonterm into.end x))) }
{
    let parts = parse.alternative(production, alternative);
    match behind(parse, corner, parts) {
        None => Ok(()),
        Some((rest, at)) => add_rest(parse, production, alternative, rest, at, into, found),
    }
}

/// Adds what can be taken of the alternatives of the production.
fn add_production(
    parse: &Parse<'_>,
    corner: Corner,
    production: u32,
    into: Span,
    found: &mut Vec<Taken>,
) -> Result<(), Memory>
    requires within { IsWithin parse.now.kinds corner }
    requires end { into.end ≤ length parse.now.kinds }
    requires production { production < length parse.now.grammar }
    requires short { length parse.now.kinds < 4294967296 }
    ensures { OnOk result ((x : Taken) → Contains found.new.items x ↔ (Contains found.old.items x
        ⊎ ((x.production ≡ production)
        × CanTake parse.now.grammar parse.now.kinds corner into.nonterm into.end x))) }
{
    let count = parse.alternatives(production).len();
    for alternative in 0..count {
        add_alternative(parse, corner, production, alternative as u32, into, found)?;
    }
    Ok(())
}

/// What can be taken, where it is to begin so and to grow into the phrase.
fn all_taken(parse: &Parse<'_>, corner: Corner, into: Span) -> Result<Vec<Taken>, Memory>
    requires within { IsWithin parse.now.kinds corner }
    requires end { into.end ≤ length parse.now.kinds }
    requires short { length parse.now.kinds < 4294967296 }
    ensures { IfOk result (λ found. (x : Taken) → Contains found.items x
        ↔ CanTake parse.now.grammar parse.now.kinds corner into.nonterm into.end x) }
{
    let mut found = Vec::new(parse.alloc());
    let firsts = parse.firsts(into.nonterm);
    for k in 0..firsts.len() {
        add_production(parse, corner, firsts[k], into, &mut found)?;
    }
    Ok(found)
}

/// The first that is found, and whether it is the only one.
fn first_of(found: &[Taken]) -> Choice<Taken>
    requires { 0 < length found.now }
    ensures { IsChoice (λ x. Contains found.now x) result }
{
    let first = found[0];
    for k in 0..found.len() {
        if found[k] != first {
            return Choice { first, only: false };
        }
    }
    Choice { first, only: true }
}

/// The leaf of a phrase.
pub fn leaf(parse: &Parse<'_>, phrase: Span) -> Result<Choice<Taken>, Memory>
    requires has { Has parse.now.grammar parse.now.kinds phrase.nonterm phrase.start phrase.end }
    requires within { phrase.start ≤ length parse.now.kinds }
    requires short { length parse.now.kinds < 4294967296 }
    ensures { IfOk result (IsChoice (CanLeaf parse.now.grammar parse.now.kinds
        phrase.nonterm phrase.start phrase.end)) }
{
    let corner = Corner::Leaf {
        start: phrase.start,
    };
    let found = all_taken(parse, corner, phrase)?;
    Ok(first_of(&found))
}

/// Whether a phrase of `from` that ends at the place is of the same nonterminal, and ends there.
fn is_there(from: u32, at: u32, into: Span) -> bool
    ensures { IsTrue result ↔ ((from ≡ into.nonterm) × (at ≡ into.end)) }
{
    from == into.nonterm && at == into.end
}

/// The next step of a phrase of `from` that ends at the place and grows into a phrase that ends as
/// this one; None where it is that.
pub fn step(
    parse: &Parse<'_>,
    from: u32,
    at: u32,
    into: Span,
) -> Result<Choice<Option<Taken>>, Memory>
    requires can { CanGrow parse.now.grammar parse.now.kinds into.nonterm into.end from at }
    requires places { (at ≤ length parse.now.kinds) × (into.end ≤ length parse.now.kinds) }
    requires short { length parse.now.kinds < 4294967296 }
    ensures { IfOk result (IsChoice (CanStep parse.now.grammar parse.now.kinds
        into.nonterm into.end from at)) }
{
    let found = all_taken(parse, Corner::Branch { from, at }, into)?;
    if is_there(from, at, into) {
        return Ok(Choice {
            first: None,
            only: found.is_empty(),
        });
    }
    let choice = first_of(&found);
    Ok(Choice {
        first: Some(choice.first),
        only: choice.only,
    })
}

/// The one of the places from which the rest leads to the end.
fn cut_among(
    parse: &Parse<'_>,
    rest: &[Symbol],
    places: &[u32],
    end: u32,
) -> Result<Choice<u32>, Memory>
    requires some { (h : ℕ)
        × CutsAmong parse.now.grammar parse.now.kinds rest.now end places.now h }
    requires places { AreWithin parse.now.kinds places.now }
    requires end { end ≤ length parse.now.kinds }
    requires short { length parse.now.kinds < 4294967296 }
    ensures { IfOk result (IsChoice (CutsAmong parse.now.grammar parse.now.kinds
        rest.now end places.now)) }
{
    let mut found = None;
    for k in 0..places.len() {
        let place = places[k];
        if reaches(parse, rest, place, end)? {
            match found {
                None => found = Some(place),
                Some(first) => {
                    if first != place {
                        return Ok(Choice { first, only: false });
                    }
                }
            }
        }
    }
    Ok(Choice {
        first: found.unwrap_or(end),
        only: true,
    })
}

/// Whether the parts are words alone.
fn are_words(parts: &[Symbol]) -> bool
    ensures { result ≡ true → AreWords parts.now }
{
    for k in 0..parts.len() {
        match parts[k] {
            Symbol::Word(_) => {}
            Symbol::Phrase(_) => return false,
        }
    }
    true
}

/// Where the phrase of the nonterminal ends, of which the rest leads to the end.
pub fn cut(
    parse: &Parse<'_>,
    nonterm: u32,
    rest: &[Symbol],
    at: u32,
    end: u32,
) -> Result<Choice<u32>, Memory>
    requires some { (h : ℕ) × Cuts parse.now.grammar parse.now.kinds nonterm rest.now at end h }
    requires places { (at ≤ length parse.now.kinds) × (end ≤ length parse.now.kinds) }
    requires short { length parse.now.kinds < 4294967296 }
    ensures { IfOk result (IsChoice (Cuts parse.now.grammar parse.now.kinds
        nonterm rest.now at end)) }
{
    if are_words(rest) {
        return Ok(Choice {
            first: end - rest.len() as u32,
            only: true,
        });
    }
    let ends = parse.ends(nonterm, at)?;
    cut_among(parse, rest, &ends, end)
}
