//! The walk over the spots of a tree: has each of them one choice?
ghost use Rattle.std.specs.Prelude.{◌≡◌, ◌<◌, ◌≤◌, ◌⊎◌, ◌+◌, ◌∷◌, ℕ, length, Some, IfOk, OnOk, true, false, Contains};
ghost use Rattle.source_lex.specs.Numbered.{Alternative, alternative_of};
ghost use Rattle.source_lex.specs.Trees.{Has};
ghost use Rattle.source_lex.specs.declared.numbered.Symbol.TheVariants as symbol;
ghost use Rattle.chart_parse.specs.Growths.{HasPieces};
ghost use Rattle.tree_pick.specs.Spines.{CanGrow, Reached, Spanning, Growing, Parts, HasTwo};
ghost use Rattle.tree_pick.specs.Choices.{CanLeaf, CanStep};
ghost use Rattle.tree_pick.specs.Longer.{IsLonger};
ghost use Rattle.tree_pick.specs.Walk.{root_of, WorkedLeaf, WorkedParts, WorkedGrowth, WorkedSpan, AreReached, HasAtMostOne};

use crate::choices::{cut, leaf, step};
use crate::parse::Parse;
use crate::phrases::{Span, Taken};
use acg_base::Memory;
use indexmap::IndexSet;
use source_lex::Symbol;

/// Adds the phrase where it isn't there yet.
fn add(seen: &mut IndexSet<Span>, phrase: Span) -> Result<(), Memory>
    ensures longer { OnOk result (IsLonger seen.old.keys seen.new.keys) }
    ensures there { OnOk result (Contains seen.new.keys phrase) }
    ensures only { OnOk result ((x : Span) → Contains seen.new.keys x
        → Contains seen.old.keys x ⊎ (phrase ≡ x)) }
{
    seen.insert(phrase)?;
    Ok(())
}

/// Looks at each phrase among the parts, and tells whether one has two ends.
fn look_at_parts(
    parse: &Parse<'_>,
    parts: &[Symbol],
    start: u32,
    end: u32,
    seen: &mut IndexSet<Span>,
) -> Result<bool, Memory>
    requires at { Reached parse.now.grammar parse.now.kinds (root_of parse.now.kinds)
        (Parts parts.now start end) }
    requires has { HasPieces parse.now.grammar parse.now.kinds parts.now start end }
    requires within { start ≤ length parse.now.kinds }
    requires reached { AreReached parse.now.grammar parse.now.kinds seen.old.keys }
    requires short { length parse.now.kinds < 4294967296 }
    ensures longer { OnOk result (IsLonger seen.old.keys seen.new.keys) }
    ensures reached { OnOk result (AreReached parse.now.grammar parse.now.kinds seen.new.keys) }
    ensures two { IfOk result (λ two. two ≡ true
        → HasTwo parse.now.grammar parse.now.kinds (root_of parse.now.kinds)) }
    ensures worked { IfOk result (λ two. two ≡ false
        → WorkedParts parse.now.grammar parse.now.kinds seen.new.keys parts.now start end) }
{
    let mut at = start;
    for p in 0..parts.len() {
        match parts[p] {
            Symbol::Word(_) => at += 1,
            Symbol::Phrase(nonterm) => {
                let cut = cut(parse, nonterm, &parts[p + 1..], at, end)?;
                if !cut.only {
                    return Ok(true);
                }
                let phrase = Span {
                    nonterm,
                    start: at,
                    end: cut.first,
                };
                add(seen, phrase)?;
                at = cut.first;
            }
        }
    }
    Ok(false)
}

/// Looks at what stands behind the first word of a leaf.
fn look_at_leaf(
    parse: &Parse<'_>,
    phrase: Span,
    leaf: Taken,
    seen: &mut IndexSet<Span>,
) -> Result<bool, Memory>
    requires at { Reached parse.now.grammar parse.now.kinds (root_of parse.now.kinds)
        (Spanning phrase.nonterm phrase.start phrase.end) }
    requires fits { CanLeaf parse.now.grammar parse.now.kinds
        phrase.nonterm phrase.start phrase.end leaf }
    requires reached { AreReached parse.now.grammar parse.now.kinds seen.old.keys }
    requires short { length parse.now.kinds < 4294967296 }
    ensures longer { OnOk result (IsLonger seen.old.keys seen.new.keys) }
    ensures reached { OnOk result (AreReached parse.now.grammar parse.now.kinds seen.new.keys) }
    ensures two { IfOk result (λ two. two ≡ true
        → HasTwo parse.now.grammar parse.now.kinds (root_of parse.now.kinds)) }
    ensures worked { IfOk result (λ two. two ≡ false
        → WorkedLeaf parse.now.grammar parse.now.kinds seen.new.keys
        phrase.start leaf.production leaf.alternative leaf.end) }
{
    let parts = parse.alternative(leaf.production, leaf.alternative);
    if parts.is_empty() {
        return Ok(false);
    }
    look_at_parts(parse, &parts[1..], phrase.start + 1, leaf.end, seen)
}

/// Looks at what stands behind the phrase that grows.
fn look_at_step(
    parse: &Parse<'_>,
    from: u32,
    at: u32,
    step: Taken,
    phrase: Span,
    seen: &mut IndexSet<Span>,
) -> Result<bool, Memory>
    requires at { Reached parse.now.grammar parse.now.kinds (root_of parse.now.kinds)
        (Growing from at phrase.nonterm phrase.end) }
    requires within { at ≤ length parse.now.kinds }
    requires fits { CanStep parse.now.grammar parse.now.kinds
        phrase.nonterm phrase.end from at (Some step) }
    requires reached { AreReached parse.now.grammar parse.now.kinds seen.old.keys }
    requires short { length parse.now.kinds < 4294967296 }
    ensures longer { OnOk result (IsLonger seen.old.keys seen.new.keys) }
    ensures reached { OnOk result (AreReached parse.now.grammar parse.now.kinds seen.new.keys) }
    ensures two { IfOk result (λ two. two ≡ true
        → HasTwo parse.now.grammar parse.now.kinds (root_of parse.now.kinds)) }
    ensures worked { IfOk result (λ two. two ≡ false → (rest : Alternative)
        → alternative_of parse.now.grammar step.production step.alternative
        ≡ Some (symbol.Phrase from ∷ rest)
        → WorkedParts parse.now.grammar parse.now.kinds seen.new.keys rest at step.end) }
{
    let parts = parse.alternative(step.production, step.alternative);
    look_at_parts(parse, &parts[1..], at, step.end, seen)
}

/// Looks at what the leaf of the phrase grows into, until that is the phrase.
fn look_at_growth(
    parse: &Parse<'_>,
    leaf: Taken,
    phrase: Span,
    seen: &mut IndexSet<Span>,
) -> Result<bool, Memory>
    requires at { Reached parse.now.grammar parse.now.kinds (root_of parse.now.kinds)
        (Growing leaf.production leaf.end phrase.nonterm phrase.end) }
    requires can { CanGrow parse.now.grammar parse.now.kinds
        phrase.nonterm phrase.end leaf.production leaf.end }
    requires within { (leaf.end ≤ length parse.now.kinds) × (phrase.end ≤ length parse.now.kinds) }
    requires reached { AreReached parse.now.grammar parse.now.kinds seen.old.keys }
    requires short { length parse.now.kinds < 4294967296 }
    ensures longer { OnOk result (IsLonger seen.old.keys seen.new.keys) }
    ensures reached { OnOk result (AreReached parse.now.grammar parse.now.kinds seen.new.keys) }
    ensures two { IfOk result (λ two. two ≡ true
        → HasTwo parse.now.grammar parse.now.kinds (root_of parse.now.kinds)) }
    ensures worked { IfOk result (λ two. two ≡ false
        → WorkedGrowth parse.now.grammar parse.now.kinds seen.new.keys
        phrase.nonterm phrase.end leaf.production leaf.end) }
{
    let mut from = leaf.production;
    let mut at = leaf.end;
    for _ in 0..u64::MAX {
        let choice = step(parse, from, at, phrase)?;
        if !choice.only {
            return Ok(true);
        }
        let Some(step) = choice.first else {
            return Ok(false);
        };
        if look_at_step(parse, from, at, step, phrase, seen)? {
            return Ok(true);
        }
        from = step.production;
        at = step.end;
    }
    Err(Memory)
}

/// Looks at a phrase, and tells whether it has two trees.
fn look_at(parse: &Parse<'_>, phrase: Span, seen: &mut IndexSet<Span>) -> Result<bool, Memory>
    requires at { Reached parse.now.grammar parse.now.kinds (root_of parse.now.kinds)
        (Spanning phrase.nonterm phrase.start phrase.end) }
    requires has { Has parse.now.grammar parse.now.kinds phrase.nonterm phrase.start phrase.end }
    requires within { phrase.start ≤ length parse.now.kinds }
    requires reached { AreReached parse.now.grammar parse.now.kinds seen.old.keys }
    requires short { length parse.now.kinds < 4294967296 }
    ensures longer { OnOk result (IsLonger seen.old.keys seen.new.keys) }
    ensures reached { OnOk result (AreReached parse.now.grammar parse.now.kinds seen.new.keys) }
    ensures two { IfOk result (λ two. two ≡ true
        → HasTwo parse.now.grammar parse.now.kinds (root_of parse.now.kinds)) }
    ensures worked { IfOk result (λ two. two ≡ false
        → WorkedSpan parse.now.grammar parse.now.kinds seen.new.keys
        phrase.nonterm phrase.start phrase.end) }
{
    let choice = leaf(parse, phrase)?;
    if !choice.only {
        return Ok(true);
    }
    if look_at_leaf(parse, phrase, choice.first, seen)? {
        return Ok(true);
    }
    look_at_growth(parse, choice.first, phrase, seen)
}

/// Looks at each phrase on the list, and tells whether the start has two trees over all lexemes.
pub fn is_ambiguous(parse: &Parse<'_>) -> Result<bool, Memory>
    requires has { Has parse.now.grammar parse.now.kinds 0 0 (length parse.now.kinds) }
    requires short { length parse.now.kinds < 4294967296 }
    ensures two { IfOk result (λ two. two ≡ true
        → HasTwo parse.now.grammar parse.now.kinds (root_of parse.now.kinds)) }
    ensures one { IfOk result (λ two. two ≡ false
        → HasAtMostOne parse.now.grammar parse.now.kinds) }
{
    let mut seen = IndexSet::new(parse.alloc());
    let root = Span {
        nonterm: 0,
        start: 0,
        end: parse.len(),
    };
    add(&mut seen, root)?;
    for p in 0..usize::MAX {
        let Some(phrase) = seen.get_index(p) else {
            return Ok(false);
        };
        let phrase = *phrase;
        if look_at(parse, phrase, &mut seen)? {
            return Ok(true);
        }
    }
    Err(Memory)
}
