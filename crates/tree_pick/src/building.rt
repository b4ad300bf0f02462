//! The tree, phrase by phrase. A phrase that stands at many places is built once.
ghost use Rattle.std.specs.Prelude.{◌≡◌, ◌<◌, ◌≤◌, ◌⊎◌, ◌++◌, ◌∷◌, ℕ, List, [], length, Some, IfOk, OnOk, IfSome, true, false, Contains};
ghost use Rattle.indexmap.specs.IndexMap.{Updates};
ghost use Rattle.gram_form.specs.declared.tree.TreePart.{TreePart};
ghost use Rattle.gram_form.specs.Trees.{plain_pieces};
ghost use Rattle.source_lex.specs.Trees.{Has, ArePieces};
ghost use Rattle.chart_parse.specs.Growths.{HasPieces};
ghost use Rattle.tree_pick.specs.Choices.{CanLeaf, CanStep};
ghost use Rattle.tree_pick.specs.Built.{same_span, AreTrees, HaveTrees, IsTreeOf};

use crate::choices::{cut, leaf, step};
use crate::parse::Parse;
use crate::phrases::{Span, Taken};
use acg_base::Memory;
use bumpalo::Bump;
use bumpalo::collections::into_bump_slice;
use gram_form::{Tree, TreePart};
use indexmap::IndexMap;
use source_lex::Symbol;

/// Adds the pieces of the parts, and tells whether each tree among them is built. What isn't goes
/// on the stack.
fn build_parts<'a>(
    parse: &Parse<'_>,
    built: &IndexMap<Span, &'a Tree<'a>>,
    parts: &[Symbol],
    start: u32,
    end: u32,
    list: &mut Vec<TreePart<'a>, &'a Bump>,
    stack: &mut Vec<Span>,
) -> Result<bool, Memory>
    requires has { HasPieces parse.now.grammar parse.now.kinds parts.now start end }
    requires within { start ≤ length parse.now.kinds }
    requires built { AreTrees parse.now.grammar parse.now.kinds built.now }
    requires stack { HaveTrees parse.now.grammar parse.now.kinds stack.old.items }
    requires short { length parse.now.kinds < 4294967296 }
    ensures stack { OnOk result (HaveTrees parse.now.grammar parse.now.kinds stack.new.items) }
    ensures whole { IfOk result (λ whole. whole ≡ true
        → (more : List TreePart) × (list.new.items ≡ list.old.items ++ more)
        × ArePieces parse.now.grammar parse.now.kinds parts.now start end
        (plain_pieces more)) }
{
    let mut at = start;
    let mut whole = true;
    for p in 0..parts.len() {
        match parts[p] {
            Symbol::Word(_) => {
                push_part(list, TreePart::Word(at))?;
                at += 1;
            }
            Symbol::Phrase(nonterm) => {
                let end = cut(parse, nonterm, &parts[p + 1..], at, end)?.first;
                let phrase = Span {
                    nonterm,
                    start: at,
                    end,
                };
                match built.get(&phrase) {
                    Some(tree) => push_part(list, TreePart::Sub(*tree))?,
                    None => {
                        push_phrase(stack, phrase)?;
                        whole = false;
                    }
                }
                at = end;
            }
        }
    }
    Ok(whole)
}

fn push_part<'a>(list: &mut Vec<TreePart<'a>, &'a Bump>, part: TreePart<'a>) -> Result<(), Memory>
    ensures { OnOk result (list.new.items ≡ list.old.items ++ part.entry ∷ []) }
{
    list.push(part)?;
    Ok(())
}

fn push_phrase(stack: &mut Vec<Span>, phrase: Span) -> Result<(), Memory>
    ensures { OnOk result (stack.new.items ≡ stack.old.items ++ phrase ∷ []) }
{
    stack.push(phrase)?;
    Ok(())
}

/// The tree of the leaf of a phrase, where all below it is built.
fn build_leaf<'a>(
    arena: &'a Bump,
    parse: &Parse<'_>,
    built: &IndexMap<Span, &'a Tree<'a>>,
    phrase: Span,
    leaf: Taken,
    stack: &mut Vec<Span>,
) -> Result<Option<&'a Tree<'a>>, Memory>
    requires fits { CanLeaf parse.now.grammar parse.now.kinds
        phrase.nonterm phrase.start phrase.end leaf }
    requires within { phrase.start ≤ length parse.now.kinds }
    requires built { AreTrees parse.now.grammar parse.now.kinds built.now }
    requires stack { HaveTrees parse.now.grammar parse.now.kinds stack.old.items }
    requires short { length parse.now.kinds < 4294967296 }
    ensures stack { OnOk result (HaveTrees parse.now.grammar parse.now.kinds stack.new.items) }
    ensures tree { IfOk result (λ o. IfSome o (λ t. IsTreeOf parse.now.grammar parse.now.kinds
        leaf.production phrase.start leaf.end t.now)) }
{
    let parts = parse.alternative(leaf.production, leaf.alternative);
    let mut list = Vec::new(arena);
    if !build_parts(
        parse,
        built,
        parts,
        phrase.start,
        leaf.end,
        &mut list,
        stack,
    )? {
        return Ok(None);
    }
    let tree = Tree {
        production: leaf.production,
        alternative: leaf.alternative,
        parts: into_bump_slice(list),
        start: phrase.start,
        end: leaf.end,
    };
    Ok(Some(place(arena, tree)?))
}

/// The tree that a tree grows into by a step, where all behind it is built.
fn build_step<'a>(
    arena: &'a Bump,
    parse: &Parse<'_>,
    built: &IndexMap<Span, &'a Tree<'a>>,
    phrase: Span,
    from: u32,
    at: u32,
    tree: Option<&'a Tree<'a>>,
    step: Taken,
    stack: &mut Vec<Span>,
) -> Result<Option<&'a Tree<'a>>, Memory>
    requires fits { CanStep parse.now.grammar parse.now.kinds
        phrase.nonterm phrase.end from at (Some step) }
    requires within { at ≤ length parse.now.kinds }
    requires tree { IfSome tree (λ t. IsTreeOf parse.now.grammar parse.now.kinds
        from phrase.start at t.now) }
    requires built { AreTrees parse.now.grammar parse.now.kinds built.now }
    requires stack { HaveTrees parse.now.grammar parse.now.kinds stack.old.items }
    requires short { length parse.now.kinds < 4294967296 }
    ensures stack { OnOk result (HaveTrees parse.now.grammar parse.now.kinds stack.new.items) }
    ensures tree { IfOk result (λ o. IfSome o (λ t. IsTreeOf parse.now.grammar parse.now.kinds
        step.production phrase.start step.end t.now)) }
{
    let parts = parse.alternative(step.production, step.alternative);
    let mut list = Vec::new(arena);
    if let Some(tree) = tree {
        push_part(&mut list, TreePart::Sub(tree))?;
    }
    let whole = build_parts(parse, built, &parts[1..], at, step.end, &mut list, stack)?;
    if tree.is_none() || !whole {
        return Ok(None);
    }
    let tree = Tree {
        production: step.production,
        alternative: step.alternative,
        parts: into_bump_slice(list),
        start: phrase.start,
        end: step.end,
    };
    Ok(Some(place(arena, tree)?))
}

fn place<'a>(arena: &'a Bump, tree: Tree<'a>) -> Result<&'a Tree<'a>, Memory>
    ensures { IfOk result (λ r. r.now ≡ tree.entry) }
{
    match arena.try_alloc(tree) {
        Ok(tree) => Ok(tree),
        Err(_) => Err(Memory),
    }
}

/// The tree of a phrase, where all below it is built.
fn build_phrase<'a>(
    arena: &'a Bump,
    parse: &Parse<'_>,
    built: &IndexMap<Span, &'a Tree<'a>>,
    phrase: Span,
    stack: &mut Vec<Span>,
) -> Result<Option<&'a Tree<'a>>, Memory>
    requires has { Has parse.now.grammar parse.now.kinds phrase.nonterm phrase.start phrase.end }
    requires within { phrase.start ≤ length parse.now.kinds }
    requires built { AreTrees parse.now.grammar parse.now.kinds built.now }
    requires stack { HaveTrees parse.now.grammar parse.now.kinds stack.old.items }
    requires short { length parse.now.kinds < 4294967296 }
    ensures stack { OnOk result (HaveTrees parse.now.grammar parse.now.kinds stack.new.items) }
    ensures tree { IfOk result (λ o. IfSome o (λ t. IsTreeOf parse.now.grammar parse.now.kinds
        phrase.nonterm phrase.start phrase.end t.now)) }
{
    let leaf = leaf(parse, phrase)?.first;
    let mut tree = build_leaf(arena, parse, built, phrase, leaf, stack)?;
    let mut from = leaf.production;
    let mut at = leaf.end;
    for _ in 0..u64::MAX {
        let Some(step) = step(parse, from, at, phrase)?.first else {
            return Ok(tree);
        };
        tree = build_step(arena, parse, built, phrase, from, at, tree, step, stack)?;
        from = step.production;
        at = step.end;
    }
    Err(Memory)
}

/// Keeps the tree of a phrase.
fn keep<'a>(
    built: &mut IndexMap<Span, &'a Tree<'a>>,
    phrase: Span,
    tree: &'a Tree<'a>,
) -> Result<(), Memory>
    ensures { OnOk result (Updates same_span built.old built.new phrase (Some tree.entry)) }
{
    match built.insert(phrase, tree) {
        Ok(_) => Ok(()),
        Err(_) => Err(Memory),
    }
}

/// The phrase to be built next.
fn next_phrase(stack: &mut Vec<Span>, root: Span) -> Span
    ensures of { (result ≡ root) ⊎ Contains stack.old.items result }
    ensures rest { (x : Span) → Contains stack.new.items x → Contains stack.old.items x }
{
    match stack.pop() {
        Some(phrase) => phrase,
        None => root,
    }
}

/// Builds the phrase, or puts what it waits for on the stack above it.
fn work<'a>(
    arena: &'a Bump,
    parse: &Parse<'_>,
    built: &mut IndexMap<Span, &'a Tree<'a>>,
    phrase: Span,
    stack: &mut Vec<Span>,
) -> Result<(), Memory>
    requires has { Has parse.now.grammar parse.now.kinds phrase.nonterm phrase.start phrase.end }
    requires within { phrase.start ≤ length parse.now.kinds }
    requires built { AreTrees parse.now.grammar parse.now.kinds built.old }
    requires stack { HaveTrees parse.now.grammar parse.now.kinds stack.old.items }
    requires short { length parse.now.kinds < 4294967296 }
    ensures built { OnOk result (AreTrees parse.now.grammar parse.now.kinds built.new) }
    ensures stack { OnOk result (HaveTrees parse.now.grammar parse.now.kinds stack.new.items) }
{
    if built.get(&phrase).is_some() {
        return Ok(());
    }
    push_phrase(stack, phrase)?;
    if let Some(tree) = build_phrase(arena, parse, built, phrase, stack)? {
        keep(built, phrase, tree)?;
    }
    Ok(())
}

/// A tree over all lexemes, of which there is one. A phrase waits on the stack until the phrases
/// below it are built.
pub fn build<'a>(arena: &'a Bump, parse: &Parse<'_>) -> Result<&'a Tree<'a>, Memory>
    requires has { Has parse.now.grammar parse.now.kinds 0 0 (length parse.now.kinds) }
    requires short { length parse.now.kinds < 4294967296 }
    ensures { IfOk result (λ t. IsTreeOf parse.now.grammar parse.now.kinds
        0 0 (length parse.now.kinds) t.now) }
{
    let root = Span {
        nonterm: 0,
        start: 0,
        end: parse.len(),
    };
    let mut built = IndexMap::new(parse.alloc());
    let mut stack = Vec::new(parse.alloc());
    for _ in 0..u64::MAX {
        if let Some(tree) = built.get(&root) {
            return Ok(*tree);
        }
        let phrase = next_phrase(&mut stack, root);
        work(arena, parse, &mut built, phrase, &mut stack)?;
    }
    Err(Memory)
}
