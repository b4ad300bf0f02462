//! Whether the equations cover a tree, and whether its numerals have values. Each pair of a
//! function and a phrase is looked at once.
ghost use Rattle.std.specs.Prelude.{◌≡◌, ◌⊎◌, true, Some, ◌++◌, ◌∷◌, [], Err, IfOk, IfErr, OnOk};
ghost use Rattle.std.specs.List.{list_any};
ghost use Rattle.source_lex.specs.Uniform.{IsUniform};
ghost use Rattle.equation_expand.specs.Meaning.{Meaning, Misfit};
ghost use Rattle.equation_expand.specs.Seen.{IsGapError};
ghost use Rattle.equation_expand.specs.Sources.{expansion_of};
ghost use Rattle.equation_expand.specs.PlainSources.{plain_source};
ghost use Rattle.equation_expand.specs.Frames.{AreDone, HasNoGap, IsNext, Stand, same_work};

use crate::errors::ExpandError;
use crate::filled::Filled;
use crate::frames::{Open, push_open};
use crate::source::Source;
use gram_form::Tree;
use indexmap::IndexSet;
use std::alloc::Global;

/// A function and a phrase, which is known by its production and its span.
#[derive(Clone, Copy, Debug, PartialEq, Eq, Hash)]
pub struct Work<'t> {
    pub function: &'t [u8],
    pub production: u32,
    pub start: u32,
    pub end: u32,
}

/// A function with a phrase.
fn work_of<'t>(function: &'t [u8], tree: &Tree<'t>) -> Work<'t>
    ensures function { result.function.now ≡ function.now }
    ensures production { result.production ≡ tree.now.production }
    ensures start { result.start ≡ tree.now.start }
    ensures end { result.end ≡ tree.now.end }
{
    Work {
        function,
        production: tree.production,
        start: tree.start,
        end: tree.end,
    }
}

/// Notes that a phrase is done.
fn note<'t>(done: &mut IndexSet<Work<'t>>, work: Work<'t>) -> Result<(), ExpandError>
    ensures noted { OnOk result ((x : Work) → list_any (same_work x) done.new.keys ≡ true
        → (list_any (same_work x) done.old.keys ≡ true) ⊎ (same_work x work.entry ≡ true)) }
    ensures memory { (m : Meaning) → IfErr result (IsGapError m) }
{
    done.insert(work)?;
    Ok(())
}

/// Puts a phrase below above the one that was on top of the stack, unless it is done. Then the
/// phrase on top goes on behind it.
fn descend<'t>(
    source: &Source<'t>,
    done: &IndexSet<Work<'t>>,
    stack: &mut Vec<Open<'t>>,
    phrase: Open<'t>,
    function: &'t [u8],
    tree: &'t Tree<'t>,
) -> Result<(), ExpandError>
    requires next { IsNext (plain_source source.now) phrase
        (Some (Filled.Meaning function tree)) }
    requires stand { let s = plain_source source.now in
        Stand s (expansion_of s) (stack.old.items ++ phrase ∷ []) }
    requires done { AreDone (plain_source source.now) done.now.keys }
    ensures stand { let s = plain_source source.now in
        OnOk result (Stand s (expansion_of s) stack.new.items) }
    ensures gap { IfErr result (IsGapError (expansion_of (plain_source source.now))) }
{
    if done.contains(&work_of(function, tree)) {
        return push_open(stack, phrase.after());
    }
    let below = source.enter(function, tree)?;
    push_open(stack, phrase)?;
    push_open(stack, below)
}

/// Looks at the next node of the phrase that was on top of the stack. What then is left to look
/// at is put back. A phrase below is put above, unless it is done; the phrase itself looks again
/// then.
fn turn<'t>(
    source: &Source<'t>,
    done: &mut IndexSet<Work<'t>>,
    stack: &mut Vec<Open<'t>>,
    phrase: Open<'t>,
) -> Result<(), ExpandError>
    requires fit { expansion_of (plain_source source.now) ≡ Err Misfit → ⊥ }
    requires uniform { IsUniform (plain_source source.now).tree }
    requires stand { let s = plain_source source.now in
        Stand s (expansion_of s) (stack.old.items ++ phrase ∷ []) }
    requires done { AreDone (plain_source source.now) done.old.keys }
    ensures stand { let s = plain_source source.now in
        OnOk result (Stand s (expansion_of s) stack.new.items) }
    ensures done { OnOk result (AreDone (plain_source source.now) done.new.keys) }
    ensures gap { IfErr result (IsGapError (expansion_of (plain_source source.now))) }
{
    match phrase.next_in(source)? {
        None => note(done, work_of(phrase.function, phrase.tree)),
        Some(Filled::Node(_)) => push_open(stack, phrase.after()),
        Some(Filled::Meaning(function, tree)) => {
            descend(source, done, stack, phrase, function, tree)
        }
    }
}

/// Looks at each phrase that the meaning of the source needs, in the order of the action's text.
/// `ExpandError::Uncovered` or `ExpandError::BigNumeral` comes for the first application without an
/// equation, or the first numeral whose value passes 64 signed bits.
pub fn cover(alloc: Global, source: &Source<'_>) -> Result<(), ExpandError>
    requires fit { expansion_of (plain_source source.now) ≡ Err Misfit → ⊥ }
    requires uniform { IsUniform (plain_source source.now).tree }
    ensures covered { OnOk result (HasNoGap (expansion_of (plain_source source.now))) }
    ensures gap { IfErr result (IsGapError (expansion_of (plain_source source.now))) }
{
    let root = source.root()?;
    let whole = work_of(root.function, root.tree);
    let mut done = IndexSet::new(alloc);
    let mut stack = Vec::new(alloc);
    for _ in 0..u64::MAX {
        if done.contains(&whole) {
            return Ok(());
        }
        let phrase = stack.pop().unwrap_or(root);
        turn(source, &mut done, &mut stack, phrase)?;
    }
    Err(ExpandError::Memory)
}
