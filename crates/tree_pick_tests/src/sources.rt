//! Picks of sources by grammars that are written out.
ghost use Rattle.std.specs.Prelude.{map};
ghost use Rattle.gram_form.specs.Plain.{plain_production};
ghost use Rattle.gram_form.specs.Grammars.{HaveDistinctNames};
ghost use Rattle.gram_form.specs.GrammarErrors.{AreFew};

use acg_base::Memory;
use bumpalo::Bump;
use chart_parse::filling::chart;
use gram_form::{Grammar, Production, Tree, TreePart};
use source_lex::{ScanError, scan};
use std::alloc::Global;
use std::test::Fail;
use tree_pick::{TreeError, pick};

/// What is picked.
#[derive(Clone, Copy)]
pub enum Picked<'a> {
    One(Tree<'a>),
    NoTree,
    Ambiguous,
}

/// The pick of a source, by a grammar of fewer than 100 literals.
pub fn answer<'a>(
    alloc: Global,
    arena: &'a Bump,
    list: &[Production<'_>],
    source: &[u8],
) -> Result<Picked<'a>, Fail>
    requires distinct { HaveDistinctNames (map plain_production list.now) }
    requires few { AreFew (map plain_production list.now) }
{
    let grammar = Grammar::build(alloc, arena, list)?;
    if grammar.literals.len() >= 100 || source.len() >= 10000 {
        return Err(Memory)?;
    }
    let lexemes = scan(alloc, arena, &grammar, source)?;
    let chart = chart(alloc, arena, &grammar, &lexemes)?;
    match pick(alloc, arena, &grammar, &lexemes, &chart) {
        Ok(tree) => Ok(Picked::One(tree)),
        Err(TreeError::NoTree) => Ok(Picked::NoTree),
        Err(TreeError::Ambiguous) => Ok(Picked::Ambiguous),
        Err(TreeError::Memory) => Err(Memory)?,
    }
}

/// Whether the source has more lexemes than there may be, by a grammar of fewer than 100 literals.
pub fn has_too_many(
    alloc: Global,
    arena: &Bump,
    list: &[Production<'_>],
    source: &[u8],
) -> Result<bool, Fail>
    requires distinct { HaveDistinctNames (map plain_production list.now) }
    requires few { AreFew (map plain_production list.now) }
{
    let grammar = Grammar::build(alloc, arena, list)?;
    if grammar.literals.len() >= 100 || source.len() >= 10000 {
        return Err(Memory)?;
    }
    match scan(alloc, arena, &grammar, source) {
        Err(ScanError::Count) => Ok(true),
        Ok(_) | Err(ScanError::BadByte { offset: _ }) => Ok(false),
        Err(ScanError::Memory) => Err(Memory)?,
    }
}

/// Whether it is a tree of the production by the alternative, over the lexemes up to the end.
pub fn is_tree(picked: &Picked<'_>, production: u32, alternative: u32, end: u32) -> bool {
    match picked {
        Picked::One(tree) => is_node(tree, production, alternative, 0, end),
        Picked::NoTree | Picked::Ambiguous => false,
    }
}

/// Whether the tree is one of the production by the alternative, over these lexemes.
pub fn is_node(tree: &Tree<'_>, production: u32, alternative: u32, start: u32, end: u32) -> bool {
    tree.production == production
        && tree.alternative == alternative
        && tree.start == start
        && tree.end == end
}

/// Whether there is no tree.
pub fn is_none(picked: &Picked<'_>) -> bool {
    matches!(picked, Picked::NoTree)
}

/// Whether there are two.
pub fn is_ambiguous(picked: &Picked<'_>) -> bool {
    matches!(picked, Picked::Ambiguous)
}

/// The tree that stands for a part.
pub fn below<'a>(tree: &Tree<'a>, part: usize) -> Option<&'a Tree<'a>> {
    match tree.parts.get(part) {
        Some(TreePart::Sub(tree)) => Some(*tree),
        _ => None,
    }
}

/// Whether a lexeme stands for the part, and has that number.
pub fn is_word(tree: &Tree<'_>, part: usize, number: u32) -> bool {
    match tree.parts.get(part) {
        Some(TreePart::Word(word)) => *word == number,
        _ => false,
    }
}
