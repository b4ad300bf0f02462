//! The action of a source.
ghost use Rattle.std.specs.Prelude.{◌≡◌, ◌<◌, length, IfOk, IfErr};
ghost use Rattle.gram_form.specs.Trees.{plain_tree};
ghost use Rattle.source_lex.specs.Numbered.{numbered};
ghost use Rattle.source_lex.specs.Trees.{IsWhole, kinds_of};
ghost use Rattle.source_lex.specs.Uniform.{IsUniform};
ghost use Rattle.equation_expand.specs.Expanded.{IsExpanded, IsExpandError};

use crate::covering::cover;
use crate::errors::ExpandError;
use crate::filling::fill;
use crate::source::Source;
use action_terms::{Graph, GraphError};
use bumpalo::Bump;
use gram_form::Tree;
use meta_check::Description;
use source_lex::Lexemes;
use std::alloc::Global;

/// The action that the tree of a source means by the equations of a description: the template of
/// the main function's equation for the tree's alternative, with the meanings of parts, the
/// values of numerals and the bytes of identifiers put in. The graph lies in the arena; `alloc`
/// is for what is given back before the answer.
///
/// The tree is one of the start over all lexemes, and of one production and one span it has one
/// phrase, as `tree_pick::pick` answers it.
///
/// In the order of the action's text, `ExpandError::Uncovered` comes for an application without
/// an equation, and `ExpandError::BigNumeral` for a numeral whose value passes 64 signed bits,
/// whichever is met first; only where there is neither, `ExpandError::Nodes` comes for more than
/// 65536 nodes, and then `ExpandError::StrayUnfold` for an `unfold` without an `unfolding` around
/// it. `ExpandError::Memory` comes where no memory is left.
pub fn expand<'a>(
    alloc: Global,
    arena: &'a Bump,
    description: &Description<'_>,
    lexemes: &Lexemes<'_>,
    tree: &Tree<'_>,
) -> Result<Graph<'a>, ExpandError>
    requires tree { let g = numbered description.now.grammar in
        IsWhole g (kinds_of lexemes.now) (plain_tree tree.now) }
    requires uniform { IsUniform (plain_tree tree.now) }
    requires few { length description.now.functions < 4294967296 }
    ensures graph { let t = plain_tree tree.now in
        IfOk result (IsExpanded description.now lexemes.now t) }
    ensures error { let t = plain_tree tree.now in
        IfErr result (IsExpandError description.now lexemes.now t) }
{
    let source = Source::new(alloc, arena, description, lexemes, tree)?;
    cover(alloc, &source)?;
    match fill(alloc, arena, &source)?.seal() {
        Ok(graph) => Ok(graph),
        Err(GraphError::Memory) => Err(ExpandError::Memory),
        Err(GraphError::StrayUnfold { node }) => Err(ExpandError::StrayUnfold { node }),
        Err(GraphError::Nodes) => unreachable!(),
    }
}
