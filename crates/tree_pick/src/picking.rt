//! Picking the one tree.
ghost use Rattle.std.specs.Prelude.{◌≡◌, ◌<◌, length, map, IfOk, IfErr};
ghost use Rattle.gram_form.specs.GrammarErrors.{AreFew};
ghost use Rattle.gram_form.specs.Trees.{plain_tree};
ghost use Rattle.source_lex.specs.Numbered.{numbered};
ghost use Rattle.source_lex.specs.Trees.{kinds_of, IsOneTree};
ghost use Rattle.tree_pick.specs.Uniform.{IsUniform};
ghost use Rattle.tree_pick.specs.Picked.{IsTreeError};

use crate::building::build;
use crate::corners::find_corners;
use crate::errors::TreeError;
use crate::parse::Parse;
use crate::phrases::Span;
use crate::walking::is_ambiguous;
use acg_base::Memory;
use bumpalo::Bump;
use bumpalo::collections::into_bump_slice;
use chart_parse::Chart;
use gram_form::{Grammar, Tree};
use source_lex::{LexKind, Lexeme, Lexemes, NumberedGrammar};
use std::alloc::Global;

// The kinds of lexemes, in the arena.
fn kinds<'a>(arena: &'a Bump, lexemes: &[Lexeme<'_>]) -> Result<&'a [LexKind], Memory>
    ensures { IfOk result (λ r. r.now ≡ map (λ l. l.kind) lexemes.now) }
{
    let mut list = Vec::with_capacity(arena, lexemes.len())?;
    for lexeme in lexemes {
        list.push(lexeme.kind)?;
    }
    Ok(into_bump_slice(list))
}

// The one tree of a source.
fn pick_of<'a>(arena: &'a Bump, parse: &Parse<'_>) -> Result<Tree<'a>, TreeError>
    requires short { length parse.now.kinds < 4294967296 }
    ensures one { IfOk result (λ t. IsOneTree parse.now.grammar parse.now.kinds (plain_tree t)) }
    ensures error { IfErr result (IsTreeError parse.now.grammar parse.now.kinds) }
{
    let root = Span {
        nonterm: 0,
        start: 0,
        end: parse.len(),
    };
    if !parse.has(root) {
        return Err(TreeError::NoTree);
    }
    if is_ambiguous(parse)? {
        return Err(TreeError::Ambiguous);
    }
    let tree = build(arena, parse)?;
    Ok(*tree)
}

/// The one tree of the start over all lexemes: each such tree equals it. The chart is to be that of
/// the grammar and the lexemes. The tree lies in the arena, where equal phrases may be one place;
/// `alloc` is for what is given back before the answer.
///
/// `TreeError::NoTree` comes exactly where there is no tree over all lexemes,
/// `TreeError::Ambiguous` exactly where two different ones are, and `TreeError::Memory` where no
/// memory is left.
pub fn pick<'a>(
    alloc: Global,
    arena: &'a Bump,
    grammar: &Grammar<'_>,
    lexemes: &Lexemes<'_>,
    chart: &Chart<'_>,
) -> Result<Tree<'a>, TreeError>
    requires grammar { chart.now.grammar ≡ numbered grammar.now }
    requires lexemes { chart.now.kinds ≡ kinds_of lexemes.now }
    requires few { AreFew grammar.now.productions }
    requires literals { length grammar.now.literals < 4294967296 }
    ensures one { IfOk result (λ t. IsOneTree (numbered grammar.now) (kinds_of lexemes.now)
        (plain_tree t)) }
    ensures uniform { IfOk result (λ t. IsUniform (plain_tree t)) }
    ensures error { IfErr result (IsTreeError (numbered grammar.now) (kinds_of lexemes.now)) }
{
    let numbered = NumberedGrammar::new(alloc, arena, grammar)?;
    let kinds = kinds(arena, lexemes.list)?;
    let corners = find_corners(alloc, numbered.nonterminals)?;
    let parse = Parse::new(alloc, numbered.nonterminals, kinds, chart, &corners);
    pick_of(arena, &parse)
}
