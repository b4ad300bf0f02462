//! Charts filled from grammars and lexemes.
ghost use Rattle.std.specs.Prelude.{◌≡◌, ℕ, ◌<◌, ◌≤◌, length, map, IfOk};
ghost use Rattle.source_lex.specs.Numbered.{numbered};
ghost use Rattle.source_lex.specs.Trees.{kinds_of};
ghost use Rattle.chart_parse.specs.Places.{grammar_of, IsPart, IsClosedAt};

use crate::first::first_places;
use crate::near::{mark_near, no_near};
use crate::rows::Entry;
use crate::rule_lists::rule_lists;
use crate::rules::{Site, close};
use crate::source::Source;
use crate::spans::Chart;
use acg_base::Memory;
use bumpalo::Bump;
use bumpalo::collections::into_bump_slice;
use gram_form::Grammar;
use source_lex::{LexKind, Lexeme, Lexemes, NumberedGrammar};
use std::alloc::Global;

// The kinds of lexemes, in the arena.
fn kinds<'a>(arena: &'a Bump, lexemes: &[Lexeme<'_>]) -> Result<&'a [LexKind], Memory>
    ensures { IfOk result (λ r. r.now ≡ map (λ l. l.kind) lexemes.now) }
{
    let mut list = Vec::with_capacity(arena, lexemes.len())?;
    for lexeme in lexemes {
        list.push(lexeme.kind)?;
    }
    Ok(into_bump_slice(list))
}

// Closes each place, from the last to the first.
fn fill<'a>(
    alloc: Global,
    arena: &'a Bump,
    source: &Source<'_>,
) -> Result<Vec<Vec<Vec<Entry<'a>>>>, Memory>
    requires { length source.now.nonterminals.now < 4294967296 }
    ensures part { IfOk result (λ places. IsPart (grammar_of source.now) source.now.kinds.now
        places.items) }
    ensures closed { IfOk result (λ places. (i : ℕ) → i ≤ length source.now.kinds.now
        → IsClosedAt (grammar_of source.now) source.now.kinds.now places.items i) }
{
    let mut places = first_places(alloc, arena, source)?;
    let mut near = no_near(alloc, source)?;
    let lists = rule_lists(alloc, source)?;
    for done in 0..source.kinds.len() + 1 {
        let place = source.kinds.len() - done;
        let site = Site {
            alloc,
            arena,
            source: &*source,
            near: &near,
            place,
        };
        close(site, &lists, &mut places)?;
        mark_near(alloc, source, &places, place, &mut near)?;
    }
    Ok(places)
}

/// The chart of a grammar and lexemes. What it keeps lies in the arena; `alloc` is for the lists of
/// rows and for what is given back before the answer.
pub fn chart<'a>(
    alloc: Global,
    arena: &'a Bump,
    grammar: &Grammar<'_>,
    lexemes: &Lexemes<'_>,
) -> Result<Chart<'a>, Memory>
    requires productions { length grammar.now.productions < 4294967296 }
    requires literals { length grammar.now.literals < 4294967296 }
    requires lexemes { length lexemes.now < 4294967296 }
    ensures grammar { IfOk result (λ c. c.grammar ≡ numbered grammar.now) }
    ensures kinds { IfOk result (λ c. c.kinds ≡ kinds_of lexemes.now) }
{
    let grammar = NumberedGrammar::new(alloc, arena, grammar)?;
    let kinds = kinds(arena, lexemes.list)?;
    let source = Source {
        nonterminals: grammar.nonterminals,
        kinds,
    };
    let places = fill(alloc, arena, &source)?;
    Ok(Chart::of_places(source, places))
}
