//! Where parts of an alternative end, by what the chart has so far.
ghost use Rattle.std.specs.Prelude.{◌≡◌, ◌∷◌, drop, MatchOption, ◌⊎◌, ℕ, ◌+◌, ◌*◌, ◌/◌, ◌≤◌, ◌<◌, ◌↔◌, false, length, slice_get, Some, IsTrue, IfOk};
ghost use Rattle.source_lex.specs.Numbered.{Numbered};
ghost use Rattle.source_lex.specs.declared.numbered.Symbol.TheVariants.{Phrase};
ghost use Rattle.chart_parse.specs.Rows.{Has, Lists, AreWide};
ghost use Rattle.chart_parse.specs.Places.{Places, grammar_of, width_of, Advances, AdvancesFrom, RunsTo, IsPart, LeadNowhere, LeadOn, BeginsOther};

use crate::numbers::difference;
use crate::rows::{Entry, empty, insert, join};
use crate::source::Source;
use acg_base::Memory;
use source_lex::{LexKind, Symbol};
use std::alloc::Global;

// Whether the kinds are the same.
fn same_kind(kind: LexKind, other: LexKind) -> bool
    ensures { IsTrue result ↔ (kind ≡ other) }
{
    kind == other
}

// Whether a lexeme of the kind stands at the place.
fn is_kind(kinds: &[LexKind], at: usize, kind: LexKind) -> bool
    ensures { IsTrue result ↔ (slice_get kinds.now at ≡ Some kind) }
{
    match kinds.get(at) {
        Some(other) => same_kind(*other, kind),
        None => false,
    }
}

// Adds the places of the entry, if it is of the nonterminal.
fn join_entry(entry: Entry<'_>, nonterminal: u32, into: &mut [u64])
    requires { length entry.row.now ≡ length into.old }
    ensures len { length into.new ≡ length into.old }
    ensures joined { (e : ℕ) → e < 64 * length into.old → Has into.new e
        ↔ (Has into.old e ⊎ ((entry.entry.nonterm ≡ nonterminal) × Has entry.entry.row.now e)) }
{
    if entry.nonterm != nonterminal {
        return;
    }
    join(into, entry.row);
}

/// Adds the places at which the nonterminal ends by the list.
pub fn join_ends(list: &[Entry<'_>], nonterminal: u32, into: &mut [u64])
    requires { AreWide (length into.old) list.now }
    ensures len { length into.new ≡ length into.old }
    ensures joined { (e : ℕ) → e < 64 * length into.old → Has into.new e
        ↔ (Has into.old e ⊎ Lists list.now nonterminal e) }
{
    for k in 0..list.len() {
        join_entry(list[k], nonterminal, into);
    }
}

// Adds the places to which the part leads from a place.
fn advance(
    source: &Source<'_>,
    places: &[Vec<Vec<Entry<'_>>>],
    part: Symbol,
    at: usize,
    into: &mut [u64],
)
    requires at { at ≤ length source.now.kinds.now }
    requires wide { length into.old ≡ width_of source.now.kinds.now }
    requires part { IsPart (grammar_of source.now) source.now.kinds.now places.now }
    ensures len { length into.new ≡ length into.old }
    ensures joined { (e : ℕ) → e ≤ length source.now.kinds.now → Has into.new e ↔ (Has into.old e
        ⊎ Advances (grammar_of source.now) source.now.kinds.now places.now part at e) }
{
    match part {
        Symbol::Word(kind) => {
            if is_kind(source.kinds, at, kind) {
                insert(into, at + 1);
            }
        }
        Symbol::Phrase(nonterminal) => {
            join_ends(&places[at][source.nonterminals.len()], nonterminal, into);
        }
    }
}

// The places to which the part leads from any of the places.
fn follow(
    alloc: Global,
    source: &Source<'_>,
    places: &[Vec<Vec<Entry<'_>>>],
    part: Symbol,
    from: &[u64],
) -> Result<Vec<u64>, Memory>
    requires wide { length from.now ≡ width_of source.now.kinds.now }
    requires part { IsPart (grammar_of source.now) source.now.kinds.now places.now }
    ensures len { IfOk result (λ r. length r.items ≡ width_of source.now.kinds.now) }
    ensures ends { IfOk result (λ r. (e : ℕ) → e ≤ length source.now.kinds.now → Has r.items e
        ↔ AdvancesFrom (grammar_of source.now) source.now.kinds.now places.now part from.now e) }
{
    let mut ends = empty(alloc, from.len())?;
    let starts = difference(alloc, from, &ends, source.kinds.len() + 1)?;
    for q in 0..starts.len() {
        advance(source, places, part, starts[q], &mut ends);
    }
    Ok(ends)
}

// Whether the list has an entry of the nonterminal.
fn is_present(list: &[Entry<'_>], nonterminal: u32) -> bool
    ensures { result ≡ false → (e : ℕ) → Lists list.now nonterminal e → ⊥ }
{
    for entry in list {
        if entry.nonterm == nonterminal {
            return true;
        }
    }
    false
}

/// The nonterminal of the phrase with which the parts begin, if they begin with one.
pub fn first_phrase(parts: &[Symbol]) -> Option<u32>
    ensures { MatchOption result (BeginsOther parts.now) (λ c. parts.now ≡ Phrase c ∷ drop 1
        parts.now) }
{
    match parts.first() {
        Some(Symbol::Phrase(nonterminal)) => Some(*nonterminal),
        _ => None,
    }
}

/// What is left of the parts behind the words with which they begin, and where that begins; None
/// where one of these words doesn't stand there.
pub fn after_words<'s>(
    kinds: &[LexKind],
    parts: &'s [Symbol],
    start: usize,
) -> Option<(&'s [Symbol], usize)>
    requires start { start ≤ length kinds.now }
    ensures { MatchOption result
        ((g : Numbered) (p : Places) → LeadNowhere g kinds.now p parts.now start)
        (λ r. (r.1 ≤ length kinds.now)
        × ((g : Numbered) (p : Places) → LeadOn g kinds.now p parts.now start r.0.now r.1)) }
{
    let mut at = start;
    for k in 0..parts.len() {
        match parts[k] {
            Symbol::Word(kind) => {
                if !is_kind(kinds, at, kind) {
                    return None;
                }
                at += 1;
            }
            Symbol::Phrase(_) => return Some((&parts[k..], at)),
        }
    }
    Some((&parts[parts.len()..], at))
}

/// Whether the parts can begin at the place. Where they can't, they lead nowhere from there.
pub fn can_begin(
    source: &Source<'_>,
    places: &[Vec<Vec<Entry<'_>>>],
    parts: &[Symbol],
    at: usize,
) -> bool
    requires at { at ≤ length source.now.kinds.now }
    requires part { IsPart (grammar_of source.now) source.now.kinds.now places.now }
    ensures { result ≡ false → (e : ℕ)
        → RunsTo (grammar_of source.now) source.now.kinds.now places.now parts.now at e → ⊥ }
{
    match first_phrase(parts) {
        None => true,
        Some(nonterminal) => is_present(&places[at][source.nonterminals.len()], nonterminal),
    }
}

// The places at which the parts end, where the first of them begins at the start.
fn ends_behind(
    alloc: Global,
    source: &Source<'_>,
    places: &[Vec<Vec<Entry<'_>>>],
    parts: &[Symbol],
    start: usize,
) -> Result<Vec<u64>, Memory>
    requires some { 0 < length parts.now }
    requires start { start ≤ length source.now.kinds.now }
    requires part { IsPart (grammar_of source.now) source.now.kinds.now places.now }
    ensures len { IfOk result (λ r. length r.items ≡ width_of source.now.kinds.now) }
    ensures ends { IfOk result (λ r. (e : ℕ) → e ≤ length source.now.kinds.now → Has r.items e
        ↔ RunsTo (grammar_of source.now) source.now.kinds.now places.now parts.now start e) }
{
    let mut ends = empty(alloc, source.kinds.len() / 64 + 1)?;
    advance(source, places, parts[0], start, &mut ends);
    for p in 1..parts.len() {
        ends = follow(alloc, source, places, parts[p], &ends)?;
    }
    Ok(ends)
}

/// The places at which the parts end that begin at the start.
pub fn run_ends(
    alloc: Global,
    source: &Source<'_>,
    places: &[Vec<Vec<Entry<'_>>>],
    parts: &[Symbol],
    start: usize,
) -> Result<Vec<u64>, Memory>
    requires start { start ≤ length source.now.kinds.now }
    requires part { IsPart (grammar_of source.now) source.now.kinds.now places.now }
    ensures len { IfOk result (λ r. length r.items ≡ width_of source.now.kinds.now) }
    ensures ends { IfOk result (λ r. (e : ℕ) → e ≤ length source.now.kinds.now → Has r.items e
        ↔ RunsTo (grammar_of source.now) source.now.kinds.now places.now parts.now start e) }
{
    let width = source.kinds.len() / 64 + 1;
    let Some((rest, at)) = after_words(source.kinds, parts, start) else {
        return empty(alloc, width);
    };
    if rest.is_empty() {
        let mut ends = empty(alloc, width)?;
        insert(&mut ends, at);
        return Ok(ends);
    }
    ends_behind(alloc, source, places, rest, at)
}
