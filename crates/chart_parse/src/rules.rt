//! The rules by which a place of the chart grows.
ghost use Rattle.std.specs.Prelude.{◌≡◌, ◌⊎◌, ℕ, ◌≤◌, ◌<◌, ◌∷◌, ◌+◌, false, length, Contains, drop, MatchOption, IfOk, OnOk};
ghost use Rattle.chart_parse.specs.declared.rule_lists.Class.TheVariants.{Behind};
ghost use Rattle.chart_parse.specs.Rows.{Has};
ghost use Rattle.chart_parse.specs.Growths.{Grows};
ghost use Rattle.chart_parse.specs.Places.{grammar_of, width_of, class_of, IsListed, IsTrueOf, IsPart, IsAdded, IsSame, FollowsBy, IsMetBy, IsMet, IsClosedAt, IsRule, AreNear, IsAlternative, AreRules, AreLists};

use crate::numbers::difference;
use crate::rows::{Entry, add_at};
use crate::rule_lists::{Rule, RuleLists};
use crate::runs::{after_words, can_begin, first_phrase, run_ends};
use crate::source::Source;
use acg_base::Memory;
use bumpalo::Bump;
use source_lex::Symbol;
use std::alloc::Global;

/// A list of a chart: what grows from a nonterminal by its number, and behind those the ends.
#[derive(Clone, Copy)]
pub struct ListAt {
    pub place: usize,
    pub number: usize,
}

/// A place of a chart whose rules are followed.
#[derive(Clone, Copy)]
pub struct Site<'a, 's> {
    /// For what is given back.
    pub alloc: Global,
    /// Where rows lie.
    pub arena: &'a Bump,
    /// What the chart is of.
    pub source: &'s Source<'s>,
    /// For each nonterminal the later places at which only it grows from itself.
    pub near: &'s [Vec<u64>],
    /// The place.
    pub place: usize,
}

// The entries, whose rows are shared.
fn copy<'a>(alloc: Global, list: &[Entry<'a>]) -> Result<Vec<Entry<'a>>, Memory>
    ensures { IfOk result (λ all. all.items ≡ list.now) }
{
    match list.to_vec(alloc) {
        Ok(all) => Ok(all),
        Err(_) => Err(Memory),
    }
}

// Adds the one list to the other, and tells whether that is more.
fn add_list<'a>(
    site: Site<'a, '_>,
    places: &mut Vec<Vec<Vec<Entry<'a>>>>,
    from: ListAt,
    into: usize,
) -> Result<bool, Memory>
    requires from { (from.place ≤ length site.source.now.kinds.now)
        × (from.number < length (grammar_of site.source.now)) }
    requires into { (site.place ≤ length site.source.now.kinds.now)
        × (into ≤ length (grammar_of site.source.now)) }
    requires part { IsPart (grammar_of site.source.now) site.source.now.kinds.now places.old.items }
    requires right { (n e : ℕ)
        → Grows (grammar_of site.source.now) site.source.now.kinds.now n e from.number from.place
        → IsTrueOf (grammar_of site.source.now) site.source.now.kinds.now into site.place n e }
    ensures added { OnOk result (IsAdded (grammar_of site.entry.source.now)
        site.entry.source.now.kinds.now site.entry.place places.old.items places.new.items) }
    ensures same { IfOk result (λ more. more ≡ false → IsSame places.old.items places.new.items) }
    ensures has { OnOk result ((n e : ℕ) → IsListed site.entry.source.now.kinds.now
        places.old.items from.place from.number n e
        → IsListed site.entry.source.now.kinds.now places.new.items
        site.entry.place into n e) }
{
    let list = copy(site.alloc, &places[from.place][from.number])?;
    let width = site.source.kinds.len() / 64 + 1;
    add_at(site.arena, width, &mut places[site.place], into, &list)
}

// Adds the nonterminal itself at the places of the row, and tells whether that is more.
fn add_itself<'a>(
    site: Site<'a, '_>,
    places: &mut Vec<Vec<Vec<Entry<'a>>>>,
    ends: &[u64],
    nonterminal: usize,
    into: usize,
) -> Result<bool, Memory>
    requires nonterminal { nonterminal < 4294967296 }
    requires into { (site.place ≤ length site.source.now.kinds.now)
        × (into ≤ length (grammar_of site.source.now)) }
    requires part { IsPart (grammar_of site.source.now) site.source.now.kinds.now places.old.items }
    requires wide { length ends.now ≡ width_of site.source.now.kinds.now }
    requires right { (e : ℕ) → e ≤ length site.source.now.kinds.now → Has ends.now e
        → IsTrueOf (grammar_of site.source.now) site.source.now.kinds.now into site.place
        nonterminal e }
    ensures added { OnOk result (IsAdded (grammar_of site.entry.source.now)
        site.entry.source.now.kinds.now site.entry.place places.old.items places.new.items) }
    ensures same { IfOk result (λ more. more ≡ false → IsSame places.old.items places.new.items) }
    ensures has { OnOk result ((e : ℕ) → e ≤ length site.entry.source.now.kinds.now
        → Has ends.now e → IsListed site.entry.source.now.kinds.now places.new.items
        site.entry.place into nonterminal e) }
{
    let row = match site.arena.try_alloc_slice_copy(ends) {
        Ok(copy) => copy,
        Err(_) => return Err(Memory),
    };
    let itself = [Entry {
        nonterm: nonterminal as u32,
        row,
    }];
    let width = site.source.kinds.len() / 64 + 1;
    add_at(site.arena, width, &mut places[site.place], into, &itself)
}

// Adds what grows from the nonterminal at the places, and tells whether that is more.
fn add_growths<'a>(
    site: Site<'a, '_>,
    places: &mut Vec<Vec<Vec<Entry<'a>>>>,
    ends: &[usize],
    nonterminal: usize,
    into: usize,
) -> Result<bool, Memory>
    requires nonterminal { nonterminal < length (grammar_of site.source.now) }
    requires into { (site.place ≤ length site.source.now.kinds.now)
        × (into ≤ length (grammar_of site.source.now)) }
    requires part { IsPart (grammar_of site.source.now) site.source.now.kinds.now places.old.items }
    requires within { (l : ℕ) → Contains ends.now l → l ≤ length site.source.now.kinds.now }
    requires right { (l n e : ℕ) → Contains ends.now l
        → Grows (grammar_of site.source.now) site.source.now.kinds.now n e nonterminal l
        → IsTrueOf (grammar_of site.source.now) site.source.now.kinds.now into site.place n e }
    ensures added { OnOk result (IsAdded (grammar_of site.entry.source.now)
        site.entry.source.now.kinds.now site.entry.place places.old.items places.new.items) }
    ensures same { IfOk result (λ more. more ≡ false → IsSame places.old.items places.new.items) }
    ensures has { OnOk result ((l n e : ℕ) → Contains ends.now l
        → IsListed site.entry.source.now.kinds.now places.old.items l nonterminal n e
        → IsListed site.entry.source.now.kinds.now places.new.items
        site.entry.place into n e) }
{
    let mut more = false;
    for q in 0..ends.len() {
        let from = ListAt {
            place: ends[q],
            number: nonterminal,
        };
        if add_list(site, places, from, into)? {
            more = true;
        }
    }
    Ok(more)
}

// Adds the nonterminal itself where the parts end, and what else grows from it there, and tells
// whether that is more.
fn add_far<'a>(
    site: Site<'a, '_>,
    places: &mut Vec<Vec<Vec<Entry<'a>>>>,
    parts: &[Symbol],
    nonterminal: usize,
    into: usize,
) -> Result<bool, Memory>
    requires nonterminal { nonterminal < length (grammar_of site.source.now) }
    requires into { (site.place ≤ length site.source.now.kinds.now)
        × (into ≤ length (grammar_of site.source.now)) }
    requires part { IsPart (grammar_of site.source.now) site.source.now.kinds.now places.old.items }
    requires near { AreNear (grammar_of site.source.now) site.source.now.kinds.now
        places.old.items (site.place + 1) site.near.now }
    requires right { IsRule (grammar_of site.source.now) site.source.now.kinds.now site.place
        nonterminal parts.now into }
    ensures added { OnOk result (IsAdded (grammar_of site.entry.source.now)
        site.entry.source.now.kinds.now site.entry.place places.old.items places.new.items) }
    ensures same { IfOk result (λ more. more ≡ false → IsSame places.old.items places.new.items) }
    ensures follows { OnOk result (FollowsBy (grammar_of site.entry.source.now)
        site.entry.source.now.kinds.now places.old.items places.new.items
        site.entry.place nonterminal parts.now into) }
{
    let ends = run_ends(site.alloc, site.source, places, parts, site.place)?;
    let itself = add_itself(site, places, &ends, nonterminal, into)?;
    let below = site.source.kinds.len() + 1;
    let far = difference(site.alloc, &ends, &site.near[nonterminal], below)?;
    let more = add_growths(site, places, &far, nonterminal, into)?;
    Ok(itself || more)
}

// Adds what grows from the nonterminal where the parts end, and tells whether that is more.
fn add_run<'a>(
    site: Site<'a, '_>,
    places: &mut Vec<Vec<Vec<Entry<'a>>>>,
    parts: &[Symbol],
    nonterminal: usize,
    into: usize,
) -> Result<bool, Memory>
    requires nonterminal { nonterminal < length (grammar_of site.source.now) }
    requires into { (site.place ≤ length site.source.now.kinds.now)
        × (into ≤ length (grammar_of site.source.now)) }
    requires part { IsPart (grammar_of site.source.now) site.source.now.kinds.now places.old.items }
    requires near { AreNear (grammar_of site.source.now) site.source.now.kinds.now
        places.old.items (site.place + 1) site.near.now }
    requires right { IsRule (grammar_of site.source.now) site.source.now.kinds.now site.place
        nonterminal parts.now into }
    ensures added { OnOk result (IsAdded (grammar_of site.entry.source.now)
        site.entry.source.now.kinds.now site.entry.place places.old.items places.new.items) }
    ensures same { IfOk result (λ more. more ≡ false → IsSame places.old.items places.new.items) }
    ensures follows { OnOk result (FollowsBy (grammar_of site.entry.source.now)
        site.entry.source.now.kinds.now places.old.items places.new.items
        site.entry.place nonterminal parts.now into) }
{
    let Some((rest, at)) = after_words(site.source.kinds, parts, site.place) else {
        return Ok(false);
    };
    if rest.is_empty() {
        let from = ListAt {
            place: at,
            number: nonterminal,
        };
        return add_list(site, places, from, into);
    }
    if !can_begin(site.source, places, rest, at) {
        return Ok(false);
    }
    add_far(site, places, parts, nonterminal, into)
}

// Follows a rule, and tells whether anything was more.
fn follow<'a>(
    site: Site<'a, '_>,
    places: &mut Vec<Vec<Vec<Entry<'a>>>>,
    rule: Rule<'_>,
) -> Result<bool, Memory>
    requires place { site.place ≤ length site.source.now.kinds.now }
    requires part { IsPart (grammar_of site.source.now) site.source.now.kinds.now places.old.items }
    requires near { AreNear (grammar_of site.source.now) site.source.now.kinds.now
        places.old.items (site.place + 1) site.near.now }
    requires rule { IsAlternative (grammar_of site.source.now) rule.nonterminal rule.parts.now }
    ensures added { OnOk result (IsAdded (grammar_of site.entry.source.now)
        site.entry.source.now.kinds.now site.entry.place places.old.items places.new.items) }
    ensures same { IfOk result (λ more. more ≡ false → IsSame places.old.items places.new.items) }
    ensures met { OnOk result (IsMetBy (grammar_of site.entry.source.now)
        site.entry.source.now.kinds.now places.old.items places.new.items
        site.entry.place rule.entry.nonterminal rule.entry.parts.now) }
{
    let count = site.source.nonterminals.len();
    match first_phrase(rule.parts) {
        None => add_run(site, places, rule.parts, rule.nonterminal, count),
        Some(first) => {
            let into = first as usize;
            if into >= count {
                return Ok(false);
            }
            let (_, rest) = rule.parts.split_at(1);
            add_run(site, places, rest, rule.nonterminal, into)
        }
    }
}

// Follows each of the rules once, and tells whether anything was more.
fn follow_each<'a>(
    site: Site<'a, '_>,
    places: &mut Vec<Vec<Vec<Entry<'a>>>>,
    rules: &[Rule<'_>],
) -> Result<bool, Memory>
    requires place { site.place ≤ length site.source.now.kinds.now }
    requires part { IsPart (grammar_of site.source.now) site.source.now.kinds.now places.old.items }
    requires near { AreNear (grammar_of site.source.now) site.source.now.kinds.now
        places.old.items (site.place + 1) site.near.now }
    requires rules { AreRules (grammar_of site.source.now) rules.now }
    ensures added { OnOk result (IsAdded (grammar_of site.entry.source.now)
        site.entry.source.now.kinds.now site.entry.place places.old.items places.new.items) }
    ensures met { IfOk result (λ more. (x : Rule) → Contains rules.now x
        → (more ≡ false) ⊎ (class_of x.parts.now ≡ Behind)
        → IsMet (grammar_of site.entry.source.now) site.entry.source.now.kinds.now
        places.new.items site.entry.place x.nonterminal x.parts.now) }
{
    let mut more = false;
    for k in 0..rules.len() {
        if follow(site, places, rules[k])? {
            more = true;
        }
    }
    Ok(more)
}

/// Follows the rules that read later places alone once, and repeats rounds of the others until one
/// changes nothing.
pub fn close<'a>(
    site: Site<'a, '_>,
    lists: &RuleLists<'_>,
    places: &mut Vec<Vec<Vec<Entry<'a>>>>,
) -> Result<(), Memory>
    requires place { site.place ≤ length site.source.now.kinds.now }
    requires part { IsPart (grammar_of site.source.now) site.source.now.kinds.now places.old.items }
    requires near { AreNear (grammar_of site.source.now) site.source.now.kinds.now
        places.old.items (site.place + 1) site.near.now }
    requires lists { AreLists (grammar_of site.source.now) lists.now.behind.items
        lists.now.here.items }
    ensures added { OnOk result (IsAdded (grammar_of site.entry.source.now)
        site.entry.source.now.kinds.now site.entry.place places.old.items places.new.items) }
    ensures closed { OnOk result (IsClosedAt (grammar_of site.entry.source.now)
        site.entry.source.now.kinds.now places.new.items site.entry.place) }
{
    follow_each(site, places, &lists.behind)?;
    for _ in 0..u64::MAX {
        if !follow_each(site, places, &lists.here)? {
            return Ok(());
        }
    }
    Err(Memory)
}
