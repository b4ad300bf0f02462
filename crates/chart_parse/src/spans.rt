//! Charts of sources.
ghost use Rattle.std.specs.Prelude.{◌≡◌, ◌⊎◌, ℕ, ◌+◌, ◌/◌, ◌<◌, ◌≤◌, ◌↔◌, length, IsTrue, IfOk, OnOk, Contains};
ghost use Rattle.source_lex.specs.Trees.{Has};
ghost use Rattle.chart_parse.specs.Rows.{Lists, AreWide};
ghost use Rattle.chart_parse.specs.Rows as rows;
ghost use Rattle.chart_parse.specs.Growths.{Grows};
ghost use Rattle.chart_parse.specs.Places.{grammar_of, HaveRoom, IsExact};

use crate::numbers::add_numbers;
use crate::rows::{self, Entry};
use crate::source::Source;
use acg_base::Memory;
use std::alloc::Global;
use std::marker::Model;

/// Which nonterminals have a tree over which lexemes of a source. Contracts see the grammar and the
/// kinds of the lexemes.
#[derive(Drop)]
pub struct Chart<'a> {
    source: Source<'a>,
    places: Vec<Vec<Vec<Entry<'a>>>>,
}

impl<'a> Model for Chart<'a> {
    ghost use Rattle.chart_parse.specs.Charts.{PlainChart};
    ghost use Rattle.chart_parse.specs.Places.{grammar_of, IsExact};

    ghost Value = { PlainChart };

    ghost view = { λ c. record { grammar = grammar_of c.source; kinds = c.source.kinds.now } };

    ghost invariant = { λ c. IsExact (grammar_of c.source) c.source.kinds.now c.places.items };
}

// Whether an entry of the nonterminal has the number.
fn is_listed(list: &[Entry<'_>], nonterminal: u32, e: usize) -> bool
    requires { HaveRoom e list.now }
    ensures { IsTrue result ↔ Lists list.now nonterminal e }
{
    for entry in list {
        if entry.nonterm == nonterminal && rows::has(entry.row, e) {
            return true;
        }
    }
    false
}

// Adds the numbers up to the last one that the entry has, if it is of the nonterminal.
fn add_entry(
    entry: Entry<'_>,
    nonterminal: u32,
    last: usize,
    list: &mut Vec<usize>,
) -> Result<(), Memory>
    requires wide { length entry.row.now ≡ last / 64 + 1 }
    requires small { last < 4294967296 }
    ensures { OnOk result ((e : ℕ) → Contains list.new.items e ↔ (Contains list.old.items e
        ⊎ ((e ≤ last) × (entry.entry.nonterm ≡ nonterminal) × rows.Has entry.entry.row.now e))) }
{
    if entry.nonterm != nonterminal {
        return Ok(());
    }
    add_numbers(entry.row, last + 1, list)
}

// The numbers up to the last one that the entries of the nonterminal have.
fn listed(
    alloc: Global,
    list: &[Entry<'_>],
    nonterminal: u32,
    last: usize,
) -> Result<Vec<usize>, Memory>
    requires wide { AreWide (last / 64 + 1) list.now }
    requires small { last < 4294967296 }
    ensures { IfOk result (λ r. (e : ℕ) → Contains r.items e
        ↔ ((e ≤ last) × Lists list.now nonterminal e)) }
{
    let mut numbers = Vec::new(alloc);
    for k in 0..list.len() {
        add_entry(list[k], nonterminal, last, &mut numbers)?;
    }
    Ok(numbers)
}

// The numbers as those of places.
fn as_places(alloc: Global, list: &[usize]) -> Result<Vec<u32>, Memory>
    requires { (e : ℕ) → Contains list.now e → e < 4294967296 }
    ensures { IfOk result (λ r. r.items ≡ list.now) }
{
    let mut places = Vec::new(alloc);
    for k in 0..list.len() {
        places.push(list[k] as u32)?;
    }
    Ok(places)
}

impl<'a> Chart<'a> {
    /// The chart of these lists.
    pub(crate) fn of_places(source: Source<'a>, places: Vec<Vec<Vec<Entry<'a>>>>) -> Chart<'a>
        requires { IsExact (grammar_of source) source.kinds.now places.items }
        ensures grammar { result.grammar ≡ grammar_of source.entry }
        ensures kinds { result.kinds ≡ source.entry.kinds.now }
    {
        Chart { source, places }
    }
}

impl Chart<'_> {
    /// How many lexemes there are.
    pub fn count(&self) -> u32
        ensures { result ≡ length self.now.kinds }
    {
        self.source.kinds.len() as u32
    }

    /// How many nonterminals there are.
    pub fn nonterminals(&self) -> u32
        ensures { result ≡ length self.now.grammar }
    {
        self.source.nonterminals.len() as u32
    }

    /// Whether a tree of the nonterminal spans the lexemes from `i` to before `j`, by numbers from
    /// 0.
    pub fn has(&self, nonterminal: u32, i: u32, j: u32) -> bool
        requires { (i ≤ length self.now.kinds) × (j ≤ length self.now.kinds) }
        ensures { IsTrue result ↔ Has self.now.grammar self.now.kinds nonterminal i j }
    {
        let lists = &self.places[i as usize];
        is_listed(
            &lists[self.source.nonterminals.len()],
            nonterminal,
            j as usize,
        )
    }

    /// Whether a phrase of `from` that ends at `k` can begin a phrase of `into` that ends at `j`,
    /// wherever it began.
    pub fn grows(&self, from: u32, k: u32, into: u32, j: u32) -> bool
        requires nonterminal { from < length self.now.grammar }
        requires places { (k ≤ length self.now.kinds) × (j ≤ length self.now.kinds) }
        ensures { IsTrue result ↔ Grows self.now.grammar self.now.kinds into j from k }
    {
        let lists = &self.places[k as usize];
        is_listed(&lists[from as usize], into, j as usize)
    }

    /// The ends of the trees of the nonterminal that begin at lexeme `i`.
    pub fn ends(&self, alloc: Global, nonterminal: u32, i: u32) -> Result<Vec<u32>, Memory>
        requires { i ≤ length self.now.kinds }
        ensures { IfOk result (λ ends. (j : ℕ) → Contains ends.items j
            ↔ Has self.now.grammar self.now.kinds nonterminal i j) }
    {
        let lists = &self.places[i as usize];
        let list = &lists[self.source.nonterminals.len()];
        let ends = listed(alloc, list, nonterminal, self.source.kinds.len())?;
        as_places(alloc, &ends)
    }
}
