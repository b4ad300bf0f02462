//! A grammar, the kinds of lexemes, and the chart of both.
ghost use Rattle.std.specs.Prelude.{◌≡◌, ◌<◌, ◌≤◌, ◌↔◌, false, ℕ, length, slice_get, Some, IsTrue, IfOk, Contains};
ghost use Rattle.source_lex.specs.Numbered.{Alternative, alternative_of, plain_alternatives, plain_numbered};
ghost use Rattle.source_lex.specs.Trees.{Has};
ghost use Rattle.tree_pick.specs.Corners.{AreAllCorners, AreFirsts};
ghost use Rattle.tree_pick.specs.Runs.{HaveFewAlternatives};
ghost use Rattle.tree_pick.specs.Spines.{CanGrow, GrowsAlone};

use crate::corners::{Corners, is_corner};
use crate::phrases::Span;
use acg_base::Memory;
use chart_parse::Chart;
use source_lex::{LexKind, Symbol};
use std::alloc::Global;
use std::marker::Model;

/// A grammar with numbers, the kinds of the lexemes of a source, and their chart. Contracts see the
/// grammar and the kinds.
#[derive(Drop)]
pub struct Parse<'c> {
    alloc: Global,
    nonterminals: &'c [&'c [&'c [Symbol]]],
    kinds: &'c [LexKind],
    chart: &'c Chart<'c>,
    count: u32,
    corners: &'c Corners,
}

impl<'c> Model for Parse<'c> {
    ghost use Rattle.std.specs.Prelude.{◌≡◌, ◌<◌, length};
    ghost use Rattle.source_lex.specs.Numbered.{plain_numbered};
    ghost use Rattle.chart_parse.specs.Charts.{PlainChart};
    ghost use Rattle.tree_pick.specs.Corners.{AreAllCorners, AreFirsts};
    ghost use Rattle.tree_pick.specs.Runs.{HaveFewAlternatives};

    ghost Value = { PlainChart };

    ghost view = { λ p. record {
      grammar = plain_numbered p.nonterminals.now;
      kinds = p.kinds.now;
    } };

    ghost invariant = { λ p. (p.chart.now.grammar ≡ plain_numbered p.nonterminals.now)
        × (p.chart.now.kinds ≡ p.kinds.now)
        × (length p.nonterminals.now < 4294967296) × (length p.kinds.now ≡ p.count)
        × HaveFewAlternatives (plain_numbered p.nonterminals.now)
        × AreAllCorners (plain_numbered p.nonterminals.now) p.corners.now.pairs.keys
        × AreFirsts (length p.nonterminals.now) p.corners.now.pairs.keys
        p.corners.now.firsts.items };
}

impl<'c> Parse<'c> {
    /// What the chart is of.
    pub fn new(
        alloc: Global,
        nonterminals: &'c [&'c [&'c [Symbol]]],
        kinds: &'c [LexKind],
        chart: &'c Chart<'c>,
        corners: &'c Corners,
    ) -> Parse<'c>
        requires grammar { chart.now.grammar ≡ plain_numbered nonterminals.now }
        requires kinds { chart.now.kinds ≡ kinds.now }
        requires few { length nonterminals.now < 4294967296 }
        requires alternatives { HaveFewAlternatives (plain_numbered nonterminals.now) }
        requires corners { AreAllCorners (plain_numbered nonterminals.now) corners.now.pairs.keys }
        requires firsts { AreFirsts (length nonterminals.now) corners.now.pairs.keys
            corners.now.firsts.items }
        ensures grammar { result.grammar ≡ plain_numbered nonterminals.now }
        ensures kinds { result.kinds ≡ kinds.now }
        ensures short { length kinds.now < 4294967296 }
    {
        Parse {
            alloc,
            nonterminals,
            kinds,
            chart,
            count: chart.count(),
            corners,
        }
    }

    /// Where memory comes from that is given back before the answer.
    pub fn alloc(&self) -> Global {
        self.alloc
    }

    /// How many lexemes there are.
    pub fn len(&self) -> u32
        ensures { result ≡ length self.now.kinds }
    {
        self.count
    }

    /// Whether a lexeme of the kind stands at the place.
    pub fn is_kind(&self, at: u32, kind: LexKind) -> bool
        ensures { IsTrue result ↔ (slice_get self.now.kinds at ≡ Some kind) }
    {
        match self.kinds.get(at as usize) {
            Some(other) => *other == kind,
            None => false,
        }
    }

    /// The alternatives of a nonterminal.
    pub fn alternatives(&self, nonterm: u32) -> &'c [&'c [Symbol]]
        requires { nonterm < length self.now.grammar }
        ensures few { length result.now < 4294967296 }
        ensures alternatives { slice_get self.now.grammar nonterm
            ≡ Some (plain_alternatives result) }
    {
        self.nonterminals[nonterm as usize]
    }

    /// The parts of an alternative.
    pub fn alternative(&self, production: u32, alternative: u32) -> &'c [Symbol]
        requires { (parts : Alternative)
            × (alternative_of self.now.grammar production alternative ≡ Some parts) }
        ensures { alternative_of self.now.grammar production alternative ≡ Some result.now }
    {
        self.nonterminals[production as usize][alternative as usize]
    }

    /// Whether a tree of the phrase is there.
    pub fn has(&self, phrase: Span) -> bool
        requires { (phrase.start ≤ length self.now.kinds) × (phrase.end ≤ length self.now.kinds) }
        ensures { IsTrue result
            ↔ Has self.now.grammar self.now.kinds phrase.nonterm phrase.start phrase.end }
    {
        self.chart.has(phrase.nonterm, phrase.start, phrase.end)
    }

    /// The ends of the trees of the nonterminal from the start.
    pub fn ends(&self, nonterm: u32, start: u32) -> Result<Vec<u32>, Memory>
        requires { start ≤ length self.now.kinds }
        ensures { IfOk result (λ ends. (j : ℕ) → Contains ends.items j
            ↔ Has self.now.grammar self.now.kinds nonterm start j) }
    {
        self.chart.ends(self.alloc, nonterm, start)
    }

    /// Whether a phrase of `from` that ends at `k` can grow into a phrase that ends as this one.
    pub fn grows(&self, from: u32, k: u32, into: Span) -> bool
        requires nonterminal { from < length self.now.grammar }
        requires places { (k ≤ length self.now.kinds) × (into.end ≤ length self.now.kinds) }
        ensures { IsTrue result
            ↔ CanGrow self.now.grammar self.now.kinds into.nonterm into.end from k }
    {
        self.chart.grows(from, k, into.nonterm, into.end)
    }

    /// The nonterminal itself and those that begin it: what grows into it is one of these.
    pub fn firsts(&self, whole: u32) -> &'c [u32]
        ensures below { (c : ℕ) → Contains result.now c → c < length self.now.grammar }
        ensures all { (j c k : ℕ) → c < length self.now.grammar
            → CanGrow self.now.grammar self.now.kinds whole j c k → Contains result.now c }
    {
        match self.corners.firsts.get(whole as usize) {
            Some(list) => list.as_slice(),
            None => &[],
        }
    }

    /// Whether a phrase of `whole` can begin with one of `first`; if not, one of `first` grows into
    /// no other.
    pub fn leads(&self, first: u32, whole: u32) -> bool
        ensures { result ≡ false → GrowsAlone self.now.grammar self.now.kinds first whole }
    {
        is_corner(&self.corners.pairs, first, whole)
    }
}
