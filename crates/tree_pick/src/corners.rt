//! Which nonterminals can begin which.
ghost use Rattle.std.specs.Prelude.{◌≡◌, ℕ, ◌<◌, ◌∷◌, false, length, slice_get, Some, IfOk, OnOk, Contains};
ghost use Rattle.source_lex.specs.Numbered.{Alternative, plain_numbered};
ghost use Rattle.source_lex.specs.declared.numbered.Symbol.TheVariants as symbol;
ghost use Rattle.chart_parse.specs.Places.{alternatives_in};
ghost use Rattle.tree_pick.specs.Corners.{beginning, HasFirstsOf, HasFirsts, AreAllCorners, AreLists, HaveOwn, HasFirst, AreMore, AreFirsts};
ghost use Rattle.tree_pick.specs.Longer.{IsLonger};

use acg_base::Memory;
use indexmap::IndexSet;
use source_lex::Symbol;
use std::alloc::Global;

/// A nonterminal, and one whose phrases can begin with a phrase of it.
#[derive(Clone, Copy, Debug, PartialEq, Eq, Hash)]
pub struct Beginning {
    pub first: u32,
    pub whole: u32,
}

/// Which nonterminals can begin which: the pairs, and for each nonterminal itself and those that
/// begin it.
#[derive(Drop)]
pub struct Corners {
    pub pairs: IndexSet<Beginning>,
    pub firsts: Vec<Vec<u32>>,
}

/// Adds the nonterminal with whose phrase the parts begin, if they begin with one.
fn add_first(pairs: &mut IndexSet<Beginning>, parts: &[Symbol], whole: u32) -> Result<(), Memory>
    ensures longer { OnOk result (IsLonger pairs.old.keys pairs.new.keys) }
    ensures added { OnOk result ((c : ℕ) (rest : Alternative) → parts.now ≡ symbol.Phrase c ∷ rest
        → Contains pairs.new.keys (beginning c whole)) }
{
    if parts.is_empty() {
        return Ok(());
    }
    match parts[0] {
        Symbol::Word(_) => Ok(()),
        Symbol::Phrase(first) => {
            pairs.insert(Beginning { first, whole })?;
            Ok(())
        }
    }
}

/// Adds the nonterminals with which the alternatives begin.
fn add_each_first(
    pairs: &mut IndexSet<Beginning>,
    alternatives: &[&[Symbol]],
    whole: u32,
) -> Result<(), Memory>
    ensures longer { OnOk result (IsLonger pairs.old.keys pairs.new.keys) }
    ensures added { OnOk result (HasFirstsOf (alternatives_in alternatives.now) pairs.new.keys
        whole) }
{
    for a in 0..alternatives.len() {
        add_first(pairs, alternatives[a], whole)?;
    }
    Ok(())
}

/// Adds the nonterminals with which alternatives of the nonterminal begin, as those that begin the
/// whole.
fn add_firsts(
    pairs: &mut IndexSet<Beginning>,
    nonterminals: &[&[&[Symbol]]],
    nonterm: u32,
    whole: u32,
) -> Result<(), Memory>
    ensures longer { OnOk result (IsLonger pairs.old.keys pairs.new.keys) }
    ensures added { OnOk result (HasFirsts (plain_numbered nonterminals.now) pairs.new.keys
        nonterm whole) }
{
    if nonterm as usize >= nonterminals.len() {
        return Ok(());
    }
    add_each_first(pairs, nonterminals[nonterm as usize], whole)
}

/// Each nonterminal with those that begin one of its alternatives.
fn first_corners(
    alloc: Global,
    nonterminals: &[&[&[Symbol]]],
) -> Result<IndexSet<Beginning>, Memory>
    requires { length nonterminals.now < 4294967296 }
    ensures { IfOk result (λ pairs. (n : ℕ)
        → HasFirsts (plain_numbered nonterminals.now) pairs.keys n n) }
{
    let mut pairs = IndexSet::new(alloc);
    for n in 0..nonterminals.len() {
        add_firsts(&mut pairs, nonterminals, n as u32, n as u32)?;
    }
    Ok(pairs)
}

/// The pairs of nonterminals of which a phrase of the second can begin with one of the first.
fn all_pairs(alloc: Global, nonterminals: &[&[&[Symbol]]]) -> Result<IndexSet<Beginning>, Memory>
    requires { length nonterminals.now < 4294967296 }
    ensures { IfOk result (λ pairs. AreAllCorners (plain_numbered nonterminals.now) pairs.keys) }
{
    let mut pairs = first_corners(alloc, nonterminals)?;
    for p in 0..usize::MAX {
        let Some(pair) = pairs.get_index(p) else {
            return Ok(pairs);
        };
        let pair = *pair;
        add_firsts(&mut pairs, nonterminals, pair.first, pair.whole)?;
    }
    Err(Memory)
}

/// A list for each nonterminal, with itself.
fn own_lists(alloc: Global, count: usize) -> Result<Vec<Vec<u32>>, Memory>
    requires { count < 4294967296 }
    ensures lists { IfOk result (λ r. AreLists count r.items) }
    ensures own { IfOk result (λ r. HaveOwn count r.items) }
{
    let mut lists = Vec::with_capacity(alloc, count)?;
    for n in 0..count {
        let mut list = Vec::new(alloc);
        list.push(n as u32)?;
        lists.push(list)?;
    }
    Ok(lists)
}

/// Adds the one of the pair to the list of the other.
fn add_pair(lists: &mut Vec<Vec<u32>>, count: usize, pair: Beginning) -> Result<(), Memory>
    requires { AreLists count lists.old.items }
    ensures lists { OnOk result (AreLists count lists.new.items) }
    ensures more { OnOk result (AreMore lists.old.items lists.new.items) }
    ensures first { OnOk result (HasFirst count lists.new.items pair) }
{
    let first = pair.first as usize;
    if first >= count {
        return Ok(());
    }
    let whole = pair.whole as usize;
    if whole >= count {
        return Ok(());
    }
    lists[whole].push(pair.first)?;
    Ok(())
}

/// Adds the pair with the number, where it is one of two nonterminals.
fn add_pair_at(
    lists: &mut Vec<Vec<u32>>,
    count: usize,
    pairs: &IndexSet<Beginning>,
    p: usize,
) -> Result<(), Memory>
    requires lists { AreLists count lists.old.items }
    requires own { HaveOwn count lists.old.items }
    ensures lists { OnOk result (AreLists count lists.new.items) }
    ensures more { OnOk result (AreMore lists.old.items lists.new.items) }
    ensures first { OnOk result ((x : Beginning) → slice_get pairs.now.keys p ≡ Some x
        → HasFirst count lists.new.items x) }
{
    let Some(pair) = pairs.get_index(p) else {
        return Ok(());
    };
    if pair.first == pair.whole {
        return Ok(());
    }
    add_pair(lists, count, *pair)
}

/// For each nonterminal itself and those that begin it.
fn firsts(alloc: Global, count: usize, pairs: &IndexSet<Beginning>) -> Result<Vec<Vec<u32>>, Memory>
    requires { count < 4294967296 }
    ensures { IfOk result (λ r. AreFirsts count pairs.now.keys r.items) }
{
    let mut lists = own_lists(alloc, count)?;
    for p in 0..pairs.len() {
        add_pair_at(&mut lists, count, pairs, p)?;
    }
    Ok(lists)
}

/// Which nonterminals of a grammar can begin which.
pub fn find_corners(alloc: Global, nonterminals: &[&[&[Symbol]]]) -> Result<Corners, Memory>
    requires { length nonterminals.now < 4294967296 }
    ensures pairs { IfOk result (λ c. AreAllCorners (plain_numbered nonterminals.now) c.pairs.keys) }
    ensures firsts { IfOk result (λ c. AreFirsts (length nonterminals.now) c.pairs.keys
        c.firsts.items) }
{
    let pairs = all_pairs(alloc, nonterminals)?;
    let firsts = firsts(alloc, nonterminals.len(), &pairs)?;
    Ok(Corners { pairs, firsts })
}

/// Whether the pair is there.
pub fn is_corner(pairs: &IndexSet<Beginning>, first: u32, whole: u32) -> bool
    ensures { result ≡ false → Contains pairs.now.keys (beginning first whole) → ⊥ }
{
    pairs.contains(&Beginning { first, whole })
}
