//! The captured tokens of the bodies of closures.
ghost use Rattle.std.specs.Prelude.{◌≡◌, ◌<◌, ◌≤◌, ◌++◌, ℕ, true, [], length, slice_index_or, Some, None, Vec, IfOk, OnOk, if◌then◌else◌};
ghost use Rattle.std.specs.Global.{Global as OnHeap};
ghost use Rattle.action_terms.specs.Actions.{Action};
ghost use Rattle.action_terms.specs.Meaning.{action_of};
ghost use Rattle.sort_rules.specs.Demands.{closure_bodies};
ghost use Rattle.sort_rules.specs.Measures.{asked_at, node_numbers};
ghost use Rattle.sort_rules.specs.Numbers.{is_listed};
ghost use Rattle.sort_rules.specs.Rows.{unmarked};
ghost use Rattle.sort_rules.specs.Shapes.{domain};
ghost use Rattle.sort_rules.specs.Tables.{BindsIn, BindsOut};
ghost use Rattle.binding_capture.specs.Asked.{tokens_of};
ghost use Rattle.binding_capture.specs.Captures.{AreAbove, AreCaptured, AreMarked, IsMarkedAbove, marked_at, marked_of, marks};
ghost use Rattle.binding_capture.specs.Reading.{ReadOnlyCaptured};
ghost use Rattle.binding_capture.specs.declared.marking.Candidate.{Candidate as InMemory};

use crate::body_tokens::Captures;
use crate::holders::holders;
use crate::marking::{Candidate, marked_tokens, push_domain, unmarked, with_asked};
use crate::named::push_named_at;
use acg_base::Memory;
use action_terms::Graph;
use bumpalo::Bump;
use bumpalo::collections::into_bump_slice;
use sort_rules::Table;
use sort_rules::named::named_of;
use sort_rules::node_list::NodeList;
use std::alloc::Global;

// puts the tokens that a node completes with behind a list, if it is the body of a closure
fn push_completed<'a>(
    tokens: &mut Vec<&'a [u8]>,
    table: &Table<'a>,
    bodies: &NodeList,
    node: u32,
) -> Result<(), Memory>
    requires node { node < length table.now.rows }
    ensures { OnOk result (tokens_of tokens.new.items ≡ tokens_of tokens.old.items
        ++ (if is_listed node bodies.now then domain (unmarked table.now (BindsOut node)) else [])) }
{
    let row = table.row(node);
    if bodies.has(node) {
        push_domain(tokens, row.p)?;
    }
    Ok(())
}

// what a node asks of the bindings of a body above it
fn asked_at<'a>(
    alloc: Global,
    graph: &Graph<'a>,
    table: &Table<'a>,
    bodies: &NodeList,
    node: u32,
) -> Result<Vec<&'a [u8]>, Memory>
    requires rows { length table.now.rows ≡ length graph.now.nodes }
    requires bodies { bodies.now ≡ closure_bodies (action_of graph.now) }
    requires node { node < length graph.now.nodes }
    ensures { IfOk result (λ ts. tokens_of ts.items
        ≡ asked_at (action_of graph.now) (unmarked table.now) node) }
{
    let mut tokens = Vec::new(alloc);
    push_named_at(alloc, graph, graph.view(node as usize), &mut tokens)?;
    push_completed(&mut tokens, table, bodies, node)?;
    Ok(tokens)
}

// tokens are asked for at a node: marks them at it and at those above it
fn mark_above<'a>(
    alloc: Global,
    holders: &[Option<u32>],
    candidates: &mut Vec<Vec<Candidate<'a>>>,
    node: usize,
    asked: &[&[u8]],
) -> Result<(), Memory>
    requires long { length candidates.old.items ≡ length holders.now }
    requires node { node < length holders.now }
    requires within { (k j : ℕ) → k < length holders.now
        → slice_index_or holders.now k None ≡ Some j → j < length holders.now }
    ensures { OnOk result ((a : Action) → AreAbove a holders.now
        → IsMarkedAbove a node (tokens_of asked.now) candidates.old.items candidates.new.items) }
{
    let mut at = node;
    for _ in 0..node {
        candidates[at] = with_asked(alloc, &candidates[at], asked)?;
        match holders[at] {
            Some(holder) => at = holder as usize,
            None => return Ok(()),
        }
    }
    candidates[at] = with_asked(alloc, &candidates[at], asked)?;
    Ok(())
}

// the tokens that the bodies of closures receive, none of them asked for yet; none for other nodes
fn candidates<'a>(
    alloc: Global,
    table: &Table<'a>,
    bodies: &NodeList,
    count: usize,
) -> Result<Vec<Vec<Candidate<'a>>>, Memory>
    requires rows { length table.now.rows ≡ count }
    requires few { count ≤ 65536 }
    ensures long { IfOk result (λ cs. length cs.items ≡ count) }
    ensures tokens { IfOk result (λ cs. (k : ℕ) → (d : Vec InMemory OnHeap) → k < count
        → is_listed k bodies.now ≡ true
        → marked_at cs.items d k ≡ marks (domain (unmarked table.now (BindsIn k))) []) }
{
    let mut candidates = Vec::with_capacity(alloc, count)?;
    for node in 0..count {
        candidates.push(candidates_at(alloc, table, bodies, node as u32)?)?;
    }
    Ok(candidates)
}

// the tokens that a node receives, if it is the body of a closure
fn candidates_at<'a>(
    alloc: Global,
    table: &Table<'a>,
    bodies: &NodeList,
    node: u32,
) -> Result<Vec<Candidate<'a>>, Memory>
    requires node { node < length table.now.rows }
    ensures { is_listed node bodies.now ≡ true → IfOk result (λ cs. marked_of cs.items
        ≡ marks (domain (unmarked table.now (BindsIn node))) []) }
{
    let row = table.row(node);
    let mut tokens = Vec::new(alloc);
    if bodies.has(node) {
        push_domain(&mut tokens, row.h)?;
    }
    unmarked(alloc, tokens.as_slice())
}

// each body's tokens, with a mark on those for which some node beneath it asks
fn marked<'a>(
    alloc: Global,
    graph: &Graph<'a>,
    table: &Table<'a>,
    bodies: &NodeList,
) -> Result<Vec<Vec<Candidate<'a>>>, Memory>
    requires rows { length table.now.rows ≡ length graph.now.nodes }
    requires bodies { bodies.now ≡ closure_bodies (action_of graph.now) }
    ensures { IfOk result (λ cs. AreMarked (action_of graph.now) (unmarked table.now)
        (node_numbers (action_of graph.now)) cs.items) }
{
    let count = graph.nodes().len();
    let holders = holders(alloc, graph)?;
    let mut marked = candidates(alloc, table, bodies, count)?;
    for node in (0..count).rev() {
        let asked = asked_at(alloc, graph, table, bodies, node as u32)?;
        mark_above(alloc, &holders, &mut marked, node, asked.as_slice())?;
    }
    Ok(marked)
}

/// The tokens that the bodies of the closures of an action capture: of the bindings that a body
/// receives, those that a yielder beneath it names, or with which it or a closure's body beneath it
/// completes. An `Err` says want of memory.
pub fn captures<'a>(
    alloc: Global,
    arena: &'a Bump,
    graph: &Graph<'_>,
    table: &Table<'_>,
) -> Result<Captures<'a>, Memory>
    requires rows { length table.now.rows ≡ length graph.now.nodes }
    ensures captured { IfOk result (λ c. AreCaptured (action_of graph.now) (unmarked table.now) c) }
    ensures long { IfOk result (λ c. length c ≡ length graph.now.nodes) }
    ensures reads { IfOk result (λ c. ReadOnlyCaptured (action_of graph.now) (unmarked table.now)
        c) }
{
    let _few = graph.nodes();
    let named = named_of(alloc, graph)?;
    let marked = marked(alloc, graph, table, &named.bodies)?;
    let mut tokens: Vec<&'a [&'a [u8]], &'a Bump> = Vec::with_capacity(arena, marked.len())?;
    for node in 0..marked.len() {
        tokens.push(marked_tokens(arena, &marked[node])?)?;
    }
    Ok(Captures::make(into_bump_slice(tokens)))
}
