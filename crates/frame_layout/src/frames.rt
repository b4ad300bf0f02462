//! The frames of procedures.
ghost use Rattle.std.specs.Prelude.{◌≡◌, ℕ, ◌+◌, ◌*◌, ◌<◌, ◌≤◌, All, IfOk, length, take};
ghost use Rattle.std.specs.List.{range_with_len};
ghost use Rattle.action_terms.specs.Meaning.{action_of};
ghost use Rattle.sort_rules.specs.Rows.{unmarked};
ghost use Rattle.sort_rules.specs.Tables.{MarkedTable};
ghost use Rattle.frame_layout.specs.Places.{frame_of, frames_of, placed_node};
ghost use Rattle.frame_layout.specs.Layouts.{HasOrder, IsLayout};
ghost use Rattle.frame_layout.specs.Placing.{AreLengths, IsNarrow, out_end, placed_at, placed_frame, rest_words};

use crate::lengths::Lengths;
use crate::places::{Layout, NodePlaces, Procedure};
use crate::roots::{members, procedure_roots};
use crate::rows::row_lengths;
use acg_base::Memory;
use action_terms::Graph;
use bumpalo::Bump;
use bumpalo::collections::into_bump_slice;
use sort_rules::Table;
use std::alloc::Global;

/// The words at the front of each frame, which are in no place.
const FRONT_WORDS: u32 = 32;

/// The words of the record of an alternative or of a trap.
const RECORD_WORDS: u32 = 8;

// so many consecutive offsets
fn offsets<'a>(arena: &'a Bump, first: u32, count: u32) -> Result<&'a [u32], Memory>
    requires { first + count ≤ 33554432 }
    ensures { IfOk result (λ xs. xs.now ≡ range_with_len first count) }
{
    let mut list: Vec<u32, &'a Bump> = Vec::with_capacity(arena, count as usize)?;
    for i in 0..count {
        list.push(first + i)?;
    }
    Ok(into_bump_slice(list))
}

// the words of what these nodes complete with
fn out_words(table: &Table<'_>, nodes: &[u32]) -> u32
    requires few { length nodes.now ≤ 65536 }
    requires narrow { IsNarrow table.now }
    requires rows { All (λ k. k < length table.now.rows) nodes.now }
    ensures words { result ≡ out_end (unmarked table.now) 0 nodes.now }
    ensures few { result ≤ 64 * length nodes.now }
{
    let mut words = 0;
    for node in nodes {
        words += row_lengths(table, *node).o;
    }
    words
}

// the first words of a frame that no place has taken yet
#[derive(Clone, Copy)]
struct Free {
    // for the data and the bindings of the root
    front: u32,
    // for what a node completes with
    out: u32,
    // for the rest
    rest: u32,
}

// places a node in the frame of the procedure with this root
fn place<'a>(
    arena: &'a Bump,
    lengths: Lengths,
    root: u32,
    free: Free,
    node: u32,
) -> Result<NodePlaces<'a>, Memory>
    requires front { free.front ≤ 32 }
    requires out { free.out + 64 ≤ 33554432 }
    requires rest { free.rest + 328 ≤ 33554432 }
    ensures { IfOk result (λ n. (t : MarkedTable) → AreLengths t node lengths
        → placed_node n ≡ placed_at t free.front root free.out free.rest node) }
{
    let after = free.rest + lengths.g + lengths.h;
    let (g, h, p) = if node == root {
        (free.front, free.front + lengths.g, free.rest)
    } else {
        (free.rest, free.rest + lengths.g, after)
    };
    let e = p + lengths.p;
    Ok(NodePlaces {
        node,
        g: offsets(arena, g, lengths.g)?,
        h: offsets(arena, h, lengths.h)?,
        o: offsets(arena, free.out, lengths.o)?,
        p: offsets(arena, p, lengths.p)?,
        e: offsets(arena, e, lengths.e)?,
        keep: e + lengths.e,
    })
}

// the frame of a procedure with these nodes, in which the words from `front` on may be places
fn procedure<'a>(
    arena: &'a Bump,
    table: &Table<'_>,
    front: u32,
    root: u32,
    nodes: &[u32],
) -> Result<Procedure<'a>, Memory>
    requires front { front ≤ 32 }
    requires few { length nodes.now ≤ 65536 }
    requires narrow { IsNarrow table.now }
    requires rows { All (λ k. k < length table.now.rows) nodes.now }
    requires root { root < length table.now.rows }
    ensures frame { IfOk result (λ p. frame_of p
        ≡ placed_frame (unmarked table.now) front root nodes.now) }
    ensures reached { IfOk result (λ p. p.words ≤ 33554432) }
{
    let own = row_lengths(table, root);
    let mut out = front + own.g + own.h;
    let mut rest = out + out_words(table, nodes);
    let mut places: Vec<NodePlaces<'a>, &'a Bump> = Vec::with_capacity(arena, nodes.len())?;
    for node in nodes {
        let lengths = row_lengths(table, *node);
        let place = place(arena, lengths, root, Free { front, out, rest }, *node)?;
        places.push(place)?;
        out += lengths.o;
        rest = place.keep + RECORD_WORDS;
    }
    Ok(Procedure {
        root,
        words: rest,
        places: into_bump_slice(places),
    })
}

/// The frames of the procedures of an action. In each the data that the root is given begin at word
/// 32. Behind them stand the bindings that it receives, then what all nodes complete with, node by
/// node, and then the rest. An `Err` says want of memory.
pub fn layout<'a>(
    alloc: Global,
    arena: &'a Bump,
    graph: &Graph<'_>,
    table: &Table<'_>,
) -> Result<Layout<'a>, Memory>
    requires { length table.now.rows ≡ length graph.now.nodes }
    ensures layout { IfOk result (λ l. IsLayout (action_of graph.now) (unmarked table.now)
        (frames_of l)) }
    ensures order { IfOk result (λ l. All HasOrder (frames_of l)) }
{
    // no part of a row is longer
    let _width = table.width();
    let front = FRONT_WORDS;
    let roots = procedure_roots(alloc, graph)?;
    let groups = members(alloc, &roots)?;
    let mut procedures: Vec<Procedure<'a>, &'a Bump> = Vec::new(arena);
    for root in 0..roots.len() {
        if roots[root] as usize == root {
            let procedure = procedure(arena, table, front, root as u32, &groups[root])?;
            procedures.push(procedure)?;
        }
    }
    Ok(Layout {
        procedures: into_bump_slice(procedures),
    })
}
