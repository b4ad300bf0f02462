//! Where nodes find the data that they are given, and where they leave those that they complete with.
ghost use Rattle.std.specs.Prelude.{◌≡◌, ℕ, ◌<◌, IfOk, length, map, replicate, vec_len};
ghost use Rattle.action_terms.specs.Actions.{node_at};
ghost use Rattle.action_terms.specs.Meaning.{action_of};
ghost use Rattle.action_terms.specs.Performances.{OneOf};
ghost use Rattle.frame_layout.specs.Places.{Frame, PlacedNode, frames_of, placed_node};
ghost use Rattle.rv_codegen.specs.Aliases.{back_places, front_places, given_in, given_of, handed_to, list_at, lists_of, out_in, out_of, place_at, put_frame_words, whole_places};
ghost use Rattle.sort_rules.specs.Procedures.{parts_at};

use crate::node_places::{
    escaped_rows, frame_words, own_escaped, own_given, own_out, record_words,
};
use acg_base::Memory;
use action_terms::{Chain, Graph, NodeView};
use frame_layout::{Layout, NodePlaces};
use std::alloc::Global;

// the words that a node wants, or its own where these are not as many
fn whole<'a>(own: &'a [u32], wanted: &'a [u32]) -> &'a [u32]
    ensures { result.now ≡ whole_places own.now wanted.now }
{
    if own.len() == wanted.len() {
        wanted
    } else {
        own
    }
}

// the first words of those that a node wants for two parts, or the own ones of the first part
fn front<'a>(first: &'a [u32], second: &'a [u32], wanted: &'a [u32]) -> &'a [u32]
    ensures { result.now ≡ front_places first.now second.now wanted.now }
{
    if first.len() + second.len() == wanted.len() {
        &wanted[..first.len()]
    } else {
        first
    }
}

// the words behind them, or the own ones of the second part
fn back<'a>(first: &'a [u32], second: &'a [u32], wanted: &'a [u32]) -> &'a [u32]
    ensures { result.now ≡ back_places first.now second.now wanted.now }
{
    if first.len() + second.len() == wanted.len() {
        &wanted[first.len()..]
    } else {
        second
    }
}

// where part `part` of a node leaves its data, where the node leaves its own at the wanted words
fn out_of_part<'a>(
    places: &[NodePlaces<'a>],
    graph: &Graph<'_>,
    node: usize,
    wanted: &'a [u32],
    part: u32,
) -> &'a [u32]
    requires node { node < length graph.now.nodes }
    requires places { length places.now ≡ length graph.now.nodes }
    requires part { part < length places.now }
    ensures { result.now ≡ out_in (place_at (map placed_node places.now))
        (node_at (action_of graph.now) node) wanted.now part }
{
    match graph.view(node) {
        NodeView::Phases {
            chain: Chain::Then,
            left,
            right,
        } => {
            if part == left {
                own_out(places, left)
            } else {
                whole(own_out(places, right), wanted)
            }
        }
        NodeView::Both { left, right, .. } | NodeView::Phases { left, right, .. } => {
            let first = own_out(places, left);
            let second = own_out(places, right);
            if part == left {
                front(first, second, wanted)
            } else {
                back(first, second, wanted)
            }
        }
        _ => whole(own_out(places, part), wanted),
    }
}

// where part `part` of a node finds its data, where the node finds its own at these words
fn given_of_part<'a>(
    places: &[NodePlaces<'a>],
    graph: &Graph<'_>,
    node: usize,
    found: &'a [u32],
    part: u32,
) -> &'a [u32]
    requires node { node < length graph.now.nodes }
    requires places { length places.now ≡ length graph.now.nodes }
    ensures { result.now ≡ given_in (place_at (map placed_node places.now))
        (node_at (action_of graph.now) node) found.now part }
{
    match graph.view(node) {
        NodeView::Phases {
            chain: Chain::Then,
            left,
            right: _,
        } => {
            let handed_on = own_out(places, left);
            if part == left { found } else { handed_on }
        }
        NodeView::Trapping { left, right: _ } => {
            if part == left {
                found
            } else {
                own_escaped(places, left)
            }
        }
        _ => found,
    }
}

// the parts of a node leave their data by where the node does
fn pass_outs<'a>(
    outs: &mut Vec<&'a [u32]>,
    places: &[NodePlaces<'a>],
    graph: &Graph<'_>,
    node: usize,
)
    requires node { node < length graph.now.nodes }
    requires places { length places.now ≡ length graph.now.nodes }
    requires len { vec_len outs.old ≡ length graph.now.nodes }
    ensures outs { let n = node_at (action_of graph.now) node in lists_of outs.new.items
        ≡ handed_to (parts_at n) (out_in (place_at (map placed_node places.now)) n
        (list_at (lists_of outs.old.items) node)) (lists_of outs.old.items) }
    ensures len { vec_len outs.new ≡ vec_len outs.old }
{
    let wanted = outs[node];
    match graph.view(node) {
        NodeView::Furthermore { part } => {
            outs[part as usize] = out_of_part(places, graph, node, wanted, part);
        }
        NodeView::Both { left, right, .. }
        | NodeView::Phases { left, right, .. }
        | NodeView::Either { left, right }
        | NodeView::Trapping { left, right }
        | NodeView::Branch { left, right, .. } => {
            outs[left as usize] = out_of_part(places, graph, node, wanted, left);
            outs[right as usize] = out_of_part(places, graph, node, wanted, right);
        }
        _ => {}
    }
}

// the parts of a node find their data by where the node does
fn pass_givens<'a>(
    givens: &mut Vec<&'a [u32]>,
    places: &[NodePlaces<'a>],
    graph: &Graph<'_>,
    node: usize,
)
    requires node { node < length graph.now.nodes }
    requires places { length places.now ≡ length graph.now.nodes }
    requires len { vec_len givens.old ≡ length graph.now.nodes }
    ensures givens { let n = node_at (action_of graph.now) node in lists_of givens.new.items
        ≡ handed_to (parts_at n) (given_in (place_at (map placed_node places.now)) n
        (list_at (lists_of givens.old.items) node)) (lists_of givens.old.items) }
    ensures len { vec_len givens.new ≡ vec_len givens.old }
{
    let found = givens[node];
    match graph.view(node) {
        NodeView::Furthermore { part } => {
            givens[part as usize] = given_of_part(places, graph, node, found, part);
        }
        NodeView::Both { left, right, .. }
        | NodeView::Phases { left, right, .. }
        | NodeView::Either { left, right }
        | NodeView::Trapping { left, right }
        | NodeView::Branch { left, right, .. } => {
            givens[left as usize] = given_of_part(places, graph, node, found, left);
            givens[right as usize] = given_of_part(places, graph, node, found, right);
        }
        _ => {}
    }
}

/// Where nodes find what they are given, and where they leave what they complete with, by their
/// numbers.
#[derive(Drop)]
pub(crate) struct DataTables<'a> {
    /// Where each finds what it is given.
    pub(crate) given: Vec<&'a [u32]>,
    /// Where each leaves what it completes with.
    pub(crate) out: Vec<&'a [u32]>,
    /// Where each puts what it escapes with.
    pub(crate) escaped: Vec<&'a [u32]>,
    /// The first word of the record of each.
    pub(crate) keeps: Vec<u32>,
    /// How many words the frame of each has.
    pub(crate) frames: Vec<u32>,
}

/// The tables of an action, by a layout and the places of its nodes, which stand at their numbers.
pub(crate) fn data_tables<'a>(
    alloc: Global,
    graph: &Graph<'_>,
    layout: &Layout<'_>,
    places: &[NodePlaces<'a>],
) -> Result<DataTables<'a>, Memory>
    requires places { length places.now ≡ length graph.now.nodes }
    requires nodes { (f : Frame) → (n : PlacedNode) → OneOf f (frames_of layout.now)
        → OneOf n f.nodes → n.node < length graph.now.nodes }
    ensures given_count { IfOk result (λ t. vec_len t.given ≡ length graph.now.nodes) }
    ensures out_count { IfOk result (λ t. vec_len t.out ≡ length graph.now.nodes) }
    ensures escaped_count { IfOk result (λ t. vec_len t.escaped ≡ length graph.now.nodes) }
    ensures keeps_count { IfOk result (λ t. vec_len t.keeps ≡ length graph.now.nodes) }
    ensures frames_count { IfOk result (λ t. vec_len t.frames ≡ length graph.now.nodes) }
    ensures given { IfOk result (λ t. (k : ℕ) → k < length graph.now.nodes
        → list_at (lists_of t.given.items) k
        ≡ given_of (place_at (map placed_node places.now)) (action_of graph.now) k) }
    ensures out { IfOk result (λ t. (k : ℕ) → k < length graph.now.nodes
        → list_at (lists_of t.out.items) k
        ≡ out_of (place_at (map placed_node places.now)) (action_of graph.now) k) }
    ensures escaped { IfOk result (λ t. lists_of t.escaped.items
        ≡ map (λ n. n.escaped) (map placed_node places.now)) }
    ensures keeps { IfOk result (λ t. t.keeps.items
        ≡ map (λ n. n.keep) (map placed_node places.now)) }
    ensures frames { IfOk result (λ t. t.frames.items
        ≡ put_frame_words (frames_of layout.now) (replicate (length graph.now.nodes) 0)) }
{
    let keeps = record_words(alloc, places)?;
    let escaped = escaped_rows(alloc, places)?;
    let count = graph.nodes().len();
    let frames = frame_words(alloc, layout, count)?;
    let mut given = Vec::with_capacity(alloc, count)?;
    let mut out = Vec::with_capacity(alloc, count)?;
    for node in 0..count {
        given.push(own_given(places, node as u32))?;
        out.push(own_out(places, node as u32))?;
    }
    for node in 0..count {
        pass_givens(&mut given, places, graph, node);
        pass_outs(&mut out, places, graph, node);
    }
    Ok(DataTables {
        given,
        out,
        escaped,
        keeps,
        frames,
    })
}
