//! The places of nodes by their numbers, and the data among them.
ghost use Rattle.std.specs.Prelude.{◌≡◌, ◌<◌, IfOk, ℕ, length, map, replicate, vec_len};
ghost use Rattle.frame_layout.specs.Places.{Frame, PlacedNode, frames_of, placed_node};
ghost use Rattle.action_terms.specs.Performances.{OneOf};
ghost use Rattle.rv_codegen.specs.Aliases.{lists_of, nowhere, place_at, put_each, put_frame_words, put_frames, put_words};

use acg_base::Memory;
use frame_layout::{Layout, NodePlaces};
use std::alloc::Global;

// a node that has no words
fn no_places<'a>() -> NodePlaces<'a>
    ensures { placed_node result ≡ nowhere }
{
    NodePlaces {
        node: 0,
        g: &[],
        h: &[],
        o: &[],
        p: &[],
        e: &[],
        keep: 0,
    }
}

// puts the places of some nodes at their numbers
fn put_places<'a>(list: &mut Vec<NodePlaces<'a>>, places: &[NodePlaces<'a>])
    requires { (n : PlacedNode) → OneOf n (map placed_node places.now)
        → n.node < vec_len list.old }
    ensures places { map placed_node list.new.items
        ≡ put_each (map placed_node places.now) (map placed_node list.old.items) }
    ensures len { vec_len list.new ≡ vec_len list.old }
{
    for place in places {
        list[place.node as usize] = *place;
    }
}

/// The places of a layout, of so many nodes, each at the number of its node.
pub(crate) fn places_by_number<'a>(
    alloc: Global,
    layout: &Layout<'a>,
    count: usize,
) -> Result<Vec<NodePlaces<'a>>, Memory>
    requires { (f : Frame) → (n : PlacedNode) → OneOf f (frames_of layout.now) → OneOf n f.nodes
        → n.node < count }
    ensures { IfOk result (λ list. map placed_node list.items
        ≡ put_frames (frames_of layout.now) (replicate count nowhere)) }
{
    let mut list = Vec::with_capacity(alloc, count)?;
    for _ in 0..count {
        list.push(no_places())?;
    }
    for procedure in layout.procedures {
        put_places(&mut list, procedure.places);
    }
    Ok(list)
}

/// Where a node leaves its data, in words of its own.
pub(crate) fn own_out<'a>(places: &[NodePlaces<'a>], node: u32) -> &'a [u32]
    requires { node < length places.now }
    ensures { result.now ≡ (place_at (map placed_node places.now) node).data_out }
{
    places[node as usize].o
}

/// Where a root finds what it is given.
pub(crate) fn own_given<'a>(places: &[NodePlaces<'a>], node: u32) -> &'a [u32]
    requires { node < length places.now }
    ensures { result.now ≡ (place_at (map placed_node places.now) node).data_in }
{
    places[node as usize].g
}

/// Where a node leaves what it escapes with.
pub(crate) fn own_escaped<'a>(places: &[NodePlaces<'a>], node: u32) -> &'a [u32]
    requires { node < length places.now }
    ensures { result.now ≡ (place_at (map placed_node places.now) node).escaped }
{
    places[node as usize].e
}

/// The first word of the record of each node.
pub(crate) fn record_words(alloc: Global, places: &[NodePlaces<'_>]) -> Result<Vec<u32>, Memory>
    ensures { IfOk result (λ keeps. keeps.items ≡ map (λ n. n.keep) (map placed_node places.now)) }
{
    let mut keeps = Vec::with_capacity(alloc, places.len())?;
    for place in places {
        keeps.push(place.keep)?;
    }
    Ok(keeps)
}

/// Where each node puts what it escapes with.
pub(crate) fn escaped_rows<'a>(
    alloc: Global,
    places: &[NodePlaces<'a>],
) -> Result<Vec<&'a [u32]>, Memory>
    ensures { IfOk result (λ rows. lists_of rows.items
        ≡ map (λ n. n.escaped) (map placed_node places.now)) }
{
    let mut rows = Vec::with_capacity(alloc, places.len())?;
    for place in places {
        rows.push(place.e)?;
    }
    Ok(rows)
}

// puts so many words at the numbers of some nodes
fn put_words(list: &mut Vec<u32>, places: &[NodePlaces<'_>], words: u32)
    requires { (n : PlacedNode) → OneOf n (map placed_node places.now)
        → n.node < vec_len list.old }
    ensures words { list.new.items ≡ put_words (map placed_node places.now) words list.old.items }
    ensures len { vec_len list.new ≡ vec_len list.old }
{
    for place in places {
        list[place.node as usize] = words;
    }
}

/// How many words the frame has in which each of so many nodes is performed.
pub(crate) fn frame_words(
    alloc: Global,
    layout: &Layout<'_>,
    count: usize,
) -> Result<Vec<u32>, Memory>
    requires { (f : Frame) → (n : PlacedNode) → OneOf f (frames_of layout.now) → OneOf n f.nodes
        → n.node < count }
    ensures words { IfOk result (λ list. list.items
        ≡ put_frame_words (frames_of layout.now) (replicate count 0)) }
    ensures len { IfOk result (λ list. vec_len list ≡ count) }
{
    let mut list = vec![in alloc; 0; count]?;
    for procedure in layout.procedures {
        put_words(&mut list, procedure.places, procedure.words);
    }
    Ok(list)
}
