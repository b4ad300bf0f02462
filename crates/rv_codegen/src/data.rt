//! The code that leaves data at words of the frame.

ghost use Rattle.std.specs.Prelude.{◌≡◌, ℕ, ◌<◌, ◌≤◌, [], ◌∷◌, All, IfOk, OnOk, drop, length, map, take, true};
ghost use Rattle.rv_asm.specs.declared.item.Item.TheVariants.{Plain};
ghost use Rattle.action_terms.specs.Forms.{AreItems, IsDatum, item_at, items_at, yielder_at};
ghost use Rattle.action_terms.specs.Need.{items_yielder_count, yielder_count};
ghost use Rattle.action_terms.specs.Numbering.{node_limit};
ghost use Rattle.rv_yield.specs.Registers.{is_built};
ghost use Rattle.rv_codegen.specs.Built.{are_built};
ghost use Rattle.rv_yield.specs.Sources.{places_of};
ghost use Rattle.rv_codegen.specs.GivenItems.{alone, give_items, move_items, moves_items, single_items};
ghost use Rattle.rv_codegen.specs.ItemCode.{item_code, item_words};
ghost use Rattle.rv_codegen.specs.Marks.{extended};

use acg_base::Memory;
use action_terms::YielderView;
use rv_asm::Asm;
use rv_code::Reg;
use rv_yield::{Source, append_load, append_store, stored_code, value_code};
use std::alloc::Global;

/// Holds a word on its way.
const VALUE: Reg = Reg(10);

/// Appends what moves a word of the frame to another one, by their offsets.
fn append_move(asm: &mut Asm, from: u32, to: u32) -> Result<(), Memory>
    requires near_from { from < 33554432 }
    requires near_to { to < 33554432 }
    ensures { OnOk result (asm.new ≡ extended asm.old (map Plain (move_items from to))) }
{
    append_load(asm, VALUE, from)?;
    append_store(asm, to)
}

/// Appends what moves words of the frame to as many others.
fn append_moves(asm: &mut Asm, from: &[u32], to: &[u32]) -> Result<(), Memory>
    requires near_from { All (λ o. o < 33554432) from.now }
    requires near_to { All (λ o. o < 33554432) to.now }
    requires enough { length to.now ≤ length from.now }
    ensures { OnOk result (asm.new ≡ extended asm.old (map Plain (moves_items from.now to.now))) }
{
    for i in 0..to.len() {
        append_move(asm, from[i], to[i])?;
    }
    Ok(())
}

/// Appends what leaves all that is given at the first of some words, and gives the words behind.
pub(crate) fn append_them<'a>(
    asm: &mut Asm,
    given: &[u32],
    out: &'a [u32],
) -> Result<&'a [u32], Memory>
    requires near_given { All (λ o. o < 33554432) given.now }
    requires near_out { All (λ o. o < 33554432) out.now }
    ensures items { OnOk result (asm.new
        ≡ extended asm.old (map Plain (moves_items given.now (take (length given.now) out.now)))) }
    ensures rest { IfOk result (λ rest. rest.now ≡ drop (length given.now) out.now) }
{
    let moved = given.len().min(out.len());
    append_moves(asm, given, &out[..moved])?;
    Ok(&out[moved..])
}

/// Appends what leaves the datum of a yielder at the first of some words, and gives the words
/// behind. Where there is none, the yielder is computed alone.
fn append_single<'a>(
    alloc: Global,
    asm: &mut Asm,
    source: &Source<'_>,
    out: &'a [u32],
    yielder: u32,
) -> Result<&'a [u32], Memory>
    requires datum { IsDatum source.now.graph.now.yielders yielder }
    requires built { is_built (yielder_at source.now.graph.now.yielders yielder) ≡ true }
    requires few { yielder_count (yielder_at source.now.graph.now.yielders yielder) < node_limit }
    requires near_out { All (λ o. o < 33554432) out.now }
    requires alone { places_of source.now ≡ alone source.now.given.now }
    requires label { source.now.nothing < asm.old.labels }
    ensures items { OnOk result (asm.new ≡ extended asm.old (single_items source.now.given.now
        out.now source.now.nothing (yielder_at source.now.graph.now.yielders yielder))) }
    ensures rest { IfOk result (λ rest. rest.now ≡ drop 1 out.now) }
{
    if out.is_empty() {
        value_code(alloc, asm, source, yielder, VALUE)?;
        return Ok(out);
    }
    stored_code(alloc, asm, source, yielder, out[0])?;
    Ok(&out[1..])
}

/// Appends what leaves the data of an item at the first of some words, and gives the words behind.
fn append_item<'a>(
    alloc: Global,
    asm: &mut Asm,
    source: &Source<'_>,
    out: &'a [u32],
    item: u32,
) -> Result<&'a [u32], Memory>
    requires within { item < length source.now.graph.now.yielders }
    requires built { are_built (item_at source.now.graph.now.yielders item ∷ []) ≡ true }
    requires few { items_yielder_count (item_at source.now.graph.now.yielders item ∷ [])
        < node_limit }
    requires near_out { All (λ o. o < 33554432) out.now }
    requires alone { places_of source.now ≡ alone source.now.given.now }
    requires label { source.now.nothing < asm.old.labels }
    ensures items { OnOk result (asm.new ≡ extended asm.old (item_code source.now.given.now
        out.now source.now.nothing (item_at source.now.graph.now.yielders item))) }
    ensures rest { IfOk result (λ rest. rest.now ≡ drop (item_words source.now.given.now
        (item_at source.now.graph.now.yielders item)) out.now) }
{
    match source.graph.yielder_view(item as usize) {
        YielderView::Them => append_them(asm, source.given, out),
        _ => append_single(alloc, asm, source, out, item),
    }
}

/// Appends what leaves data at words of the frame, in the order of their items.
pub(crate) fn append_data(
    alloc: Global,
    asm: &mut Asm,
    source: &Source<'_>,
    out: &[u32],
    items: &[u32],
) -> Result<(), Memory>
    requires items { AreItems source.now.graph.now.yielders items.now }
    requires built { are_built (items_at source.now.graph.now.yielders items.now) ≡ true }
    requires few { items_yielder_count (items_at source.now.graph.now.yielders items.now)
        < node_limit }
    requires near_out { All (λ o. o < 33554432) out.now }
    requires alone { places_of source.now ≡ alone source.now.given.now }
    requires label { source.now.nothing < asm.old.labels }
    ensures { OnOk result (asm.new ≡ extended asm.old (give_items source.now.given.now out.now
        source.now.nothing (items_at source.now.graph.now.yielders items.now))) }
{
    let mut rest = out;
    for item in items {
        rest = append_item(alloc, asm, source, rest, *item)?;
    }
    Ok(())
}
