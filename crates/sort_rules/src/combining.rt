//! What the nodes with parts ask of a table.
ghost use Rattle.std.specs.Prelude.{ℕ, ◌≡◌, ◌++◌, List, OnOk, IfOk};
ghost use Rattle.action_terms.specs.Actions.{Unfolding, Furthermore, Both, Phases, Either, Trapping};
ghost use Rattle.action_terms.specs.Forms.{join_viewed, chain_viewed};
ghost use Rattle.sort_rules.specs.Tables.{DataIn, BindsIn};
ghost use Rattle.sort_rules.specs.Demands.{handed, ends_like, node_demands, joined_binds, chained_binds, chained_data, second_data, second_binds};
ghost use Rattle.sort_rules.specs.MarkedRows.{marked_table};
ghost use Rattle.sort_rules.specs.DemandViews.{demands_of};
ghost use Rattle.sort_rules.specs.Views.{marked_tuple_of, marked_binds_of};

use crate::demands::{Demand, ask, ends_like, handed};
use crate::parts::{MarkedBinds, MarkedTuple};
use crate::rows::{MarkedRow, binds_in, binds_out, data_in, data_out, escaped};
use crate::{maps, tuples};
use acg_base::Memory;
use action_terms::{Chain, Join};
use bumpalo::Bump;
use std::alloc::AllocError;

/// `unfolding` asks so of its body.
pub fn ask_unfolding<'a>(
    rows: &[MarkedRow<'a>],
    node: u32,
    body: u32,
    out: &mut Vec<Demand<'a>>,
) -> Result<(), Memory>
    ensures { OnOk result ((cells : List ℕ) → (bodies : List ℕ) → demands_of out.new.items
        ≡ demands_of out.old.items ++ node_demands cells bodies (marked_table rows.now) node
        (Unfolding body)) }
{
    ask(
        out,
        &handed(body, data_in(rows, node), binds_in(rows, node)),
    )?;
    ask(out, &ends_like(rows, node, body))
}

/// `furthermore` asks so of its part.
pub fn ask_furthermore<'a>(
    arena: &'a Bump,
    rows: &[MarkedRow<'a>],
    node: u32,
    part: u32,
    out: &mut Vec<Demand<'a>>,
) -> Result<(), Memory>
    ensures { OnOk result ((cells : List ℕ) → (bodies : List ℕ) → demands_of out.new.items
        ≡ demands_of out.old.items ++ node_demands cells bodies (marked_table rows.now) node
        (Furthermore part)) }
{
    let h = binds_in(rows, node);
    let p = maps::overlay(arena, h, binds_out(rows, part))?;
    ask(out, &handed(part, data_in(rows, node), h))?;
    ask(
        out,
        &[
            Demand::DataOut(node, data_out(rows, part)),
            Demand::BindsOut(node, p),
            Demand::Escaped(node, escaped(rows, part)),
        ],
    )
}

// what the parts of `and` and `moreover` complete with
fn joined_binds<'a>(
    arena: &'a Bump,
    join: Join,
    x: MarkedBinds<'a>,
    y: MarkedBinds<'a>,
) -> Result<MarkedBinds<'a>, AllocError>
    ensures { IfOk result (λ r. marked_binds_of r
        ≡ joined_binds (join_viewed join) (marked_binds_of x.entry) (marked_binds_of y.entry)) }
{
    match join {
        Join::And => maps::union(arena, x, y),
        Join::Moreover => maps::overlay(arena, x, y),
    }
}

/// `and` and `moreover` ask so of their parts.
pub fn ask_both<'a>(
    arena: &'a Bump,
    rows: &[MarkedRow<'a>],
    node: u32,
    join: Join,
    left: u32,
    right: u32,
    out: &mut Vec<Demand<'a>>,
) -> Result<(), Memory>
    ensures { OnOk result ((cells : List ℕ) → (bodies : List ℕ) → demands_of out.new.items
        ≡ demands_of out.old.items ++ node_demands cells bodies (marked_table rows.now) node
        (Both (join_viewed join) left right)) }
{
    let g = data_in(rows, node);
    let h = binds_in(rows, node);
    let o = tuples::concatenation(arena, data_out(rows, left), data_out(rows, right))?;
    let p = joined_binds(arena, join, binds_out(rows, left), binds_out(rows, right))?;
    ask(out, &handed(left, g, h))?;
    ask(out, &handed(right, g, h))?;
    ask(
        out,
        &[
            Demand::DataOut(node, o),
            Demand::BindsOut(node, p),
            Demand::Escaped(node, escaped(rows, left)),
            Demand::Escaped(node, escaped(rows, right)),
        ],
    )
}

// the data that the second of two parts in order is given
fn second_data<'a>(rows: &[MarkedRow<'a>], node: u32, chain: Chain, left: u32) -> MarkedTuple<'a>
    ensures { marked_tuple_of result
        ≡ second_data (chain_viewed chain) (marked_table rows.now) node left }
{
    match chain {
        Chain::Then => data_out(rows, left),
        _ => data_in(rows, node),
    }
}

// the bindings that it receives
fn second_binds<'a>(
    arena: &'a Bump,
    rows: &[MarkedRow<'a>],
    node: u32,
    chain: Chain,
    left: u32,
) -> Result<MarkedBinds<'a>, AllocError>
    ensures { IfOk result (λ r. marked_binds_of r
        ≡ second_binds (chain_viewed chain) (marked_table rows.now) node left) }
{
    match chain {
        Chain::Hence => Ok(binds_out(rows, left)),
        Chain::Before => maps::overlay(arena, binds_in(rows, node), binds_out(rows, left)),
        _ => Ok(binds_in(rows, node)),
    }
}

// the data that two parts in order complete with
fn chained_data<'a>(
    arena: &'a Bump,
    chain: Chain,
    x: MarkedTuple<'a>,
    y: MarkedTuple<'a>,
) -> Result<MarkedTuple<'a>, AllocError>
    ensures { IfOk result (λ r. marked_tuple_of r
        ≡ chained_data (chain_viewed chain) (marked_tuple_of x.entry) (marked_tuple_of y.entry)) }
{
    match chain {
        Chain::Then => Ok(y),
        _ => tuples::concatenation(arena, x, y),
    }
}

// the bindings that they complete with
fn chained_binds<'a>(
    arena: &'a Bump,
    chain: Chain,
    x: MarkedBinds<'a>,
    y: MarkedBinds<'a>,
) -> Result<MarkedBinds<'a>, AllocError>
    ensures { IfOk result (λ r. marked_binds_of r
        ≡ chained_binds (chain_viewed chain) (marked_binds_of x.entry) (marked_binds_of y.entry)) }
{
    match chain {
        Chain::Hence => Ok(y),
        Chain::Before => maps::overlay(arena, x, y),
        _ => maps::union(arena, x, y),
    }
}

/// `and then`, `then`, `hence` and `before` ask so of their parts.
pub fn ask_phases<'a>(
    arena: &'a Bump,
    rows: &[MarkedRow<'a>],
    node: u32,
    chain: Chain,
    left: u32,
    right: u32,
    out: &mut Vec<Demand<'a>>,
) -> Result<(), Memory>
    ensures { OnOk result ((cells : List ℕ) → (bodies : List ℕ) → demands_of out.new.items
        ≡ demands_of out.old.items ++ node_demands cells bodies (marked_table rows.now) node
        (Phases (chain_viewed chain) left right)) }
{
    let g = second_data(rows, node, chain, left);
    let h = second_binds(arena, rows, node, chain, left)?;
    let o = chained_data(arena, chain, data_out(rows, left), data_out(rows, right))?;
    let p = chained_binds(arena, chain, binds_out(rows, left), binds_out(rows, right))?;
    ask(
        out,
        &handed(left, data_in(rows, node), binds_in(rows, node)),
    )?;
    ask(out, &handed(right, g, h))?;
    ask(
        out,
        &[
            Demand::DataOut(node, o),
            Demand::BindsOut(node, p),
            Demand::Escaped(node, escaped(rows, left)),
            Demand::Escaped(node, escaped(rows, right)),
        ],
    )
}

/// Both parts are handed what the node is given and receives.
pub fn hand_both<'a>(
    rows: &[MarkedRow<'a>],
    node: u32,
    left: u32,
    right: u32,
    out: &mut Vec<Demand<'a>>,
) -> Result<(), Memory>
    ensures { OnOk result (demands_of out.new.items ≡ demands_of out.old.items
        ++ (handed left (marked_table rows.now (DataIn node)) (marked_table rows.now (BindsIn node))
        ++ handed right (marked_table rows.now (DataIn node))
        (marked_table rows.now (BindsIn node)))) }
{
    let g = data_in(rows, node);
    let h = binds_in(rows, node);
    ask(out, &handed(left, g, h))?;
    ask(out, &handed(right, g, h))
}

// the node ends with what either of two parts ends with
fn end_like_both<'a>(
    rows: &[MarkedRow<'a>],
    node: u32,
    left: u32,
    right: u32,
    out: &mut Vec<Demand<'a>>,
) -> Result<(), Memory>
    ensures { OnOk result (demands_of out.new.items ≡ demands_of out.old.items
        ++ (ends_like (marked_table rows.now) node left
        ++ ends_like (marked_table rows.now) node right)) }
{
    ask(out, &ends_like(rows, node, left))?;
    ask(out, &ends_like(rows, node, right))
}

/// `or` asks so of its arms.
pub fn ask_either<'a>(
    rows: &[MarkedRow<'a>],
    node: u32,
    left: u32,
    right: u32,
    out: &mut Vec<Demand<'a>>,
) -> Result<(), Memory>
    ensures { OnOk result ((cells : List ℕ) → (bodies : List ℕ) → demands_of out.new.items
        ≡ demands_of out.old.items ++ node_demands cells bodies (marked_table rows.now) node
        (Either left right)) }
{
    hand_both(rows, node, left, right, out)?;
    end_like_both(rows, node, left, right, out)?;
    Ok(())
}

/// `trap` asks so of its part and its handler.
pub fn ask_trapping<'a>(
    rows: &[MarkedRow<'a>],
    node: u32,
    left: u32,
    right: u32,
    out: &mut Vec<Demand<'a>>,
) -> Result<(), Memory>
    ensures { OnOk result ((cells : List ℕ) → (bodies : List ℕ) → demands_of out.new.items
        ≡ demands_of out.old.items ++ node_demands cells bodies (marked_table rows.now) node
        (Trapping left right)) }
{
    let h = binds_in(rows, node);
    ask(out, &handed(left, data_in(rows, node), h))?;
    ask(out, &handed(right, escaped(rows, left), h))?;
    ask(
        out,
        &[
            Demand::DataOut(node, data_out(rows, left)),
            Demand::BindsOut(node, binds_out(rows, left)),
        ],
    )?;
    ask(out, &ends_like(rows, node, right))
}
