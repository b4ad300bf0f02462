//! The lists of a chart before any rule: from each nonterminal that ends at a place grows itself.
ghost use Rattle.std.specs.Prelude.{◌≡◌, ℕ, ◌+◌, ◌*◌, ◌<◌, ◌≤◌, ◌↔◌, length, IfOk};
ghost use Rattle.chart_parse.specs.Rows.{Has, Lists};
ghost use Rattle.chart_parse.specs.Table.{list_at, AllWide};
ghost use Rattle.chart_parse.specs.Places.{grammar_of, width_of, IsPart};

use crate::rows::{Entry, empty, insert};
use crate::source::Source;
use acg_base::Memory;
use bumpalo::Bump;
use std::alloc::Global;

// A row in the arena with one number.
fn row_of<'a>(alloc: Global, arena: &'a Bump, width: usize, e: usize) -> Result<&'a [u64], Memory>
    requires { e < 64 * width }
    ensures len { IfOk result (λ r. length r.now ≡ width) }
    ensures one { IfOk result (λ r. (d : ℕ) → d < 64 * width → Has r.now d ↔ (d ≡ e)) }
{
    let mut row = empty(alloc, width)?;
    insert(&mut row, e);
    match arena.try_alloc_slice_copy(&row) {
        Ok(copy) => Ok(copy),
        Err(_) => Err(Memory),
    }
}

// The lists of a place: an entry of each nonterminal in its own list, and no ends.
fn first_lists<'a>(
    alloc: Global,
    count: usize,
    row: &'a [u64],
) -> Result<Vec<Vec<Entry<'a>>>, Memory>
    requires { count < 4294967296 }
    ensures len { IfOk result (λ table. length table.items ≡ count + 1) }
    ensures wide { IfOk result (λ table. AllWide (length row.now) table.items) }
    ensures lists { IfOk result (λ table. (c n e : ℕ) → Lists (list_at table.items c) n e
        ↔ ((c < count) × (c ≡ n) × Has row.now e)) }
{
    let mut table = Vec::new(alloc);
    for c in 0..count {
        let mut list = Vec::new(alloc);
        list.push(Entry {
            nonterm: c as u32,
            row,
        })?;
        table.push(list)?;
    }
    table.push(Vec::new(alloc))?;
    Ok(table)
}

/// The lists of all places.
pub fn first_places<'a>(
    alloc: Global,
    arena: &'a Bump,
    source: &Source<'_>,
) -> Result<Vec<Vec<Vec<Entry<'a>>>>, Memory>
    requires { length source.now.nonterminals.now < 4294967296 }
    ensures { IfOk result (λ places. IsPart (grammar_of source.now) source.now.kinds.now
        places.items) }
{
    let count = source.nonterminals.len();
    let width = source.kinds.len() / 64 + 1;
    let mut places = Vec::new(alloc);
    for i in 0..source.kinds.len() + 1 {
        let row = row_of(alloc, arena, width, i)?;
        places.push(first_lists(alloc, count, row)?)?;
    }
    Ok(places)
}
