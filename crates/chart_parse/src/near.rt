//! At which places of a chart nothing grows from a nonterminal but itself.
ghost use Rattle.std.specs.Prelude.{◌≡◌, ℕ, ◌+◌, ◌*◌, ◌<◌, ◌≤◌, true, length, IfOk, OnOk};
ghost use Rattle.chart_parse.specs.Rows.{Has, Lists, AreWide};
ghost use Rattle.chart_parse.specs.Places.{grammar_of, width_of, Places, IsPart, AreNear};

use crate::rows::{Entry, empty, has_more, insert};
use crate::source::Source;
use acg_base::Memory;
use std::alloc::Global;

/// A row without places for each nonterminal.
pub fn no_near(alloc: Global, source: &Source<'_>) -> Result<Vec<Vec<u64>>, Memory>
    ensures { IfOk result (λ near. (p : Places) (first : ℕ) → AreNear (grammar_of source.now)
        source.now.kinds.now p first near.items) }
{
    let mut near = Vec::new(alloc);
    for _ in 0..source.nonterminals.len() {
        near.push(empty(alloc, source.kinds.len() / 64 + 1)?)?;
    }
    Ok(near)
}

// Whether each entry is of the nonterminal, and has only places of the row.
fn is_alone(list: &[Entry<'_>], nonterminal: u32, row: &[u64]) -> bool
    requires { AreWide (length row.now) list.now }
    ensures { result ≡ true → (n e : ℕ) → e < 64 * length row.now → Lists list.now n e
        → (n ≡ nonterminal) × Has row.now e }
{
    for k in 0..list.len() {
        let entry = list[k];
        if entry.nonterm != nonterminal || has_more(row, entry.row) {
            return false;
        }
    }
    true
}

/// Puts the place into the rows of the nonterminals from which only themselves grow there.
pub fn mark_near(
    alloc: Global,
    source: &Source<'_>,
    places: &[Vec<Vec<Entry<'_>>>],
    place: usize,
    near: &mut Vec<Vec<u64>>,
) -> Result<(), Memory>
    requires place { place ≤ length source.now.kinds.now }
    requires part { IsPart (grammar_of source.now) source.now.kinds.now places.now }
    requires near { AreNear (grammar_of source.now) source.now.kinds.now places.now (place + 1)
        near.old.items }
    ensures { OnOk result (AreNear (grammar_of source.now) source.now.kinds.now places.now place
        near.new.items) }
{
    let mut one = empty(alloc, source.kinds.len() / 64 + 1)?;
    insert(&mut one, place);
    for m in 0..source.nonterminals.len() {
        if is_alone(&places[place][m], m as u32, &one) {
            insert(&mut near[m], place);
        }
    }
    Ok(())
}
