//! Sets of places as rows of bits in an arena, shared between entries. A row that grows is a new
//! slice.
ghost use Rattle.std.specs.Prelude.{◌≢◌, ◌≡◌, false, ◌⊎◌, ℕ, ◌*◌, ◌<◌, ◌≤◌, ◌↔◌, length, IsTrue, IfOk, OnOk};
ghost use Rattle.chart_parse.specs.Rows.{Has, HasMore, Lists, AreWide, ListsRow, ListsBoth};
ghost use Rattle.chart_parse.specs.Table.{list_at, AllWide};

use acg_base::Memory;
use bumpalo::Bump;
use std::alloc::Global;

/// A nonterminal and the places at which it ends.
#[derive(Clone, Copy)]
pub struct Entry<'a> {
    pub nonterm: u32,
    pub row: &'a [u64],
}

/// Whether the row has the number.
pub fn has(row: &[u64], e: usize) -> bool
    requires { e < 64 * length row.now }
    ensures { IsTrue result ↔ Has row.now e }
{
    (row[e / 64] >> (e % 64)) & 1 == 1
}

/// A row without numbers.
pub fn empty(alloc: Global, width: usize) -> Result<Vec<u64>, Memory>
    ensures len { IfOk result (λ r. length r.items ≡ width) }
    ensures none { IfOk result (λ r. (e : ℕ) → Has r.items e → ⊥) }
{
    Ok(vec![in alloc; 0; width]?)
}

/// Puts the number into the row.
pub fn insert(row: &mut [u64], e: usize)
    requires { e < 64 * length row.old }
    ensures len { length row.new ≡ length row.old }
    ensures one { (d : ℕ) → Has row.new d ↔ (Has row.old d ⊎ (d ≡ e)) }
{
    row[e / 64] |= 1 << (e % 64);
}

/// Adds what the finished row has to the row that grows, and tells whether that is more.
pub fn join(into: &mut [u64], from: &[u64]) -> bool
    requires { length from.now ≡ length into.old }
    ensures len { length into.new ≡ length into.old }
    ensures joined { (e : ℕ) → e < 64 * length into.old → HasMore into.old from.now into.new e }
    ensures same { result ≡ false → into.new ≡ into.old }
{
    let mut more = false;
    for k in 0..into.len() {
        let word = into[k] | from[k];
        if word != into[k] {
            into[k] = word;
            more = true;
        }
    }
    more
}

/// Whether the second row has a number that the first doesn't have.
pub fn has_more(row: &[u64], other: &[u64]) -> bool
    requires { length other.now ≡ length row.now }
    ensures { result ≡ false → (e : ℕ) → e < 64 * length row.now
        → HasMore row.now other.now row.now e }
{
    let mut more = false;
    for k in 0..row.len() {
        if row[k] | other[k] != row[k] {
            more = true;
        }
    }
    more
}

/// What either row has, as a new row in the arena.
fn union<'a>(arena: &'a Bump, row: &[u64], other: &[u64]) -> Result<&'a [u64], Memory>
    requires { length other.now ≡ length row.now }
    ensures len { IfOk result (λ r. length r.now ≡ length row.now) }
    ensures both { IfOk result (λ r. (e : ℕ) → e < 64 * length row.now
        → HasMore row.now other.now r.now e) }
{
    match arena.try_alloc_slice_copy(row) {
        Ok(copy) => {
            join(copy, other);
            Ok(copy)
        }
        Err(_) => Err(Memory),
    }
}

/// Adds the row to the entry of its nonterminal, and tells whether that is more. The first row is
/// shared.
pub fn add<'a>(
    arena: &'a Bump,
    width: usize,
    list: &mut Vec<Entry<'a>>,
    entry: Entry<'a>,
) -> Result<bool, Memory>
    requires wide { AreWide width list.old.items }
    requires row { length entry.row.now ≡ width }
    ensures wide { OnOk result (AreWide width list.new.items) }
    ensures joined { OnOk result (ListsRow width list.old.items list.new.items entry.entry) }
    ensures same { IfOk result (λ more. more ≡ false → list.new.items ≡ list.old.items) }
{
    for k in 0..list.len() {
        let found = list[k];
        if found.nonterm == entry.nonterm {
            if !has_more(found.row, entry.row) {
                return Ok(false);
            }
            list[k] = Entry {
                nonterm: entry.nonterm,
                row: union(arena, found.row, entry.row)?,
            };
            return Ok(true);
        }
    }
    match list.push(entry) {
        Ok(()) => Ok(true),
        Err(_) => Err(Memory),
    }
}

/// Adds each row of the second list to the first, and tells whether that is more.
pub fn add_all<'a>(
    arena: &'a Bump,
    width: usize,
    list: &mut Vec<Entry<'a>>,
    from: &[Entry<'a>],
) -> Result<bool, Memory>
    requires wide { AreWide width list.old.items }
    requires from { AreWide width from.now }
    ensures wide { OnOk result (AreWide width list.new.items) }
    ensures joined { OnOk result (ListsBoth width list.old.items from.now list.new.items) }
    ensures same { IfOk result (λ more. more ≡ false → list.new.items ≡ list.old.items) }
{
    let mut more = false;
    for k in 0..from.len() {
        if add(arena, width, list, from[k])? {
            more = true;
        }
    }
    Ok(more)
}

/// Adds each row of the list to the list of the table, and tells whether that is more.
pub fn add_at<'a>(
    arena: &'a Bump,
    width: usize,
    table: &mut Vec<Vec<Entry<'a>>>,
    into: usize,
    from: &[Entry<'a>],
) -> Result<bool, Memory>
    requires inside { into < length table.old.items }
    requires wide { AllWide width table.old.items }
    requires from { AreWide width from.now }
    ensures len { OnOk result (length table.new.items ≡ length table.old.items) }
    ensures others { OnOk result ((n : ℕ) → n ≢ into
        → list_at table.new.items n ≡ list_at table.old.items n) }
    ensures wide { OnOk result (AllWide width table.new.items) }
    ensures joined { OnOk result (ListsBoth width (list_at table.old.items into) from.now (list_at
        table.new.items into)) }
    ensures same { IfOk result (λ more. more ≡ false
        → list_at table.new.items into ≡ list_at table.old.items into) }
{
    add_all(arena, width, &mut table[into], from)
}
