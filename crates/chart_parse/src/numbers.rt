//! The numbers of rows as lists.
ghost use Rattle.std.specs.Prelude.{◌≡◌, ◌⊎◌, ℕ, ◌+◌, ◌*◌, ◌<◌, ◌≤◌, ◌↔◌, length, IfOk, OnOk, Contains};
ghost use Rattle.chart_parse.specs.Rows.{Has, IsBitOf, IsExtra};

use acg_base::Memory;
use std::alloc::Global;

// Adds the number, if it is below the bound.
fn add_below(list: &mut Vec<usize>, number: usize, below: usize) -> Result<(), Memory>
    ensures { OnOk result ((e : ℕ) → Contains list.new.items e
        ↔ (Contains list.old.items e ⊎ ((number < below) × (number ≡ e)))) }
{
    if number < below {
        list.push(number)?;
    }
    Ok(())
}

// Adds the numbers of the bits of a word, the first of which has the number `first`, below a bound.
fn add_bits(word: u64, first: usize, below: usize, list: &mut Vec<usize>) -> Result<(), Memory>
    requires small { first < 4611686018427387904 }
    ensures { OnOk result ((e : ℕ) → Contains list.new.items e ↔ (Contains list.old.items e
        ⊎ ((e < below) × IsBitOf word first e))) }
{
    let mut left = word;
    for _ in 0..u64::MAX {
        if left == 0 {
            return Ok(());
        }
        let bit = left.trailing_zeros();
        add_below(list, first + bit as usize, below)?;
        left &= !(1 << bit);
    }
    Err(Memory)
}

/// Adds the numbers below a bound that the row has.
pub fn add_numbers(row: &[u64], below: usize, list: &mut Vec<usize>) -> Result<(), Memory>
    requires below { below ≤ 64 * length row.now }
    requires small { below < 4611686018427387904 }
    ensures { OnOk result ((e : ℕ) → Contains list.new.items e ↔ (Contains list.old.items e
        ⊎ ((e < below) × Has row.now e))) }
{
    for k in 0..(below + 63) / 64 {
        add_bits(row[k], 64 * k, below, list)?;
    }
    Ok(())
}

/// The numbers below a bound that the row has and the other row doesn't have.
pub fn difference(
    alloc: Global,
    row: &[u64],
    other: &[u64],
    below: usize,
) -> Result<Vec<usize>, Memory>
    requires len { length other.now ≡ length row.now }
    requires below { below ≤ 64 * length row.now }
    requires small { below < 4611686018427387904 }
    ensures { IfOk result (λ list. (e : ℕ) → Contains list.items e
        ↔ IsExtra below row.now other.now e) }
{
    let mut list = Vec::new(alloc);
    for k in 0..(below + 63) / 64 {
        add_bits(row[k] & !other[k], 64 * k, below, &mut list)?;
    }
    Ok(list)
}
