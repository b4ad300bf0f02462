//! The texts of sets, tuples and bindings.
ghost use Rattle.std.specs.Prelude.{◌≡◌, ◌+◌, ◌≤◌, ◌++◌, map, length, OnOk, IfOk};
ghost use Rattle.acg_base.specs.Decimals.{unsigned_decimal_of};
ghost use Rattle.sort_rules.specs.Views.{set_of, place_of, tuple_of, binds_of, row_of};
ghost use Rattle.sort_report.specs.Report.{numbered, words_of, set_text, place_text, binding_text, tuple_text, binds_text, row_text};
ghost use Rattle.sort_report.specs.Separated.{separator_behind, separated_behind};

use acg_base::{Memory, unsigned_into};
use sort_rules::{BindSort, Row, Set, TupleSort};

/// Appends a piece.
pub(crate) fn put(text: &mut Vec<u8>, piece: &[u8]) -> Result<(), Memory>
    ensures { OnOk result (text.new.items ≡ text.old.items ++ piece.now) }
{
    text.extend_from_slice(piece)?;
    Ok(())
}

/// Appends the decimal of a number.
pub(crate) fn put_number(text: &mut Vec<u8>, number: u64) -> Result<(), Memory>
    ensures { OnOk result (text.new.items ≡ text.old.items ++ unsigned_decimal_of number) }
{
    let mut digits = [0; 20];
    let count = unsigned_into(number, &mut digits);
    put(text, &digits[..count])
}

/// Appends what stands before a member of a list that has so many before it: the separator, but for
/// the first.
fn separate(text: &mut Vec<u8>, separator: u8, members: usize) -> Result<(), Memory>
    ensures { OnOk result (text.new.items ≡ text.old.items ++ separator_behind separator members) }
{
    if members > 0 {
        text.push(separator)?;
    }
    Ok(())
}

/// Appends a word with a number behind it, as a further member of a set that has so many.
fn put_member(text: &mut Vec<u8>, word: &[u8], number: u32, members: usize) -> Result<(), Memory>
    ensures { OnOk result (text.new.items
        ≡ text.old.items ++ (separator_behind 124 members ++ numbered word.now number)) }
{
    separate(text, b'|', members)?;
    put(text, word)?;
    put_number(text, u64::from(number))
}

/// Appends a word with each of the numbers behind it, as further members of a set that has so many.
fn put_numbered(
    text: &mut Vec<u8>,
    word: &[u8],
    numbers: &[u32],
    members: usize,
) -> Result<(), Memory>
    requires { members + length numbers.now ≤ 18446744073709551615 }
    ensures { OnOk result (text.new.items ≡ text.old.items
        ++ separated_behind 124 members (map (numbered word.now) numbers.now)) }
{
    for (index, number) in numbers.iter().enumerate() {
        put_member(text, word, *number, members + index)?;
    }
    Ok(())
}

/// Appends the words of a set, and answers how many they are.
fn put_words(text: &mut Vec<u8>, set: Set<'_>) -> Result<usize, Memory>
    ensures text { OnOk result (text.new.items ≡ text.old.items
        ++ separated_behind 124 0 (words_of set.entry.integer set.entry.truth)) }
    ensures count { IfOk result (λ count. count
        ≡ length (words_of set.entry.integer set.entry.truth)) }
{
    let mut count = 0;
    if set.integer {
        put(text, b"integer")?;
        count = 1;
    }
    if set.truth {
        separate(text, b'|', count)?;
        put(text, b"truth-value")?;
        count += 1;
    }
    Ok(count)
}

/// Appends a set.
pub(crate) fn put_set(text: &mut Vec<u8>, set: Set<'_>) -> Result<(), Memory>
    ensures { OnOk result (text.new.items ≡ text.old.items ++ set_text (set_of set.entry)) }
{
    let words = put_words(text, set)?;
    put_numbered(text, b"cell@", set.cells, words)?;
    put_numbered(
        text,
        b"abstraction@",
        set.abstractions,
        words + set.cells.len(),
    )?;
    Ok(())
}

/// Appends the set of a place that has so many before it.
fn put_place(text: &mut Vec<u8>, set: Set<'_>, places: usize) -> Result<(), Memory>
    ensures { OnOk result (text.new.items
        ≡ text.old.items ++ (separator_behind 44 places ++ place_text (place_of set.entry))) }
{
    separate(text, b',', places)?;
    put_set(text, set)
}

/// Appends a token and its set, which have so many bindings before them.
fn put_binding(
    text: &mut Vec<u8>,
    token: &[u8],
    set: Set<'_>,
    bindings: usize,
) -> Result<(), Memory>
    ensures { OnOk result (text.new.items ≡ text.old.items ++ (separator_behind 44 bindings
        ++ binding_text (record { token = token.now; set = set_of set.entry }))) }
{
    separate(text, b',', bindings)?;
    put(text, token)?;
    put(text, b":")?;
    put_set(text, set)
}

/// Appends data.
fn put_tuple(text: &mut Vec<u8>, tuple: TupleSort<'_>) -> Result<(), Memory>
    ensures { OnOk result (text.new.items ≡ text.old.items ++ tuple_text (tuple_of tuple.entry)) }
{
    let sets = match tuple {
        TupleSort::Unreached => {
            return put(text, b"-");
        }
        TupleSort::List(sets) => sets,
    };
    put(text, b"(")?;
    for (index, set) in sets.iter().enumerate() {
        put_place(text, *set, index)?;
    }
    put(text, b")")?;
    Ok(())
}

/// Appends bindings.
fn put_binds(text: &mut Vec<u8>, binds: BindSort<'_>) -> Result<(), Memory>
    ensures { OnOk result (text.new.items ≡ text.old.items ++ binds_text (binds_of binds.entry)) }
{
    let pairs = match binds {
        BindSort::Unreached => {
            return put(text, b"-");
        }
        BindSort::Map(pairs) => pairs,
    };
    put(text, b"{")?;
    for (index, (token, set)) in pairs.iter().enumerate() {
        put_binding(text, token, *set, index)?;
    }
    put(text, b"}")?;
    Ok(())
}

/// Appends a row, each part behind a space.
pub(crate) fn put_row(text: &mut Vec<u8>, row: Row<'_>) -> Result<(), Memory>
    ensures { OnOk result (text.new.items ≡ text.old.items ++ row_text (row_of row.entry)) }
{
    put(text, b" ")?;
    put_tuple(text, row.g)?;
    put(text, b" ")?;
    put_binds(text, row.h)?;
    put(text, b" -> ")?;
    put_tuple(text, row.o)?;
    put(text, b" ")?;
    put_binds(text, row.p)?;
    put(text, b" ")?;
    put_tuple(text, row.e)?;
    Ok(())
}
