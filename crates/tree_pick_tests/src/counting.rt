//! How many trees there are, by counting over all spans: none, one, or two for more.
use gram_form::{Part, Production};
use std::alloc::Global;
use std::test::Fail;

/// More than the number of places of any source that is counted.
pub const WIDTH: usize = 128;

// Where the count of a nonterminal over a span is kept.
fn place(nonterminal: u32, i: u32, j: u32) -> usize {
    nonterminal
        .wrapping_mul(128)
        .wrapping_add(i)
        .wrapping_mul(128)
        .wrapping_add(j) as usize
}

/// How many trees of the nonterminal span the letters from `i` to before `j`.
pub fn count_of(table: &[u8], nonterminal: u32, i: u32, j: u32) -> u8 {
    match table.get(place(nonterminal, i, j)) {
        Some(count) => *count,
        None => 0,
    }
}

// Two for two or more.
fn sum(a: u8, b: u8) -> u8 {
    match (a, b) {
        (0, _) => b,
        (_, 0) => a,
        _ => 2,
    }
}

// Two for two or more.
fn product(a: u8, b: u8) -> u8 {
    match (a, b) {
        (0, _) | (_, 0) => 0,
        (1, 1) => 1,
        _ => 2,
    }
}

// The number of a nonterminal, of which there are `A`, `B` and `C`.
fn number_of(name: &[u8]) -> u32 {
    match name.first() {
        Some(b'A') => 0,
        Some(b'B') => 1,
        _ => 2,
    }
}

// In how many ways the part spans the letters from `k` to before `j`.
fn ways_of_part(table: &[u8], letters: &[u8], part: Part<'_>, k: u32, j: u32) -> u8 {
    match part {
        Part::Nonterm(name) => count_of(table, number_of(name), k, j),
        Part::Literal(bytes) => match (bytes.first(), letters.get(k as usize)) {
            (Some(wanted), Some(letter)) => {
                if *wanted == *letter && j == k.wrapping_add(1) {
                    1
                } else {
                    0
                }
            }
            _ => 0,
        },
        Part::Identifier | Part::Numeral => 0,
    }
}

// Letters, and how many trees over spans of them were found so far.
#[derive(Clone, Copy)]
struct Counted<'a> {
    table: &'a [u8],
    letters: &'a [u8],
}

// Adds to each place the ways to it by the part from place `k`, to which there are so many.
fn add_ways(counted: Counted<'_>, part: Part<'_>, k: u32, ways: u8, into: &mut [u8]) {
    for j in k..128 {
        if let Some(cell) = into.get_mut(j as usize) {
            let more = ways_of_part(counted.table, counted.letters, part, k, j);
            *cell = sum(*cell, product(ways, more));
        }
    }
}

// In how many ways the part leads to each place, from the places with so many ways.
fn follow(
    alloc: Global,
    counted: Counted<'_>,
    part: Part<'_>,
    from: &[u8],
) -> Result<Vec<u8>, Fail> {
    let mut into = vec![in alloc; 0u8; from.len()]?;
    for k in 0..128 {
        if let Some(ways) = from.get(k as usize) {
            if *ways != 0 {
                add_ways(counted, part, k, *ways, &mut into);
            }
        }
    }
    Ok(into)
}

// In how many ways the parts lead to each place from the start.
fn ways_of(
    alloc: Global,
    counted: Counted<'_>,
    parts: &[Part<'_>],
    start: u32,
) -> Result<Vec<u8>, Fail> {
    let mut ways = vec![in alloc; 0u8; counted.letters.len().wrapping_add(1).min(WIDTH)]?;
    if let Some(cell) = ways.get_mut(start as usize) {
        *cell = 1;
    }
    for part in parts {
        ways = follow(alloc, counted, *part, &ways)?;
    }
    Ok(ways)
}

// Keeps the counts of a nonterminal from the start, and tells whether one is another than before.
fn keep(table: &mut [u8], nonterminal: u32, start: u32, counts: &[u8]) -> bool {
    let mut more = false;
    for j in 0..128 {
        if let Some(count) = counts.get(j as usize) {
            if let Some(cell) = table.get_mut(place(nonterminal, start, j)) {
                if *cell != *count {
                    *cell = *count;
                    more = true;
                }
            }
        }
    }
    more
}

// Counts the trees of a nonterminal from the start by what the table has.
fn counts_of(
    alloc: Global,
    counted: Counted<'_>,
    alternatives: &[&[Part<'_>]],
    start: u32,
) -> Result<Vec<u8>, Fail> {
    let mut counts = vec![in alloc; 0u8; counted.letters.len().wrapping_add(1).min(WIDTH)]?;
    for parts in alternatives {
        let ways = ways_of(alloc, counted, *parts, start)?;
        for j in 0..128u32 {
            if let Some(cell) = counts.get_mut(j as usize) {
                if let Some(more) = ways.get(j as usize) {
                    *cell = sum(*cell, *more);
                }
            }
        }
    }
    Ok(counts)
}

// Counts all trees once by what the table has, and tells whether a count is another than before.
fn round(
    alloc: Global,
    list: &[Production<'_>],
    letters: &[u8],
    table: &mut [u8],
) -> Result<bool, Fail> {
    let mut more = false;
    for production in list {
        let nonterminal = number_of(production.name);
        for start in 0..128u32 {
            if start as usize <= letters.len() {
                let counted = Counted {
                    table: &*table,
                    letters,
                };
                let counts = counts_of(alloc, counted, production.alternatives, start)?;
                if keep(table, nonterminal, start, &counts) {
                    more = true;
                }
            }
        }
    }
    Ok(more)
}

/// The counts of trees of all nonterminals over all spans of the letters.
pub fn count(alloc: Global, list: &[Production<'_>], letters: &[u8]) -> Result<Vec<u8>, Fail> {
    let mut table = vec![in alloc; 0u8; 49152]?;
    for _ in 0..10000u32 {
        if !round(alloc, list, letters, &mut table)? {
            return Ok(table);
        }
    }
    Err("the counts don't end")?
}
