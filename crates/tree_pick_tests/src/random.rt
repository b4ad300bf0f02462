//! Charts and picks by grammars that a fixed rule makes, compared with counting.
ghost use Rattle.std.specs.Prelude.{◌<◌, map, length, IfOk};
ghost use Rattle.gram_form.specs.Plain.{plain_production};
ghost use Rattle.gram_form.specs.Grammars.{HaveDistinctNames};
ghost use Rattle.gram_form.specs.GrammarErrors.{AreFew};

use crate::counting::{count, count_of};
use acg_base::Memory;
use bumpalo::Bump;
use bumpalo::collections::into_bump_slice;
use chart_parse::Chart;
use chart_parse::filling::chart;
use gram_form::{Grammar, Part, Production};
use source_lex::scan;
use std::alloc::Global;
use std::test::Fail;
use tree_pick::{TreeError, pick};

// The next number of a fixed row of numbers, each below the bound.
fn next(state: &mut u64, below: u64) -> u64 {
    *state = state
        .wrapping_mul(6364136223846793005)
        .wrapping_add(1442695040888963407);
    let number = *state >> 33;
    if below == 0 { 0 } else { number % below }
}

fn part<'a>(state: &mut u64) -> Part<'a> {
    match next(state, 5) {
        0 => Part::Literal(b"x"),
        1 => Part::Literal(b"y"),
        2 => Part::Nonterm(b"A"),
        3 => Part::Nonterm(b"B"),
        _ => Part::Nonterm(b"C"),
    }
}

// How many parts the next alternative has.
fn next_count(state: &mut u64) -> u64 {
    match next(state, 6) {
        0 => 0,
        1 | 2 => 1,
        3 | 4 => 2,
        _ => 3,
    }
}

// The parts of an alternative, which are at most three.
fn parts<'a>(arena: &'a Bump, state: &mut u64) -> Result<&'a [Part<'a>], Fail>
    ensures { IfOk result (λ r. length r.now < 10) }
{
    let mut list = Vec::new(arena);
    for _ in 0..next_count(state) {
        list.push(part(state))?;
    }
    if list.len() >= 10 {
        return Err("too many parts")?;
    }
    Ok(into_bump_slice(list))
}

// As many letters as wanted.
fn letters(alloc: Global, state: &mut u64, wanted: u64) -> Result<Vec<u8>, Fail> {
    let mut list = Vec::new(alloc);
    for _ in 0..wanted {
        list.push(if next(state, 3) == 0 { b'y' } else { b'x' })?;
    }
    Ok(list)
}

// The letters with a blank behind each.
fn spaced(alloc: Global, letters: &[u8]) -> Result<Vec<u8>, Fail> {
    let mut source = Vec::new(alloc);
    for letter in letters {
        source.push(*letter)?;
        source.push(b' ')?;
    }
    Ok(source)
}

// Whether the chart has of the nonterminal from the start exactly what was counted.
fn has_counted(
    alloc: Global,
    chart: &Chart<'_>,
    table: &[u8],
    nonterminal: u32,
    start: u32,
) -> Result<bool, Fail> {
    if start > chart.count() {
        return Ok(true);
    }
    let ends = chart.ends(alloc, nonterminal, start)?;
    for j in 0..128 {
        if j <= chart.count() {
            let counted = count_of(table, nonterminal, start, j) != 0;
            if chart.has(nonterminal, start, j) != counted || ends.contains(&j) != counted {
                return Ok(false);
            }
        }
    }
    Ok(true)
}

// Whether the chart has exactly what was counted.
fn has_all_counted(alloc: Global, chart: &Chart<'_>, table: &[u8]) -> Result<bool, Fail> {
    for nonterminal in 0..3 {
        for start in 0..128 {
            if !has_counted(alloc, chart, table, nonterminal, start)? {
                return Ok(false);
            }
        }
    }
    Ok(true)
}

// Whether the chart and the pick of the letters are as counted.
fn agrees(alloc: Global, list: &[Production<'_>], letters: &[u8]) -> Result<bool, Fail>
    requires distinct { HaveDistinctNames (map plain_production list.now) }
    requires few { AreFew (map plain_production list.now) }
{
    let arena = Bump::new(alloc);
    let grammar = Grammar::build(alloc, &arena, list)?;
    let source = spaced(alloc, letters)?;
    if grammar.literals.len() >= 100 || source.len() >= 10000 {
        return Err(Memory)?;
    }
    let lexemes = scan(alloc, &arena, &grammar, &source)?;
    let chart = chart(alloc, &arena, &grammar, &lexemes)?;
    let table = count(alloc, list, letters)?;
    if !has_all_counted(alloc, &chart, &table)? {
        return Ok(false);
    }
    let trees = count_of(&table, 0, 0, chart.count());
    match pick(alloc, &arena, &grammar, &lexemes, &chart) {
        Ok(_) => Ok(trees == 1),
        Err(TreeError::NoTree) => Ok(trees == 0),
        Err(TreeError::Ambiguous) => Ok(trees == 2),
        Err(TreeError::Memory) => Err(Memory)?,
    }
}

// Whether a grammar that is made of the next numbers agrees on that many letters.
fn next_agrees<'a>(
    alloc: Global,
    arena: &'a Bump,
    state: &mut u64,
    wanted: u64,
) -> Result<bool, Fail> {
    let first = [
        parts(arena, state)?,
        parts(arena, state)?,
        parts(arena, state)?,
    ];
    let second = [parts(arena, state)?, parts(arena, state)?];
    let third = [parts(arena, state)?, parts(arena, state)?];
    let list = [
        Production {
            name: b"A",
            alternatives: arena.try_alloc_slice_copy(&first)?,
        },
        Production {
            name: b"B",
            alternatives: arena.try_alloc_slice_copy(&second)?,
        },
        Production {
            name: b"C",
            alternatives: arena.try_alloc_slice_copy(&third)?,
        },
    ];
    let letters = letters(alloc, state, wanted)?;
    agrees(alloc, &list, &letters)
}

#[test]
fn two_hundred_grammars_agree(rt: HostRuntime) -> Result<(), Fail> {
    let mut state = 20261202;
    for grammar in 0..200u64 {
        let arena = Bump::new(rt.alloc());
        assert!(rt; next_agrees(rt.alloc(), &arena, &mut state, grammar % 9)?);
    }
    Ok(())
}

#[test]
fn sources_of_more_than_a_word_of_places_agree(rt: HostRuntime) -> Result<(), Fail> {
    let mut state = 64;
    for grammar in 0..8u64 {
        let arena = Bump::new(rt.alloc());
        assert!(rt; next_agrees(rt.alloc(), &arena, &mut state, 62 + grammar)?);
    }
    Ok(())
}
