//! The rules on equations: which alternative each is for, and that no two are for one.
ghost use Rattle.std.specs.Prelude.{◌≡◌, ℕ, List, map, IfOk, OnOk};
ghost use Rattle.std.specs.Option.{option_or};
ghost use Rattle.gram_form.specs.Plain.{PlainPart, plain_alternative, plain_part, plain_production};
ghost use Rattle.meta_terms.specs.PlainItems.{plain_equation, plain_item, plain_pattern_part};
ghost use Rattle.meta_check.specs.MetaErrors.{FindsBreach};
ghost use Rattle.meta_check.specs.Rules.{equals_no_alternative, repeats_equation};
ghost use Rattle.meta_check.specs.Tables.{AreNonterminals, AreAlternatives, TellAlternatives, alternative_by, number_by, number_for, number_in};
ghost use Rattle.meta_check.specs.Views.{declarations_of, parts_of_pattern};

use crate::numbers::Numbers;
use bumpalo::Bump;
use bumpalo::collections::into_bump_slice;
use gram_form::{Part, Production};
use meta_terms::{Equation, Item, PatternPart};
use std::alloc::{AllocError, Global};
use std::collections::{BTreeMap, BTreeSet};

/// The functions with the numbers of their nonterminals.
pub fn nonterminals_of_functions<'t>(
    alloc: Global,
    items: &[Item<'t>],
    numbers: &Numbers<'t>,
) -> Result<BTreeMap<&'t [u8], usize>, AllocError>
    ensures { let all = declarations_of (map plain_item items.now) in
        IfOk result (λ m. AreNonterminals (number_by numbers.now) all m.entries) }
{
    let mut functions = BTreeMap::new(alloc);
    for item in items {
        if let Item::Declaration(declaration) = *item {
            if !functions.contains_key(&declaration.function) {
                functions.insert(
                    declaration.function,
                    numbers.number(declaration.nonterminal),
                )?;
            }
        }
    }
    Ok(functions)
}

// Notes the alternatives of a nonterminal that aren't there.
fn note_alternatives<'t>(
    table: &mut BTreeMap<(usize, &'t [Part<'t>]), usize>,
    nonterminal: usize,
    alternatives: &[&'t [Part<'t>]],
) -> Result<(), AllocError>
    ensures { let list = map plain_alternative alternatives.now in
        let old = number_for table.old.entries in
        let new = number_for table.new.entries in
        OnOk result ((n : ℕ) → (parts : List PlainPart) →
        new n parts ≡ option_or (old n parts) (number_in nonterminal list n parts)) }
{
    for (number, parts) in alternatives.iter().enumerate() {
        let key = (nonterminal, *parts);
        if !table.contains_key(&key) {
            table.insert(key, number)?;
        }
    }
    Ok(())
}

/// The alternatives of nonterminals, each with the number of the first one that has its parts.
pub fn alternatives_of_numbers<'t>(
    alloc: Global,
    productions: &[Production<'t>],
) -> Result<BTreeMap<(usize, &'t [Part<'t>]), usize>, AllocError>
    ensures { let all = map plain_production productions.now in
        IfOk result (λ m. AreAlternatives all m.entries) }
{
    let mut table = BTreeMap::new(alloc);
    for (nonterminal, production) in productions.iter().enumerate() {
        note_alternatives(&mut table, nonterminal, production.alternatives)?;
    }
    Ok(table)
}

// The parts of a pattern.
fn parts_of<'t>(arena: &'t Bump, pattern: &[PatternPart<'t>]) -> Result<&'t [Part<'t>], AllocError>
    ensures { let all = parts_of_pattern (map plain_pattern_part pattern.now) in
        IfOk result (λ parts. map plain_part parts.now ≡ all) }
{
    let mut parts = Vec::with_capacity(arena, pattern.len())?;
    for part in pattern {
        parts.push(part.part)?;
    }
    Ok(into_bump_slice(parts))
}

/// The least alternative that a pattern equals.
pub fn alternative_of<'t>(
    arena: &'t Bump,
    equation: &Equation<'t>,
    functions: &BTreeMap<&'t [u8], usize>,
    alternatives: &BTreeMap<(usize, &'t [Part<'t>]), usize>,
) -> Result<Option<usize>, AllocError>
    ensures { let e = plain_equation equation.now in
        let found = alternative_by functions.now.entries alternatives.now.entries e in
        IfOk result (λ o. o ≡ found) }
{
    let Some(nonterminal) = functions.get(&equation.function) else {
        return Ok(None);
    };
    let key = (*nonterminal, parts_of(arena, equation.pattern)?);
    Ok(alternatives.get(&key).copied())
}

/// The first equation whose pattern equals no alternative of its function's nonterminal.
pub fn strange_pattern<'t>(
    arena: &'t Bump,
    items: &[Item<'t>],
    functions: &BTreeMap<&'t [u8], usize>,
    alternatives: &BTreeMap<(usize, &'t [Part<'t>]), usize>,
) -> Result<Option<usize>, AllocError>
    requires { let all = map plain_item items.now in
        TellAlternatives all functions.now.entries alternatives.now.entries }
    ensures { IfOk result (λ o. FindsBreach equals_no_alternative (map plain_item items.now) o) }
{
    for (number, item) in items.iter().enumerate() {
        if let Item::Equation(equation) = item {
            if alternative_of(arena, equation, functions, alternatives)?.is_none() {
                return Ok(Some(number));
            }
        }
    }
    Ok(None)
}

/// The first equation that is for the function and the alternative of an earlier one.
pub fn repeated_equation<'t>(
    alloc: Global,
    arena: &'t Bump,
    items: &[Item<'t>],
    functions: &BTreeMap<&'t [u8], usize>,
    alternatives: &BTreeMap<(usize, &'t [Part<'t>]), usize>,
) -> Result<Option<usize>, AllocError>
    requires { let all = map plain_item items.now in
        TellAlternatives all functions.now.entries alternatives.now.entries }
    ensures { IfOk result (λ o. FindsBreach repeats_equation (map plain_item items.now) o) }
{
    let mut seen = BTreeSet::new(alloc);
    for (number, item) in items.iter().enumerate() {
        if let Item::Equation(equation) = item {
            let found = alternative_of(arena, equation, functions, alternatives)?;
            if let Some(alternative) = found {
                if !seen.insert((equation.function, alternative))? {
                    return Ok(Some(number));
                }
            }
        }
    }
    Ok(None)
}
