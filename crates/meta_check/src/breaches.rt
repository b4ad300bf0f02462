//! The first rule that items break.
ghost use Rattle.std.specs.Prelude.{◌≡◌, None, Some, map, IfOk, MatchOption};
ghost use Rattle.meta_terms.specs.PlainItems.{plain_item};
ghost use Rattle.meta_check.specs.Rules.{HoldBelow, IsFirstBroken};

use crate::categories::misused_part;
use crate::equations::{
    alternatives_of_numbers, nonterminals_of_functions, repeated_equation, strange_pattern,
};
use crate::kinds::productions;
use crate::names::{
    misplaced_start, repeated_function, repeated_name, undeclared_function, undefined_name,
};
use crate::numbers::Numbers;
use crate::templates::misused_variable;
use bumpalo::Bump;
use meta_terms::Item;
use std::alloc::{AllocError, Global};

/// A rule that is broken: its number, from 1, and that of the item, from 0.
#[derive(Clone, Copy)]
pub struct Breach {
    pub rule: u8,
    pub item: usize,
}

// The breach of a rule, where an item was found.
fn numbered(rule: u8, found: Option<usize>) -> Option<Breach>
    ensures { MatchOption result (found ≡ None) (λ b. (b.rule ≡ rule) × (found ≡ Some b.item)) }
{
    match found {
        Some(item) => Some(Breach { rule, item }),
        None => None,
    }
}

// The first of the rules on names that is broken, but that on the start.
fn first_of_names(alloc: Global, items: &[Item<'_>]) -> Result<Option<Breach>, AllocError>
    ensures { let all = map plain_item items.now in
        IfOk result (λ o. MatchOption o (HoldBelow all 4) (λ b. IsFirstBroken all b.rule b.item)) }
{
    if let Some(item) = repeated_name(alloc, items)? {
        return Ok(Some(Breach { rule: 1, item }));
    }
    if let Some(item) = undefined_name(alloc, items)? {
        return Ok(Some(Breach { rule: 2, item }));
    }
    if let Some(item) = undeclared_function(alloc, items)? {
        return Ok(Some(Breach { rule: 3, item }));
    }
    Ok(numbered(4, repeated_function(alloc, items)?))
}

// The first of the rules on equations that is broken.
fn first_of_equations<'t>(
    alloc: Global,
    arena: &'t Bump,
    items: &[Item<'t>],
) -> Result<Option<Breach>, AllocError>
    requires { HoldBelow (map plain_item items.now) 4 }
    ensures { let all = map plain_item items.now in
        IfOk result (λ o. MatchOption o (HoldBelow all 8) (λ b. IsFirstBroken all b.rule b.item)) }
{
    let productions = productions(alloc, items)?;
    let numbers = Numbers::of(alloc, productions.as_slice())?;
    let functions = nonterminals_of_functions(alloc, items, &numbers)?;
    let alternatives = alternatives_of_numbers(alloc, productions.as_slice())?;
    if let Some(item) = strange_pattern(arena, items, &functions, &alternatives)? {
        return Ok(Some(Breach { rule: 5, item }));
    }
    if let Some(item) = repeated_equation(alloc, arena, items, &functions, &alternatives)? {
        return Ok(Some(Breach { rule: 6, item }));
    }
    if let Some(item) = misused_variable(alloc, items)? {
        return Ok(Some(Breach { rule: 7, item }));
    }
    Ok(numbered(8, misused_part(alloc, items, &functions, &numbers)?))
}

/// The first rule that is broken, and its first item. Patterns are copied into the arena.
pub fn first_breach<'t>(
    alloc: Global,
    arena: &'t Bump,
    items: &[Item<'t>],
) -> Result<Option<Breach>, AllocError>
    ensures { let all = map plain_item items.now in
        IfOk result (λ o. MatchOption o (HoldBelow all 9) (λ b. IsFirstBroken all b.rule b.item)) }
{
    if let Some(found) = first_of_names(alloc, items)? {
        return Ok(Some(found));
    }
    if let Some(found) = first_of_equations(alloc, arena, items)? {
        return Ok(Some(found));
    }
    Ok(numbered(9, misplaced_start(items)))
}
