//! For which alternative each equation of a description stands.
ghost use Rattle.std.specs.Prelude.{◌≡◌, map, IfOk};
ghost use Rattle.meta_terms.specs.PlainItems.{plain_declaration, plain_equation, plain_item};
ghost use Rattle.meta_check.specs.Checked.{items_of};
ghost use Rattle.meta_check.specs.Tables.{alternative_by};
ghost use Rattle.meta_check.specs.Views.{alternative_of, declarations_of};

use crate::description::Description;
use crate::equations::{alternative_of, alternatives_of_numbers, nonterminals_of_functions};
use crate::numbers::Numbers;
use bumpalo::Bump;
use gram_form::Part;
use meta_terms::{Declaration, Equation, Item};
use std::alloc::{AllocError, Global};
use std::collections::BTreeMap;

// Declarations as items.
fn as_items<'t>(
    alloc: Global,
    declarations: &[Declaration<'t>],
) -> Result<Vec<Item<'t>>, AllocError>
    ensures { let all = map plain_declaration declarations.now in
        IfOk result (λ v. declarations_of (map plain_item v.items) ≡ all) }
{
    let mut list = Vec::with_capacity(alloc, declarations.len())?;
    for declaration in declarations {
        list.push(Item::Declaration(*declaration))?;
    }
    Ok(list)
}

// The alternative of each equation, by the tables.
fn alternatives_by<'t>(
    alloc: Global,
    arena: &'t Bump,
    equations: &[Equation<'t>],
    functions: &BTreeMap<&'t [u8], usize>,
    alternatives: &BTreeMap<(usize, &'t [Part<'t>]), usize>,
) -> Result<Vec<Option<usize>>, AllocError>
    ensures { let found = alternative_by functions.now.entries alternatives.now.entries in
        IfOk result (λ v. v.items ≡ map (λ e. found (plain_equation e)) equations.now) }
{
    let mut list = Vec::with_capacity(alloc, equations.len())?;
    for equation in equations {
        list.push(alternative_of(arena, equation, functions, alternatives)?)?;
    }
    Ok(list)
}

/// The number, from 0, of the alternative for which each equation of a description stands, in the
/// order of the equations: of the alternatives of its function's nonterminal it is the first that
/// equals the pattern. Patterns are copied into the arena.
pub fn alternatives_of_equations<'t>(
    alloc: Global,
    arena: &'t Bump,
    description: &Description<'t>,
) -> Result<Vec<Option<usize>>, AllocError>
    ensures { let number = alternative_of (items_of description.now) in
        IfOk result (λ v. v.items ≡ map number description.now.equations) }
{
    let productions = description.grammar.productions;
    let numbers = Numbers::of(alloc, productions)?;
    let declarations = as_items(alloc, description.functions)?;
    let functions = nonterminals_of_functions(alloc, declarations.as_slice(), &numbers)?;
    let alternatives = alternatives_of_numbers(alloc, productions)?;
    alternatives_by(
        alloc,
        arena,
        description.equations,
        &functions,
        &alternatives,
    )
}
