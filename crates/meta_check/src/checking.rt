//! Checking the items of a description.
ghost use Rattle.std.specs.Prelude.{◌≡◌, ◌<◌, ◌+◌, length, map, IfOk, IfErr};
ghost use Rattle.meta_terms.specs.PlainItems.{plain_item};
ghost use Rattle.gram_form.specs.GrammarErrors.{AreFew};
ghost use Rattle.meta_check.specs.Views.{productions_of, declarations_of, equations_of};
ghost use Rattle.meta_check.specs.MetaErrors.{IsMetaError};
ghost use Rattle.meta_check.specs.Checked.{IsDescriptionOf};
ghost use Rattle.meta_check.specs.Rules.{Holds, IsWellFormed, names_no_production, repeats_name};
ghost use Rattle.gram_form.specs.Grammars.{IsGrammar};

use crate::breaches::first_breach;
use crate::description::Description;
use crate::errors::MetaError;
use crate::kinds::{declarations, equations, productions};
use bumpalo::Bump;
use gram_form::{GramError, Grammar};
use meta_terms::{Declaration, Equation, Item, Items};
use std::alloc::{AllocError, Global};

// The grammar of the productions among items that meet the rules on their names.
fn grammar_of<'a>(
    alloc: Global,
    arena: &'a Bump,
    items: &[Item<'_>],
) -> Result<Grammar<'a>, AllocError>
    requires distinct { Holds repeats_name (map plain_item items.now) }
    requires defined { Holds names_no_production (map plain_item items.now) }
    requires some { 0 < length (productions_of (map plain_item items.now)) }
    requires numbered { AreFew (productions_of (map plain_item items.now)) }
    ensures grammar { IfOk result (λ g. IsGrammar g) }
    ensures productions { let all = productions_of (map plain_item items.now) in
        IfOk result (λ g. g.productions ≡ all) }
{
    let productions = productions(alloc, items)?;
    match Grammar::build(alloc, arena, productions.as_slice()) {
        Ok(grammar) => Ok(grammar),
        Err(GramError::Memory) => Err(AllocError),
        Err(GramError::Undefined { .. }) => unreachable!(),
        Err(GramError::Empty) => unreachable!(),
    }
}

/// Checks the items of a description, which have at least one production, and at least one
/// declaration or equation. What the description has lies in the arena.
///
/// Unless `MetaError::Memory` is answered, where no memory is left, `MetaError::Rule` comes exactly
/// where a rule is broken, with the first one and the first item that breaks it.
pub fn check<'a>(
    alloc: Global,
    arena: &'a Bump,
    items: Items<'a>,
) -> Result<Description<'a>, MetaError>
    requires few { length items < 4294967295 }
    requires numbered { AreFew (productions_of items) }
    requires productions { 0 < length (productions_of items) }
    requires rules { 0 < length (declarations_of items) + length (equations_of items) }
    ensures well_formed { IfOk result (λ d. IsWellFormed items.entry) }
    ensures grammar { IfOk result (λ d. IsGrammar d.grammar) }
    ensures kept { IfOk result (λ d. IsDescriptionOf items.entry d) }
    ensures error { IfErr result (λ e. IsMetaError items.entry e) }
{
    let list = items.list;
    if let Some(breach) = first_breach(alloc, arena, list)? {
        return Err(MetaError::Rule {
            rule: breach.rule,
            item: breach.item as u32,
        });
    }
    let grammar = grammar_of(alloc, arena, list)?;
    let declarations = declarations(alloc, list)?;
    let equations = equations(alloc, list)?;
    let functions: &'a [Declaration<'a>] = arena.try_alloc_slice_copy(declarations.as_slice())?;
    let equations: &'a [Equation<'a>] = arena.try_alloc_slice_copy(equations.as_slice())?;
    Ok(Description {
        grammar,
        functions,
        equations,
    })
}
