//! The rules on the variables of a pattern, in the template of its equation.
ghost use Rattle.std.specs.Prelude.{◌≡◌, [], false, true, map, option_map, IfOk, MatchOption};
ghost use Rattle.std.specs.List.{list_any};
ghost use Rattle.gram_form.specs.Grammars.{HaveSame};
ghost use Rattle.gram_form.specs.Plain.{texts};
ghost use Rattle.meta_terms.specs.Nodes.{label_of};
ghost use Rattle.meta_terms.specs.PlainItems.{AnEquation, plain_equation, plain_item, plain_pattern_part};
ghost use Rattle.meta_check.specs.MetaErrors.{FindsBreach};
ghost use Rattle.meta_check.specs.Rules.{misuses_variable, repeats};
ghost use Rattle.meta_check.specs.Views.{used_by, uses_outside, variables_of};

use meta_terms::{Equation, Item, PatternPart, TemplateNode};
use std::alloc::{AllocError, Global};
use std::collections::BTreeSet;

// The variables of a pattern, or none where one is there twice.
fn distinct_variables<'t>(
    alloc: Global,
    pattern: &[PatternPart<'t>],
) -> Result<Option<BTreeSet<&'t [u8]>>, AllocError>
    ensures { let all = variables_of (map plain_pattern_part pattern.now) in
        IfOk result (λ o. MatchOption o (repeats all ≡ true) (λ s.
        (repeats all ≡ false) × HaveSame (texts s.keys) all)) }
{
    let mut variables = BTreeSet::new(alloc);
    for part in pattern {
        if let Some(variable) = part.variable {
            if !variables.insert(variable)? {
                return Ok(None);
            }
        }
    }
    Ok(Some(variables))
}

/// The variable that a node of a template uses.
pub fn used_variable<'t>(node: &TemplateNode<'t>) -> Option<&'t [u8]>
    ensures { option_map (λ v. v.now) result ≡ used_by (label_of node.now) }
{
    match *node {
        TemplateNode::ActionTokenOf { variable, .. }
        | TemplateNode::YielderTokenOf { variable, .. }
        | TemplateNode::Apply { variable, .. }
        | TemplateNode::ValueOf { variable } => Some(variable),
        TemplateNode::Action(_) | TemplateNode::Yielder(_) => None,
    }
}

// Tells whether a node of a template uses a variable that isn't among these.
fn uses_outside<'t>(node: &TemplateNode<'t>, variables: &BTreeSet<&'t [u8]>) -> bool
    ensures { result ≡ uses_outside (texts variables.now.keys) (label_of node.now) }
{
    match used_variable(node) {
        Some(variable) => !variables.contains(&variable),
        None => false,
    }
}

// Tells whether one of the nodes does.
fn nodes_outside<'t>(nodes: &[TemplateNode<'t>], variables: &BTreeSet<&'t [u8]>) -> bool
    ensures { let keys = texts variables.now.keys in
        result ≡ list_any (λ n. uses_outside keys (label_of n)) nodes.now }
{
    for node in nodes {
        if uses_outside(node, variables) {
            return true;
        }
    }
    false
}

// Tells whether an equation has a variable twice in its pattern, or one in its template alone.
fn misuses_variable(alloc: Global, equation: &Equation<'_>) -> Result<bool, AllocError>
    ensures { let e = plain_equation equation.now in
        IfOk result (λ b. b ≡ misuses_variable [] [] (AnEquation e)) }
{
    let Some(variables) = distinct_variables(alloc, equation.pattern)? else {
        return Ok(true);
    };
    Ok(nodes_outside(equation.action.list, &variables))
}

/// The first equation that has a variable twice in its pattern, or one in its template alone.
pub fn misused_variable(alloc: Global, items: &[Item<'_>]) -> Result<Option<usize>, AllocError>
    ensures { IfOk result (λ o. FindsBreach misuses_variable (map plain_item items.now) o) }
{
    for (number, item) in items.iter().enumerate() {
        if let Item::Equation(equation) = item {
            if misuses_variable(alloc, equation)? {
                return Ok(Some(number));
            }
        }
    }
    Ok(None)
}
