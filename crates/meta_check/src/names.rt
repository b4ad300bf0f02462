//! The rules on names: of nonterminals and of functions.
ghost use Rattle.std.specs.Prelude.{◌≡◌, ◌∷◌, ◌++◌, [], map, take, option_map, IfOk, OnOk};
ghost use Rattle.std.specs.List.{list_any};
ghost use Rattle.std.specs.Option.{option_to_list};
ghost use Rattle.gram_form.specs.Grammars.{HaveSame, is_undefined};
ghost use Rattle.gram_form.specs.Plain.{plain_part, texts};
ghost use Rattle.meta_terms.specs.Nodes.{label_of};
ghost use Rattle.meta_terms.specs.PlainItems.{plain_item};
ghost use Rattle.meta_check.specs.MetaErrors.{FindsBreach};
ghost use Rattle.meta_check.specs.Rules.{repeats_name, names_no_production, names_no_function, repeats_function, starts_elsewhere};
ghost use Rattle.meta_check.specs.Views.{is_in, nonterminals_of, functions_of, names_outside, repeats_production, repeats_declaration, applies_outside, calls_outside};

use gram_form::Part;
use meta_terms::{Item, PatternPart, TemplateNode};
use std::alloc::{AllocError, Global};
use std::collections::BTreeSet;

// Notes the name of a production.
fn note_nonterminal<'t>(names: &mut BTreeSet<&'t [u8]>, item: &Item<'t>) -> Result<(), AllocError>
    ensures { let name = nonterminals_of (plain_item item.now ∷ []) in
        OnOk result (HaveSame (texts names.new.keys) (texts names.old.keys ++ name)) }
{
    match *item {
        Item::Production(production) => {
            names.insert(production.name)?;
        }
        Item::Declaration(_) | Item::Equation(_) => {}
    }
    Ok(())
}

// Notes the function of a declaration.
fn note_function<'t>(names: &mut BTreeSet<&'t [u8]>, item: &Item<'t>) -> Result<(), AllocError>
    ensures { let name = functions_of (plain_item item.now ∷ []) in
        OnOk result (HaveSame (texts names.new.keys) (texts names.old.keys ++ name)) }
{
    match *item {
        Item::Declaration(declaration) => {
            names.insert(declaration.function)?;
        }
        Item::Production(_) | Item::Equation(_) => {}
    }
    Ok(())
}

// Tells whether an item is a production with one of the names.
fn repeats_production<'t>(item: &Item<'t>, names: &BTreeSet<&'t [u8]>) -> bool
    ensures { result ≡ repeats_production (texts names.now.keys) (plain_item item.now) }
{
    match *item {
        Item::Production(production) => names.contains(&production.name),
        Item::Declaration(_) | Item::Equation(_) => false,
    }
}

// Tells whether an item is a declaration of one of the functions.
fn repeats_declaration<'t>(item: &Item<'t>, names: &BTreeSet<&'t [u8]>) -> bool
    ensures { result ≡ repeats_declaration (texts names.now.keys) (plain_item item.now) }
{
    match *item {
        Item::Declaration(declaration) => names.contains(&declaration.function),
        Item::Production(_) | Item::Equation(_) => false,
    }
}

/// The first production with the name of an earlier one.
pub fn repeated_name(alloc: Global, items: &[Item<'_>]) -> Result<Option<usize>, AllocError>
    ensures { IfOk result (λ o. FindsBreach repeats_name (map plain_item items.now) o) }
{
    let mut names = BTreeSet::new(alloc);
    for (number, item) in items.iter().enumerate() {
        if repeats_production(item, &names) {
            return Ok(Some(number));
        }
        note_nonterminal(&mut names, item)?;
    }
    Ok(None)
}

/// The first declaration with the function of an earlier one.
pub fn repeated_function(alloc: Global, items: &[Item<'_>]) -> Result<Option<usize>, AllocError>
    ensures { IfOk result (λ o. FindsBreach repeats_function (map plain_item items.now) o) }
{
    let mut names = BTreeSet::new(alloc);
    for (number, item) in items.iter().enumerate() {
        if repeats_declaration(item, &names) {
            return Ok(Some(number));
        }
        note_function(&mut names, item)?;
    }
    Ok(None)
}

// The nonterminals with a production.
fn nonterminals<'t>(alloc: Global, items: &[Item<'t>]) -> Result<BTreeSet<&'t [u8]>, AllocError>
    ensures { let names = nonterminals_of (map plain_item items.now) in
        IfOk result (λ s. HaveSame (texts s.keys) names) }
{
    let mut names = BTreeSet::new(alloc);
    for item in items {
        note_nonterminal(&mut names, item)?;
    }
    Ok(names)
}

// The functions that are declared.
fn functions<'t>(alloc: Global, items: &[Item<'t>]) -> Result<BTreeSet<&'t [u8]>, AllocError>
    ensures { let names = functions_of (map plain_item items.now) in
        IfOk result (λ s. HaveSame (texts s.keys) names) }
{
    let mut names = BTreeSet::new(alloc);
    for item in items {
        note_function(&mut names, item)?;
    }
    Ok(names)
}

// Tells whether a part is a nonterminal that isn't among the names.
fn is_undefined<'t>(part: &Part<'t>, names: &BTreeSet<&'t [u8]>) -> bool
    ensures { result ≡ is_undefined (texts names.now.keys) (plain_part part.now) }
{
    match *part {
        Part::Nonterm(name) => !names.contains(&name),
        Part::Literal(_) | Part::Identifier | Part::Numeral => false,
    }
}

// Tells whether one of the parts is such a nonterminal.
fn parts_outside<'t>(parts: &[Part<'t>], names: &BTreeSet<&'t [u8]>) -> bool
    ensures { let keys = texts names.now.keys in
        result ≡ list_any (λ p. is_undefined keys (plain_part p)) parts.now }
{
    for part in parts {
        if is_undefined(part, names) {
            return true;
        }
    }
    false
}

// Tells whether one of the alternatives has such a part.
fn alternatives_outside<'t>(alternatives: &[&[Part<'t>]], names: &BTreeSet<&'t [u8]>) -> bool
    ensures { let keys = texts names.now.keys in
        result ≡ list_any (λ a. list_any (λ p. is_undefined keys (plain_part p)) a.now)
        alternatives.now }
{
    for parts in alternatives {
        if parts_outside(parts, names) {
            return true;
        }
    }
    false
}

// Tells whether a pattern has such a part.
fn pattern_outside<'t>(pattern: &[PatternPart<'t>], names: &BTreeSet<&'t [u8]>) -> bool
    ensures { let keys = texts names.now.keys in
        result ≡ list_any (λ p. is_undefined keys (plain_part p.part)) pattern.now }
{
    for part in pattern {
        if is_undefined(&part.part, names) {
            return true;
        }
    }
    false
}

// Tells whether an item names a nonterminal that isn't among the names.
fn names_outside<'t>(item: &Item<'t>, names: &BTreeSet<&'t [u8]>) -> bool
    ensures { result ≡ names_outside (texts names.now.keys) (plain_item item.now) }
{
    match *item {
        Item::Production(production) => alternatives_outside(production.alternatives, names),
        Item::Declaration(declaration) => !names.contains(&declaration.nonterminal),
        Item::Equation(equation) => pattern_outside(equation.pattern, names),
    }
}

/// The first item that names a nonterminal without a production.
pub fn undefined_name(alloc: Global, items: &[Item<'_>]) -> Result<Option<usize>, AllocError>
    ensures { IfOk result (λ o. FindsBreach names_no_production (map plain_item items.now) o) }
{
    let names = nonterminals(alloc, items)?;
    for (number, item) in items.iter().enumerate() {
        if names_outside(item, &names) {
            return Ok(Some(number));
        }
    }
    Ok(None)
}

// Tells whether a node of a template applies a function that isn't among the names.
fn applies_outside<'t>(node: &TemplateNode<'t>, names: &BTreeSet<&'t [u8]>) -> bool
    ensures { result ≡ applies_outside (texts names.now.keys) (label_of node.now) }
{
    match *node {
        TemplateNode::Apply { function, .. } => !names.contains(&function),
        _ => false,
    }
}

// Tells whether one of the nodes does.
fn nodes_outside<'t>(nodes: &[TemplateNode<'t>], names: &BTreeSet<&'t [u8]>) -> bool
    ensures { let keys = texts names.now.keys in
        result ≡ list_any (λ n. applies_outside keys (label_of n)) nodes.now }
{
    for node in nodes {
        if applies_outside(node, names) {
            return true;
        }
    }
    false
}

// Tells whether an item is an equation that names a function which isn't among the names.
fn calls_outside<'t>(item: &Item<'t>, names: &BTreeSet<&'t [u8]>) -> bool
    ensures { result ≡ calls_outside (texts names.now.keys) (plain_item item.now) }
{
    match *item {
        Item::Equation(equation) => {
            let undeclared = !names.contains(&equation.function);
            undeclared || nodes_outside(equation.action.list, names)
        }
        Item::Production(_) | Item::Declaration(_) => false,
    }
}

/// The first equation that names a function which isn't declared.
pub fn undeclared_function(alloc: Global, items: &[Item<'_>]) -> Result<Option<usize>, AllocError>
    ensures { IfOk result (λ o. FindsBreach names_no_function (map plain_item items.now) o) }
{
    let names = functions(alloc, items)?;
    for (number, item) in items.iter().enumerate() {
        if calls_outside(item, &names) {
            return Ok(Some(number));
        }
    }
    Ok(None)
}

// The name of the first production.
fn start<'t>(items: &[Item<'t>]) -> Option<&'t [u8]>
    ensures { let first = take 1 (nonterminals_of (map plain_item items.now)) in
        option_to_list (option_map (λ name. name.now) result) ≡ first }
{
    for item in items {
        if let Item::Production(production) = *item {
            return Some(production.name);
        }
    }
    None
}

// Tells whether a nonterminal is the start.
fn is_start(nonterminal: &[u8], start: Option<&[u8]>) -> bool
    ensures { let names = option_to_list (option_map (λ name. name.now) start.entry) in
        result ≡ is_in names nonterminal.now }
{
    match start {
        Some(name) => nonterminal == name,
        None => false,
    }
}

/// The first declaration, where it isn't for the name of the first production.
pub fn misplaced_start(items: &[Item<'_>]) -> Option<usize>
    ensures { FindsBreach starts_elsewhere (map plain_item items.now) result }
{
    let start = start(items);
    for (number, item) in items.iter().enumerate() {
        if let Item::Declaration(declaration) = *item {
            if is_start(declaration.nonterminal, start) {
                return None;
            }
            return Some(number);
        }
    }
    None
}
