//! The rule on what the variables of a pattern stand for, in the template of its equation.
ghost use Rattle.std.specs.Prelude.{◌≡◌, ℕ, List, Some, not, map, option_map, IfOk};
ghost use Rattle.std.specs.List.{list_any};
ghost use Rattle.gram_form.specs.Grammars.{names_of};
ghost use Rattle.gram_form.specs.Plain.{plain_part};
ghost use Rattle.meta_terms.specs.Nodes.{label_of};
ghost use Rattle.meta_terms.specs.PlainItems.{plain_item, plain_pattern_part};
ghost use Rattle.meta_check.specs.MetaErrors.{FindsBreach};
ghost use Rattle.meta_check.specs.Rules.{Holds, names_no_production, misuses_part};
ghost use Rattle.meta_check.specs.Tables.{AreNonterminals, AreNumbers, category_in, category_of, number_by, number_of, stands_as, wanted_category, is_fit};
ghost use Rattle.meta_check.specs.Views.{declarations_of, part_for, productions_of};

use crate::numbers::Numbers;
use crate::templates::used_variable;
use gram_form::Part;
use meta_terms::{Item, PatternPart, TemplateNode};
use std::alloc::{AllocError, Global};
use std::collections::BTreeMap;

/// What a variable stands for. A phrase has the number of its nonterminal.
#[derive(Clone, Copy, PartialEq, Eq)]
pub enum Category {
    Literal,
    Phrase(usize),
    Identifier,
    Numeral,
}

// The category of a part.
fn category_of<'t>(part: &Part<'t>, numbers: &Numbers<'t>) -> Category
    ensures { result ≡ category_of (number_by numbers.now) (plain_part part.now) }
{
    match *part {
        Part::Literal(_) => Category::Literal,
        Part::Nonterm(name) => Category::Phrase(numbers.number(name)),
        Part::Identifier => Category::Identifier,
        Part::Numeral => Category::Numeral,
    }
}

// The category that a node of a template asks of its variable, where it can ask for one.
fn wanted_category<'t>(
    node: &TemplateNode<'t>,
    functions: &BTreeMap<&'t [u8], usize>,
) -> Option<Category>
    ensures { let nonterminal = number_of functions.now.entries in
        result ≡ wanted_category nonterminal (label_of node.now) }
{
    match *node {
        TemplateNode::Apply { function, .. } => match functions.get(&function) {
            Some(nonterminal) => Some(Category::Phrase(*nonterminal)),
            None => None,
        },
        TemplateNode::ValueOf { .. } => Some(Category::Numeral),
        TemplateNode::ActionTokenOf { .. } | TemplateNode::YielderTokenOf { .. } => {
            Some(Category::Identifier)
        }
        TemplateNode::Action(_) | TemplateNode::Yielder(_) => None,
    }
}

// Tells whether a category is another one than is wanted.
fn is_unfit(category: Category, wanted: Option<Category>) -> bool
    ensures { result ≡ not (stands_as wanted (Some category)) }
{
    match wanted {
        Some(wanted) => category != wanted,
        None => true,
    }
}

// Tells whether a node of a template uses a variable as another category than it stands for.
fn misuses_part<'t>(
    node: &TemplateNode<'t>,
    categories: &BTreeMap<&'t [u8], Category>,
    functions: &BTreeMap<&'t [u8], usize>,
) -> bool
    ensures { let nonterminal = number_of functions.now.entries in
        result ≡ not (is_fit nonterminal (category_in categories.now.entries) (label_of node.now)) }
{
    let Some(variable) = used_variable(node) else {
        return false;
    };
    match categories.get(&variable) {
        Some(category) => is_unfit(*category, wanted_category(node, functions)),
        None => false,
    }
}

// Tells whether one of the nodes does.
fn nodes_misuse<'t>(
    nodes: &[TemplateNode<'t>],
    categories: &BTreeMap<&'t [u8], Category>,
    functions: &BTreeMap<&'t [u8], usize>,
) -> bool
    ensures { let nonterminal = number_of functions.now.entries in
        let category = category_in categories.now.entries in
        result ≡ list_any (λ n. not (is_fit nonterminal category (label_of n))) nodes.now }
{
    for node in nodes {
        if misuses_part(node, categories, functions) {
            return true;
        }
    }
    false
}

// The categories of the variables of a pattern.
fn categories_of<'t>(
    alloc: Global,
    pattern: &[PatternPart<'t>],
    numbers: &Numbers<'t>,
) -> Result<BTreeMap<&'t [u8], Category>, AllocError>
    ensures { let part = part_for (map plain_pattern_part pattern.now) in
        let category = category_of (number_by numbers.now) in
        IfOk result (λ m. (v : List ℕ) → category_in m.entries v ≡ option_map category (part v)) }
{
    let mut categories = BTreeMap::new(alloc);
    for part in pattern {
        if let Some(variable) = part.variable {
            if !categories.contains_key(&variable) {
                categories.insert(variable, category_of(&part.part, numbers))?;
            }
        }
    }
    Ok(categories)
}

/// The first equation whose template uses a variable for another part than it stands for: `f V` for
/// a phrase of f's nonterminal, `value of V` for a numeral, `token of V` for an identifier.
pub fn misused_part<'t>(
    alloc: Global,
    items: &[Item<'t>],
    functions: &BTreeMap<&'t [u8], usize>,
    numbers: &Numbers<'t>,
) -> Result<Option<usize>, AllocError>
    requires defined { Holds names_no_production (map plain_item items.now) }
    requires numbers { let names = names_of (productions_of (map plain_item items.now)) in
        AreNumbers names (number_by numbers.now) }
    requires functions { let all = declarations_of (map plain_item items.now) in
        AreNonterminals (number_by numbers.now) all functions.now.entries }
    ensures { IfOk result (λ o. FindsBreach misuses_part (map plain_item items.now) o) }
{
    for (number, item) in items.iter().enumerate() {
        if let Item::Equation(equation) = *item {
            let categories = categories_of(alloc, equation.pattern, numbers)?;
            if nodes_misuse(equation.action.list, &categories, functions) {
                return Ok(Some(number));
            }
        }
    }
    Ok(None)
}
