//! What stands for a node of a template: a node, or the meaning of a part.
ghost use Rattle.std.specs.Prelude.{◌≡◌, List, ℕ, option_map, IfOk, IfErr, IfSome};
ghost use Rattle.std.specs.List.{list_any};
ghost use Rattle.std.specs.Option.{option_to_list};
ghost use Rattle.std.specs.Str.{bytes_eq};
ghost use Rattle.action_terms.specs.Labels.{Label, ActionNode, YielderNode};
ghost use Rattle.gram_form.specs.declared.tree.Tree.{Tree};
ghost use Rattle.meta_terms.specs.PlainItems.{plain_pattern_part};
ghost use Rattle.source_lex.specs.Lexemes.{plain_lexeme};
ghost use Rattle.equation_expand.specs.Meaning.{named, valued, applied};
ghost use Rattle.equation_expand.specs.Seen.{seen_part, part_by, node_meaning, named_as, IsGapError, IsFilled};
ghost use Rattle.equation_expand.specs.PlainSources.{plain_source};
ghost use Rattle.equation_expand.specs.Frames.{IsPartOf, IsUnder};
ghost use Rattle.equation_expand.specs.Sources.{PlainSource};

use crate::errors::ExpandError;
use crate::source::Source;
use acg_base::read_decimal;
use action_terms::YKind;
use action_terms::pushed::{NewAction, NewYielder, Pushed};
use gram_form::{Tree, TreePart};
use meta_terms::{Equation, PatternPart, TemplateNode};
use source_lex::{LexKind, Lexeme};

/// What stands for a node of a template.
#[derive(Clone, Copy)]
pub enum Filled<'t> {
    /// A node.
    Node(Pushed<'t>),
    /// The meaning of a phrase by a function.
    Meaning(&'t [u8], &'t Tree<'t>),
}

/// Whether a part of a pattern has a variable.
fn has_variable(part: &PatternPart<'_>, variable: &[u8]) -> bool
    ensures { result ≡ list_any (bytes_eq variable.now)
        (option_to_list (plain_pattern_part part.now).variable) }
{
    match part.variable {
        Some(own) => *variable == *own,
        None => false,
    }
}

/// The part for which a variable of an equation's pattern stands.
fn part_for<'t>(equation: &Equation<'t>, tree: &Tree<'t>, variable: &[u8]) -> Option<TreePart<'t>>
    ensures part { (s : PlainSource) → option_map (seen_part s) result
        ≡ part_by s equation.now tree.now variable.now }
    ensures of { IfSome result (IsPartOf tree.now) }
{
    for place in 0..equation.pattern.len() {
        if has_variable(&equation.pattern[place], variable) {
            return tree.parts.get(place).copied();
        }
    }
    None
}

/// The bytes of an identifier.
fn name_of<'t>(lexeme: Option<Lexeme<'t>>) -> Option<&'t [u8]>
    ensures { (node : List ℕ → Label) → named (option_map plain_lexeme lexeme.entry) node
        ≡ named_as result node }
{
    let lexeme = lexeme?;
    match lexeme.kind {
        LexKind::Identifier => Some(lexeme.bytes),
        LexKind::Literal(_) | LexKind::Numeral => None,
    }
}

/// An action node with a token, where there is one.
fn action_named<'t>(node: NewAction<'t>, name: Option<&'t [u8]>) -> Option<Filled<'t>>
    ensures filled { (s : PlainSource) → IsFilled s (named_as name.entry
        (λ bytes. ActionNode node.entry.kind node.entry.items bytes)) result }
    ensures under { (t : Tree) → IfSome result (IsUnder t) }
{
    Some(Filled::Node(Pushed::Action(NewAction {
        kind: node.kind,
        items: node.items,
        token: name?,
    })))
}

/// A yielder with a token, where there is one.
fn yielder_named<'t>(node: NewYielder<'t>, name: Option<&'t [u8]>) -> Option<Filled<'t>>
    ensures filled { (s : PlainSource) →
        IsFilled s (named_as name.entry (λ bytes. YielderNode node.entry.kind bytes)) result }
    ensures under { (t : Tree) → IfSome result (IsUnder t) }
{
    Some(Filled::Node(Pushed::Yielder(NewYielder {
        kind: node.kind,
        token: name?,
    })))
}

/// The yielder of the value of a numeral.
fn value_of<'t>(lexeme: Option<Lexeme<'t>>) -> Result<Option<Filled<'t>>, ExpandError>
    ensures filled { (s : PlainSource) →
        IfOk result (IsFilled s (valued (option_map plain_lexeme lexeme.entry))) }
    ensures large { IfErr result (IsGapError (valued (option_map plain_lexeme lexeme.entry))) }
    ensures under { (t : Tree) → IfOk result (λ o. IfSome o (IsUnder t)) }
{
    let Some(lexeme) = lexeme else {
        return Ok(None);
    };
    match lexeme.kind {
        LexKind::Numeral => match read_decimal(lexeme.bytes) {
            Some(value) => {
                let kind = YKind::Number(value);
                let node = Pushed::Yielder(NewYielder { kind, token: &[] });
                Ok(Some(Filled::Node(node)))
            }
            None => Err(ExpandError::BigNumeral {
                offset: lexeme.offset,
            }),
        },
        LexKind::Literal(_) | LexKind::Identifier => Ok(None),
    }
}

/// The meaning of a part by a function.
fn meaning_of<'t>(function: &'t [u8], part: Option<TreePart<'t>>) -> Option<Filled<'t>>
    ensures filled { (s : PlainSource) →
        IsFilled s (applied (option_map (seen_part s) part.entry) function.now) result }
    ensures under { (t : Tree) → IfSome part.entry (IsPartOf t) → IfSome result (IsUnder t) }
{
    match part? {
        TreePart::Sub(tree) => Some(Filled::Meaning(function, tree)),
        TreePart::Word(_) => None,
    }
}

/// What stands for a node of an equation's template, where the equation is for the phrase. Nothing
/// may stand for a node whose variable has another part than the node asks for.
/// `ExpandError::BigNumeral` comes for a numeral whose value passes 64 signed bits.
pub fn stands_for<'t>(
    source: &Source<'t>,
    equation: &Equation<'t>,
    tree: &Tree<'t>,
    node: &TemplateNode<'t>,
) -> Result<Option<Filled<'t>>, ExpandError>
    ensures filled { let s = plain_source source.now in
        IfOk result (IsFilled s (node_meaning s equation.now tree.now node.now)) }
    ensures large { let s = plain_source source.now in
        IfErr result (IsGapError (node_meaning s equation.now tree.now node.now)) }
    ensures under { IfOk result (λ o. IfSome o (IsUnder tree.now)) }
{
    match *node {
        TemplateNode::Action(new) => Ok(Some(Filled::Node(Pushed::Action(new)))),
        TemplateNode::Yielder(new) => Ok(Some(Filled::Node(Pushed::Yielder(new)))),
        TemplateNode::ActionTokenOf { node, variable } => {
            let name = name_of(source.lexeme(part_for(equation, tree, variable)));
            Ok(action_named(node, name))
        }
        TemplateNode::YielderTokenOf { node, variable } => {
            let name = name_of(source.lexeme(part_for(equation, tree, variable)));
            Ok(yielder_named(node, name))
        }
        TemplateNode::ValueOf { variable } => {
            value_of(source.lexeme(part_for(equation, tree, variable)))
        }
        TemplateNode::Apply { function, variable } => {
            Ok(meaning_of(function, part_for(equation, tree, variable)))
        }
    }
}
