//! Reading a text as the graph of an action.
ghost use Rattle.std.specs.Prelude.{◌≡◌, All, true, ℕ, ◌<◌, ◌≤◌, ◌∷◌, [], ◌++◌, length, map, IfOk, IfErr, OnOk, IsErrOf};
ghost use Rattle.meta_lex.specs.Tokens.{AreTokens, plain_token};
ghost use Rattle.action_terms.specs.Pushed.{label_of};
ghost use Rattle.meta_terms.specs.Templates.{as_label};
ghost use Rattle.meta_terms.specs.Nodes.{label_of as template_label};
ghost use Rattle.action_terms.specs.Trees.{IsWhole};
ghost use Rattle.action_terms.specs.Numbering.{node_limit};
ghost use Rattle.action_text.specs.TemplateText.{is_plain_label};
ghost use Rattle.action_text.specs.Answers.{IsReadAs, IsTextError, AreTextLabels, IsGraphOfLabels, IsStrayOf, offset_of};

use crate::errors::TextError;
use crate::preorder::preorder_of;
use crate::reading::{PlaceError, read_labels};
use action_terms::pushed::Pushed;
use action_terms::{Graph, GraphBuilder, GraphError};
use bumpalo::Bump;
use meta_lex::lex::{LexError, tokens};
use meta_lex::token::Token;
use meta_terms::TemplateNode;
use std::alloc::{AllocError, Global};

// Where the token at the place begins, or the size of the text where there is none.
fn offset_at(list: &[Token<'_>], place: usize, size: u32) -> u32
    ensures { result ≡ offset_of (map plain_token list.now) place size }
{
    if place < list.len() {
        list[place].offset
    } else {
        size
    }
}

// A node of an action, of the same node as one of a template.
fn action_node<'s>(node: TemplateNode<'s>) -> Pushed<'s>
    requires { is_plain_label (template_label node) ≡ true }
    ensures { as_label (label_of result) ≡ template_label node.entry }
{
    match node {
        TemplateNode::Action(new) => Pushed::Action(new),
        TemplateNode::Yielder(new) => Pushed::Yielder(new),
        TemplateNode::ActionTokenOf { .. } => unreachable!(),
        TemplateNode::YielderTokenOf { .. } => unreachable!(),
        TemplateNode::Apply { .. } => unreachable!(),
        TemplateNode::ValueOf { .. } => unreachable!(),
    }
}

// The nodes of an action, of its nodes as a template.
fn action_labels<'s>(
    alloc: Global,
    nodes: &[TemplateNode<'s>],
) -> Result<Vec<Pushed<'s>>, AllocError>
    requires { All (λ n. is_plain_label (template_label n) ≡ true) nodes.now }
    ensures { IfOk result
        (λ v. map (λ (n : _). as_label (label_of n)) v.items ≡ map template_label nodes.now) }
{
    let mut list = Vec::with_capacity(alloc, nodes.len())?;
    for node in nodes {
        list.push(action_node(*node))?;
    }
    Ok(list)
}

// The labels, in preorder, of the action of a text.
fn read_preorder<'s>(
    alloc: Global,
    scratch: &'s Bump,
    bytes: &[u8],
) -> Result<Vec<Pushed<'s>>, TextError>
    requires { length bytes.now < 4294967295 }
    ensures labels { IfOk result (λ v. AreTextLabels bytes.now (map label_of v.items)) }
    ensures error { IfErr result (λ e. IsTextError bytes.now e) }
{
    let read = match tokens(alloc, scratch, bytes) {
        Ok(read) => read,
        Err(LexError::Memory) => return Err(TextError::Memory),
        Err(LexError::BadByte { offset }) => return Err(TextError::BadByte { offset }),
    };
    let labels = match read_labels(alloc, read.list, false) {
        Ok(labels) => labels,
        Err(PlaceError::Memory) => return Err(TextError::Memory),
        Err(PlaceError::At(place)) => {
            let offset = offset_at(read.list, place, bytes.len() as u32);
            return Err(TextError::NotAction { offset });
        }
    };
    let ordered = preorder_of(alloc, labels.as_slice())?;
    Ok(action_labels(alloc, ordered.as_slice())?)
}

// Pushes one node.
fn push(builder: &mut GraphBuilder<'_>, label: Pushed<'_>) -> Result<(), GraphError>
    ensures pushed { OnOk result (builder.new ≡ builder.old ++ label_of label.entry ∷ []) }
    ensures room { OnOk result (length builder.old < node_limit) }
    ensures nodes { IsErrOf result GraphError.Nodes → node_limit ≤ length builder.old }
    ensures never_stray { (node : ℕ) → IsErrOf result (GraphError.StrayUnfold node) → ⊥ }
{
    match label {
        Pushed::Action(new) => builder.push_action(new)?,
        Pushed::Yielder(new) => builder.push_yielder(new)?,
    };
    Ok(())
}

// The graph of an action, of its labels in preorder.
fn build<'a>(alloc: Global, arena: &'a Bump, labels: &[Pushed<'_>]) -> Result<Graph<'a>, GraphError>
    requires { IsWhole (map label_of labels.now) }
    ensures graph { IfOk result (λ g. IsGraphOfLabels g (map label_of labels.now)) }
    ensures nodes { IsErrOf result GraphError.Nodes → node_limit < length labels.now }
    ensures stray { (node : ℕ) → IsErrOf result (GraphError.StrayUnfold node)
        → (length labels.now ≤ node_limit) × IsStrayOf node (map label_of labels.now) }
{
    let mut builder = match GraphBuilder::new(alloc, arena) {
        Ok(builder) => builder,
        Err(_) => return Err(GraphError::Memory),
    };
    for label in labels {
        push(&mut builder, *label)?;
    }
    builder.seal()
}

/// Reads a text as an action, and answers its graph, which lies in the arena.
///
/// The errors come in the order of `TextError`: a bad byte before a text that is no action text,
/// that before too many nodes, and those before a stray `unfold`. Want of memory may come at any time.
pub fn read_action<'a>(alloc: Global, arena: &'a Bump, bytes: &[u8]) -> Result<Graph<'a>, TextError>
    requires { length bytes.now < 4294967295 }
    ensures graph { IfOk result (λ g. IsReadAs bytes.now g) }
    ensures error { IfErr result (λ e. IsTextError bytes.now e) }
{
    let scratch = Bump::new(alloc);
    let labels = read_preorder(alloc, &scratch, bytes)?;
    match build(alloc, arena, labels.as_slice()) {
        Ok(graph) => Ok(graph),
        Err(GraphError::Memory) => Err(TextError::Memory),
        Err(GraphError::Nodes) => Err(TextError::Nodes),
        Err(GraphError::StrayUnfold { node }) => Err(TextError::StrayUnfold { node }),
    }
}
