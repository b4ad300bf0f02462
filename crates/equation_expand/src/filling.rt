//! The nodes of the action that a source means, pushed in the order of the text.
ghost use Rattle.std.specs.Prelude.{◌≡◌, Some, ◌≤◌, ◌<◌, ◌++◌, ◌∷◌, [], ℕ, length, Ok, IfOk, IfErr, OnOk, IsErrOf};
ghost use Rattle.action_terms.specs.Numbering.{node_limit};
ghost use Rattle.action_terms.specs.Pushed.{label_of};
ghost use Rattle.equation_expand.specs.Meaning.{joined};
ghost use Rattle.equation_expand.specs.Seen.{IsGapError};
ghost use Rattle.equation_expand.specs.Sources.{expansion_of};
ghost use Rattle.equation_expand.specs.PlainSources.{plain_source};
ghost use Rattle.equation_expand.specs.Frames.{HasNoGap, IsFillError, IsNext, IsPushError, left_of, rest_of};

use crate::errors::ExpandError;
use crate::filled::Filled;
use crate::frames::{Open, push_open};
use crate::source::Source;
use action_terms::pushed::Pushed;
use action_terms::{GraphBuilder, GraphError};
use bumpalo::Bump;
use gram_form::Tree;
use std::alloc::Global;

/// Pushes a node.
fn push(builder: &mut GraphBuilder<'_>, node: Pushed<'_>) -> Result<(), GraphError>
    ensures pushed { OnOk result (builder.new ≡ builder.old ++ label_of node.entry ∷ []) }
    ensures room { OnOk result (length builder.old < node_limit) }
    ensures nodes { IsErrOf result GraphError.Nodes → node_limit ≤ length builder.old }
    ensures never_stray { (node : ℕ) → IsErrOf result (GraphError.StrayUnfold node) → ⊥ }
{
    match node {
        Pushed::Action(new) => builder.push_action(new)?,
        Pushed::Yielder(new) => builder.push_yielder(new)?,
    };
    Ok(())
}

/// Pushes a node. `ExpandError::Nodes` comes where there are as many as may be.
fn push_node(builder: &mut GraphBuilder<'_>, node: Pushed<'_>) -> Result<(), ExpandError>
    ensures pushed { OnOk result (builder.new ≡ builder.old ++ label_of node.entry ∷ []) }
    ensures room { OnOk result (length builder.old < node_limit) }
    ensures full { IfErr result (IsPushError builder.old) }
{
    match push(builder, node) {
        Ok(()) => Ok(()),
        Err(GraphError::Memory) => Err(ExpandError::Memory),
        Err(GraphError::Nodes) => Err(ExpandError::Nodes),
        Err(GraphError::StrayUnfold { .. }) => unreachable!(),
    }
}

/// Puts the phrase that was on top of the stack back, with one node more filled, and the phrase
/// below that stands for that node above it.
fn descend<'t>(
    source: &Source<'t>,
    stack: &mut Vec<Open<'t>>,
    phrase: Open<'t>,
    function: &'t [u8],
    tree: &'t Tree<'t>,
) -> Result<(), ExpandError>
    requires { IsNext (plain_source source.now) phrase (Some (Filled.Meaning function tree)) }
    ensures left { let s = plain_source source.now in
        OnOk result (left_of s stack.new.items
        ≡ joined (rest_of s phrase.entry) (left_of s stack.old.items)) }
    ensures gap { let s = plain_source source.now in
        IfErr result (IsGapError (rest_of s phrase.entry)) }
{
    let below = source.enter(function, tree)?;
    push_open(stack, phrase.after())?;
    push_open(stack, below)
}

/// Fills the next node of the phrase that was on top of the stack. What then is left is put back,
/// and a phrase below is put above.
fn turn<'t>(
    source: &Source<'t>,
    builder: &mut GraphBuilder<'_>,
    stack: &mut Vec<Open<'t>>,
    phrase: Open<'t>,
) -> Result<(), ExpandError>
    requires covered { HasNoGap (expansion_of (plain_source source.now)) }
    requires left { let s = plain_source source.now in
        expansion_of s ≡ joined (Ok builder.old)
        (joined (rest_of s phrase) (left_of s stack.old.items)) }
    requires few { length builder.old ≤ node_limit }
    ensures left { OnOk result (expansion_of (plain_source source.now)
        ≡ joined (Ok builder.new) (left_of (plain_source source.now) stack.new.items)) }
    ensures few { OnOk result (length builder.new ≤ node_limit) }
    ensures error { IfErr result (IsFillError (plain_source source.now)) }
{
    match phrase.next_in(source)? {
        None => Ok(()),
        Some(Filled::Node(node)) => {
            push_node(builder, node)?;
            push_open(stack, phrase.after())
        }
        Some(Filled::Meaning(function, tree)) => descend(source, stack, phrase, function, tree),
    }
}

/// A builder with the nodes of the action that a source means, where that has no gap.
/// `ExpandError::Nodes` comes where they are more than the limit.
pub fn fill<'a>(
    alloc: Global,
    arena: &'a Bump,
    source: &Source<'_>,
) -> Result<GraphBuilder<'a>, ExpandError>
    requires covered { HasNoGap (expansion_of (plain_source source.now)) }
    ensures filled { IfOk result (λ builder. expansion_of (plain_source source.now) ≡ Ok builder) }
    ensures few { IfOk result (λ builder. length builder ≤ node_limit) }
    ensures error { IfErr result (IsFillError (plain_source source.now)) }
{
    let mut builder = GraphBuilder::new(alloc, arena)?;
    let mut stack = Vec::new(alloc);
    push_open(&mut stack, source.root()?)?;
    for _ in 0..u64::MAX {
        let Some(phrase) = stack.pop() else {
            return Ok(builder);
        };
        turn(source, &mut builder, &mut stack, phrase)?;
    }
    Err(ExpandError::Memory)
}
