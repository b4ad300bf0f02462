//! Printing a graph as the canonical text of its action.
ghost use Rattle.std.specs.Prelude.{◌≡◌, IfOk, IfNone, []};
ghost use Rattle.action_terms.specs.Trees.{Tree};
ghost use Rattle.action_terms.specs.Numbering.{IsGraphOf};
ghost use Rattle.action_text.specs.Answers.{IsReadAs};
ghost use Rattle.action_text.specs.Canonical.{canonical_text, HasNoBranch};
ghost use Rattle.action_text.specs.Printing.{SaysNext};

use crate::action_jobs::push_action;
use crate::print_jobs::{Job, Part, Side};
use crate::unfinished::Text;
use crate::yielder_jobs::push_yielder;
use acg_base::Memory;
use action_terms::Graph;
use std::alloc::{AllocError, Global};

// Prints the tokens that come before the next node, and answers its place; it is None where no node follows.
fn print_tokens(stack: &mut Vec<Job<'_>>, text: &mut Text) -> Result<Option<Part>, AllocError>
    ensures printed { IfOk result
        (λ next. SaysNext text.old text.new stack.old.items stack.new.items next) }
    ensures done { IfOk result (λ next. IfNone next (stack.new.items ≡ [])) }
{
    while let Some(job) = stack.pop() {
        match job {
            Job::Word(bytes) => text.say(bytes)?,
            Job::Number(value) => text.say_number(value)?,
            Job::Quoted(bytes) => text.say_quoted(bytes)?,
            Job::Part(part) => return Ok(Some(part)),
        }
    }
    Ok(None)
}

/// The canonical text of the action of a graph: one space between two tokens, except behind `(`,
/// before `)` and `,`, and before a `(` that opens arguments; a chain that is an operand stands in
/// parentheses, unless it is a left operand with the same operator. A branch is printed as
/// `branch(Y, A, A)`, which no text of an action has; every other graph is read again.
pub fn print_action(alloc: Global, graph: &Graph<'_>) -> Result<Vec<u8>, Memory>
    ensures canonical { IfOk result
        (λ text. (t : Tree) → IsGraphOf graph.now t → text.items ≡ canonical_text t) }
    ensures read_again { HasNoBranch graph.now
        → IfOk result (λ text. IsReadAs text.items graph.now) }
{
    // It is the graph of an action, so that each node has its place.
    let _nodes = graph.nodes();
    let mut stack = Vec::new(alloc);
    stack.push(Job::Part(Part::Action(Side::Whole)))?;
    let mut text = Text::new(alloc);
    let mut action = 0;
    let mut yielder = 0;
    while let Some(part) = print_tokens(&mut stack, &mut text)? {
        match part {
            Part::Action(side) => {
                push_action(&mut stack, side, graph.view(action))?;
                action += 1;
            }
            Part::Yielder => {
                push_yielder(&mut stack, graph.yielder_view(yielder))?;
                yielder += 1;
            }
        }
    }
    Ok(text.into_bytes())
}
