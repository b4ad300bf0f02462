//! What is still to be printed: tokens, and the places of nodes.
ghost use Rattle.std.specs.Prelude.{OnOk, map};
ghost use Rattle.action_text.specs.Printing.{Puts, due};

use action_terms::kinds::Kind;
use std::alloc::AllocError;

/// Where an action stands.
#[derive(Clone, Copy)]
pub enum Side {
    /// It is the whole text.
    Whole,
    /// It is an operand: a chain stands in parentheses.
    Operand,
    /// It is the left operand of an operator of this kind: a chain of that operator stands
    /// without parentheses.
    LeftOf(Kind),
}

/// The place of a node.
#[derive(Clone, Copy)]
pub enum Part {
    /// The next action node stands there.
    Action(Side),
    /// The next yielder stands there.
    Yielder,
}

/// One thing that is to be printed.
#[derive(Clone, Copy)]
pub enum Job<'a> {
    /// A word or a symbol.
    Word(&'a [u8]),
    /// A number.
    Number(i64),
    /// A text between quotes.
    Quoted(&'a [u8]),
    /// A node, with what stands under it.
    Part(Part),
}

/// `(`
pub const OPEN: Job<'static> = Job::Word(b"(");
/// `,`
pub const COMMA: Job<'static> = Job::Word(b",");
/// `)`
pub const CLOSE: Job<'static> = Job::Word(b")");
/// An action that is an operand.
pub const OPERAND: Job<'static> = Job::Part(Part::Action(Side::Operand));
/// A yielder.
pub const YIELDER: Job<'static> = Job::Part(Part::Yielder);

/// Puts the jobs on the stack, the first on top.
pub fn push_jobs<'a>(stack: &mut Vec<Job<'a>>, jobs: &[Job<'a>]) -> Result<(), AllocError>
    ensures { OnOk result (Puts stack.old.items stack.new.items (map due jobs.now)) }
{
    let mut left = jobs.len();
    while left > 0 {
        left -= 1;
        stack.push(jobs[left])?;
    }
    Ok(())
}
