//! What nodes that have parts or bodies become.
ghost use Rattle.std.specs.Prelude.{◌≡◌, IfOk, option_map};
ghost use Rattle.action_terms.specs.Information.{Closure};
ghost use Rattle.action_terms.specs.Acting.{Run, Called, Par, First, Or, Trap, Over};
ghost use Rattle.action_terms.specs.Steps.{own_binds, enacted, branched};
ghost use Rattle.action_values.specs.Values.{meant, data_of, bindings_of};
ghost use Rattle.action_sos.specs.Moves.{given_of, bound_of, running, next_tree};

use crate::moves::{Next, Received};
use crate::part::Frame;
use crate::primitives::fails;
use acg_base::Memory;
use action_values::bindings::bind;
use action_values::{Binding, Datum};
use bumpalo::Bump;

/// A closure that is bound to its own token.
pub fn own_closure<'a>(body: u32, bound: &'a [Binding<'a>], token: &'a [u8]) -> Datum<'a>
    ensures { meant result ≡ Closure body (bindings_of bound.now) (Some token.now) }
{
    Datum::Closure {
        body,
        bound,
        own: Some(token),
    }
}

// what the body of a closure receives: it knows the closure by its own token
fn own_bindings<'a>(
    arena: &'a Bump,
    body: u32,
    bound: &'a [Binding<'a>],
    own: Option<&'a [u8]>,
) -> Result<&'a [Binding<'a>], Memory>
    ensures { IfOk result (λ r. bindings_of r.now ≡ own_binds body (bindings_of bound.now) (option_map (λ t. t.now) own.entry)) }
{
    match own {
        Some(token) => bind(arena, token, own_closure(body, bound, token), bound),
        None => Ok(bound),
    }
}

/// A body is to be performed.
pub fn calls<'a>(body: u32, received: Received<'a>) -> Next<'a>
    ensures { next_tree result ≡ Called body (running body received.entry) }
{
    Next::Within {
        frame: Frame::Called { body },
        node: body,
        received,
    }
}

/// `enact`, of the data and the closure that its operands yield.
pub fn enacts<'a>(
    arena: &'a Bump,
    given: Option<&'a [Datum<'a>]>,
    closure: Option<Datum<'a>>,
) -> Result<Next<'a>, Memory>
    ensures { IfOk result (λ next. next_tree next ≡ enacted (option_map (λ d. data_of d.now) given.entry) (option_map meant closure.entry)) }
{
    match (given, closure) {
        (Some(given), Some(Datum::Closure { body, bound, own })) => {
            let bound = own_bindings(arena, body, bound, own)?;
            Ok(calls(body, Received { given, bound }))
        }
        _ => Ok(fails()),
    }
}

/// `branch`, of what its operand yields.
pub fn branches<'a>(
    datum: Option<Datum<'_>>,
    left: u32,
    right: u32,
    received: Received<'a>,
) -> Next<'a>
    ensures { next_tree result ≡ branched (option_map meant datum.entry) left right (given_of received.entry) (bound_of received.entry) }
{
    match datum {
        Some(Datum::Truth(true)) => Next::Run {
            node: left,
            received,
        },
        Some(Datum::Truth(false)) => Next::Run {
            node: right,
            received,
        },
        _ => fails(),
    }
}

/// `and` or `moreover`: its two parts are to be performed.
pub fn forks<'a>(node: u32, left: u32, right: u32, received: Received<'a>) -> Next<'a>
    ensures { next_tree result ≡ Par node (running left received.entry) (running right received.entry) }
{
    Next::Fork {
        node,
        left,
        right,
        received,
    }
}

/// Two parts in order: the first is to be performed.
pub fn begins<'a>(node: u32, left: u32, received: Received<'a>) -> Next<'a>
    ensures { next_tree result ≡ First node (running left received.entry) (given_of received.entry) (bound_of received.entry) }
{
    Next::Within {
        frame: Frame::First {
            node,
            given: received.given,
            bound: received.bound,
        },
        node: left,
        received,
    }
}

/// An arm of `or`, with the other one open.
pub fn chooses<'a>(arm: u32, other: u32, received: Received<'a>) -> Next<'a>
    ensures { next_tree result ≡ Or (running arm received.entry) other (given_of received.entry) (bound_of received.entry) }
{
    Next::Within {
        frame: Frame::Or {
            other,
            given: received.given,
            bound: received.bound,
        },
        node: arm,
        received,
    }
}

/// `trap`: its left part is to be performed.
pub fn traps<'a>(node: u32, left: u32, received: Received<'a>) -> Next<'a>
    ensures { next_tree result ≡ Trap node (running left received.entry) (bound_of received.entry) }
{
    Next::Within {
        frame: Frame::Trap {
            node,
            bound: received.bound,
        },
        node: left,
        received,
    }
}

/// `furthermore`: its part is to be performed.
pub fn lays_over<'a>(part: u32, received: Received<'a>) -> Next<'a>
    ensures { next_tree result ≡ Over (running part received.entry) (bound_of received.entry) }
{
    Next::Within {
        frame: Frame::Over {
            bound: received.bound,
        },
        node: part,
        received,
    }
}
