//! The jobs that print an action node.
ghost use Rattle.std.specs.Prelude.{◌≡◌, ◌≤◌, [], OnOk, map, true};
ghost use Rattle.action_terms.specs.Labels.{ActionNode, AnItem, copies};
ghost use Rattle.action_terms.specs.declared.kinds.Kind.TheVariants as kind;
ghost use Rattle.action_text.specs.declared.print_jobs.Side.{Side};
ghost use Rattle.action_text.specs.Shapes.{items, operator};
ghost use Rattle.action_text.specs.Canonical.{is_some_word};
ghost use Rattle.action_text.specs.Printing.{Puts, Token, pieces_due, shape_due, is_bare, sides_due, chain_due, action_due};
ghost use Rattle.action_text.specs.ViewLabels.{join_kind, chain_kind, primitive_label, view_label};

use crate::print_jobs::Job::{Quoted, Word};
use crate::print_jobs::{CLOSE, COMMA, Job, OPEN, OPERAND, Part, Side, YIELDER, push_jobs};
use action_terms::kinds::Kind;
use action_terms::{Chain, Join, NodeView, PrimitiveView};
use std::alloc::AllocError;

// Data of two items or more.
fn push_list(stack: &mut Vec<Job<'_>>, count: usize) -> Result<(), AllocError>
    requires { 2 ≤ count }
    ensures { OnOk result
        (Puts stack.old.items stack.new.items (pieces_due (items count) (copies count AnItem))) }
{
    push_jobs(stack, &[CLOSE])?;
    for _ in 1..count {
        push_jobs(stack, &[COMMA, YIELDER])?;
    }
    push_jobs(stack, &[OPEN, YIELDER])?;
    Ok(())
}

// Data of so many items.
fn push_items(stack: &mut Vec<Job<'_>>, count: usize) -> Result<(), AllocError>
    ensures { OnOk result
        (Puts stack.old.items stack.new.items (pieces_due (items count) (copies count AnItem))) }
{
    match count {
        0 => push_jobs(stack, &[OPEN, CLOSE]),
        1 => push_jobs(stack, &[YIELDER]),
        _ => push_list(stack, count),
    }
}

// `branch(Y, A, A)`
fn push_branch(stack: &mut Vec<Job<'_>>) -> Result<(), AllocError>
    ensures { OnOk result
        (Puts stack.old.items stack.new.items (shape_due (ActionNode kind.Branch 0 []))) }
{
    push_jobs(stack, &[COMMA, OPERAND, COMMA, OPERAND, CLOSE])?;
    push_jobs(stack, &[Word(b"branch"), OPEN, YIELDER])
}

// `bind T to Y`
fn push_binding<'a>(stack: &mut Vec<Job<'a>>, token: &'a [u8]) -> Result<(), AllocError>
    ensures { OnOk result
        (Puts stack.old.items stack.new.items (shape_due (ActionNode kind.Bind 0 token.now))) }
{
    push_jobs(stack, &[Word(b"bind"), Quoted(token), Word(b"to"), YIELDER])
}

// The words of an operator.
fn push_operator(stack: &mut Vec<Job<'_>>, kind: Kind) -> Result<(), AllocError>
    ensures { OnOk result (Puts stack.old.items stack.new.items (map Token (operator kind))) }
{
    match kind {
        Kind::Or => push_jobs(stack, &[Word(b"or")]),
        Kind::And => push_jobs(stack, &[Word(b"and")]),
        Kind::AndThen => push_jobs(stack, &[Word(b"and"), Word(b"then")]),
        Kind::Then => push_jobs(stack, &[Word(b"then")]),
        Kind::Trap => push_jobs(stack, &[Word(b"trap")]),
        Kind::Hence => push_jobs(stack, &[Word(b"hence")]),
        Kind::Moreover => push_jobs(stack, &[Word(b"moreover")]),
        Kind::Before => push_jobs(stack, &[Word(b"before")]),
        _ => Ok(()),
    }
}

// Whether a chain of the kind stands there without parentheses.
fn is_bare(side: Side, kind: Kind) -> bool
    requires { is_some_word (operator kind) ≡ true }
    ensures { result ≡ is_bare side kind }
{
    match side {
        Side::Whole => true,
        Side::Operand => false,
        Side::LeftOf(other) => kind == other,
    }
}

// A chain without parentheses.
fn push_sides(stack: &mut Vec<Job<'_>>, kind: Kind) -> Result<(), AllocError>
    ensures { OnOk result (Puts stack.old.items stack.new.items (sides_due kind)) }
{
    push_jobs(stack, &[OPERAND])?;
    push_operator(stack, kind)?;
    push_jobs(stack, &[Job::Part(Part::Action(Side::LeftOf(kind)))])
}

// A chain.
fn push_chain(stack: &mut Vec<Job<'_>>, side: Side, kind: Kind) -> Result<(), AllocError>
    requires { is_some_word (operator kind) ≡ true }
    ensures { OnOk result (Puts stack.old.items stack.new.items (chain_due side kind)) }
{
    if is_bare(side, kind) {
        push_sides(stack, kind)
    } else {
        push_jobs(stack, &[CLOSE])?;
        push_sides(stack, kind)?;
        push_jobs(stack, &[OPEN])
    }
}

// The kind of a node with two parts.
fn join_kind(join: Join) -> Kind
    ensures kind { result ≡ join_kind join }
    ensures operator { is_some_word (operator result) ≡ true }
{
    match join {
        Join::And => Kind::And,
        Join::Moreover => Kind::Moreover,
    }
}

// The kind of a node with two parts in order.
fn chain_kind(chain: Chain) -> Kind
    ensures kind { result ≡ chain_kind chain }
    ensures operator { is_some_word (operator result) ≡ true }
{
    match chain {
        Chain::AndThen => Kind::AndThen,
        Chain::Then => Kind::Then,
        Chain::Hence => Kind::Hence,
        Chain::Before => Kind::Before,
    }
}

// An action that is done in one step.
fn push_primitive<'a>(
    stack: &mut Vec<Job<'a>>,
    primitive: PrimitiveView<'a>,
) -> Result<(), AllocError>
    ensures { (side : Side) → OnOk result
        (Puts stack.old.items stack.new.items (action_due side (primitive_label primitive.entry))) }
{
    match primitive {
        PrimitiveView::Complete => push_jobs(stack, &[Word(b"complete")]),
        PrimitiveView::Failing => push_jobs(stack, &[Word(b"fail")]),
        PrimitiveView::Escape => push_jobs(stack, &[Word(b"escape")]),
        PrimitiveView::Commit => push_jobs(stack, &[Word(b"commit")]),
        PrimitiveView::Regive => push_jobs(stack, &[Word(b"regive")]),
        PrimitiveView::Rebind => push_jobs(stack, &[Word(b"rebind")]),
        PrimitiveView::Give { items } => {
            push_items(stack, items.len())?;
            push_jobs(stack, &[Word(b"give")])
        }
        PrimitiveView::EscapeWith { items } => {
            push_items(stack, items.len())?;
            push_jobs(stack, &[Word(b"escape"), Word(b"with")])
        }
        PrimitiveView::Check { .. } => push_jobs(stack, &[Word(b"check"), YIELDER]),
        PrimitiveView::Bind { token, .. } => push_binding(stack, token),
        PrimitiveView::BindRec { token, .. } => {
            push_binding(stack, token)?;
            push_jobs(stack, &[Word(b"recursively")])
        }
        PrimitiveView::Store { .. } => {
            push_jobs(stack, &[Word(b"store"), YIELDER, Word(b"in"), YIELDER])
        }
        PrimitiveView::Allocate => {
            push_jobs(stack, &[Word(b"allocate"), Word(b"a"), Word(b"cell")])
        }
        PrimitiveView::Receive => {
            push_jobs(stack, &[Word(b"receive"), Word(b"an"), Word(b"integer")])
        }
        PrimitiveView::Send { .. } => push_jobs(stack, &[Word(b"send"), YIELDER]),
    }
}

// `enact application of Y to Data`, with so many items
fn push_application(stack: &mut Vec<Job<'_>>, count: usize) -> Result<(), AllocError>
    ensures { OnOk result
        (Puts stack.old.items stack.new.items (shape_due (ActionNode kind.Apply count []))) }
{
    push_items(stack, count)?;
    push_jobs(stack, &[YIELDER, Word(b"to")])?;
    push_jobs(stack, &[Word(b"enact"), Word(b"application"), Word(b"of")])
}

/// Puts the jobs of an action node on the stack.
pub fn push_action<'a>(
    stack: &mut Vec<Job<'a>>,
    side: Side,
    node: NodeView<'a>,
) -> Result<(), AllocError>
    ensures { OnOk result
        (Puts stack.old.items stack.new.items (action_due side (view_label node.entry))) }
{
    match node {
        NodeView::Simple(primitive) => push_primitive(stack, primitive),
        NodeView::Enact { .. } => push_jobs(stack, &[Word(b"enact"), YIELDER]),
        NodeView::Apply { items, .. } => push_application(stack, items.len()),
        NodeView::Unfolding { .. } => push_jobs(stack, &[Word(b"unfolding"), OPERAND]),
        NodeView::Unfold { .. } => push_jobs(stack, &[Word(b"unfold")]),
        NodeView::Furthermore { .. } => push_jobs(stack, &[Word(b"furthermore"), OPERAND]),
        NodeView::Both { join, .. } => push_chain(stack, side, join_kind(join)),
        NodeView::Phases { chain, .. } => push_chain(stack, side, chain_kind(chain)),
        NodeView::Either { .. } => push_chain(stack, side, Kind::Or),
        NodeView::Trapping { .. } => push_chain(stack, side, Kind::Trap),
        NodeView::Branch { .. } => push_branch(stack),
    }
}
