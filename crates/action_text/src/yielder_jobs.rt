//! The jobs that print a yielder.
ghost use Rattle.std.specs.Prelude.{◌≡◌, ◌<◌, [], OnOk};
ghost use Rattle.action_terms.specs.Labels.{YielderNode};
ghost use Rattle.action_terms.specs.declared.kinds.YKind.TheVariants as ykind;
ghost use Rattle.action_text.specs.Shapes.{sort_word};
ghost use Rattle.action_text.specs.Canonical.{IsReadableLabel};
ghost use Rattle.action_text.specs.Printing.{Puts, PutsCall, shape_due};
ghost use Rattle.action_text.specs.ViewLabels.{two_kind, one_kind, yielder_view_label, HasPlace};

use crate::print_jobs::Job::{Number, Quoted, Word};
use crate::print_jobs::{CLOSE, COMMA, Job, OPEN, OPERAND, YIELDER, push_jobs};
use action_terms::kinds::Sort;
use action_terms::{One, Two, YielderView};
use std::alloc::AllocError;

// The word of a sort.
fn sort_word(sort: Sort) -> &'static [u8]
    ensures { result.now ≡ sort_word sort }
{
    match sort {
        Sort::Integer => b"integer",
        Sort::Truth => b"truth-value",
        Sort::Cell => b"cell",
        Sort::Abstraction => b"abstraction",
    }
}

// `the given S # n` with the place n
fn push_given_at(stack: &mut Vec<Job<'_>>, sort: Sort, place: u32) -> Result<(), AllocError>
    requires { 0 < place }
    ensures { OnOk result
        (Puts stack.old.items stack.new.items (shape_due (YielderNode (ykind.Given sort place) []))) }
{
    let number = Number(place as i64);
    push_jobs(stack, &[Word(sort_word(sort)), Word(b"#"), number])?;
    push_jobs(stack, &[Word(b"the"), Word(b"given")])
}

// `the S bound to T`
fn push_bound<'a>(stack: &mut Vec<Job<'a>>, sort: Sort, token: &'a [u8]) -> Result<(), AllocError>
    ensures { OnOk result
        (Puts stack.old.items stack.new.items (shape_due (YielderNode (ykind.Bound sort) token.now))) }
{
    let word = Word(sort_word(sort));
    let quoted = Quoted(token);
    push_jobs(
        stack,
        &[Word(b"the"), word, Word(b"bound"), Word(b"to"), quoted],
    )
}

// These words, and two arguments.
fn push_call<'a>(stack: &mut Vec<Job<'a>>, words: &[Job<'a>]) -> Result<(), AllocError>
    ensures { OnOk result (PutsCall stack.old.items stack.new.items words.now) }
{
    push_jobs(stack, &[OPEN, YIELDER, COMMA, YIELDER, CLOSE])?;
    push_jobs(stack, words)
}

// An operation on two data.
fn push_on_two(stack: &mut Vec<Job<'_>>, operation: Two) -> Result<(), AllocError>
    ensures { OnOk result
        (Puts stack.old.items stack.new.items (shape_due (YielderNode (two_kind operation) []))) }
{
    match operation {
        Two::Sum => push_call(stack, &[Word(b"sum")]),
        Two::Difference => push_call(stack, &[Word(b"difference")]),
        Two::Product => push_call(stack, &[Word(b"product")]),
        Two::Quotient => push_call(stack, &[Word(b"integer-quotient")]),
        Two::Remainder => push_call(stack, &[Word(b"integer-remainder")]),
        Two::Is => push_call(stack, &[Word(b"is")]),
        Two::Less => push_call(stack, &[Word(b"is"), Word(b"less"), Word(b"than")]),
        Two::BothOf => push_call(stack, &[Word(b"both")]),
        Two::EitherOf => push_call(stack, &[Word(b"either")]),
    }
}

// An operation on one datum.
fn push_on_one(stack: &mut Vec<Job<'_>>, operation: One) -> Result<(), AllocError>
    ensures { OnOk result
        (Puts stack.old.items stack.new.items (shape_due (YielderNode (one_kind operation) []))) }
{
    match operation {
        One::Negation => push_jobs(stack, &[Word(b"negation"), OPEN, YIELDER, CLOSE]),
        One::Not => push_jobs(stack, &[Word(b"not"), OPEN, YIELDER, CLOSE]),
    }
}

/// Puts the jobs of a yielder on the stack.
pub fn push_yielder<'a>(stack: &mut Vec<Job<'a>>, node: YielderView<'a>) -> Result<(), AllocError>
    requires { HasPlace node }
    ensures due { OnOk result
        (Puts stack.old.items stack.new.items (shape_due (yielder_view_label node.entry))) }
    ensures fits { IsReadableLabel (yielder_view_label node.entry) }
{
    match node {
        YielderView::Number(value) => push_jobs(stack, &[Number(value)]),
        YielderView::Truth(true) => push_jobs(stack, &[Word(b"true")]),
        YielderView::Truth(false) => push_jobs(stack, &[Word(b"false")]),
        YielderView::Them => push_jobs(stack, &[Word(b"them")]),
        YielderView::Given { sort } => {
            push_jobs(
                stack,
                &[Word(b"the"), Word(b"given"), Word(sort_word(sort))],
            )
        }
        YielderView::GivenAt { sort, place } => push_given_at(stack, sort, place),
        YielderView::BoundTo { sort, token } => push_bound(stack, sort, token),
        YielderView::StoredIn { sort, .. } => {
            push_jobs(stack, &[Word(b"stored"), Word(b"in"), YIELDER])?;
            push_jobs(stack, &[Word(b"the"), Word(sort_word(sort))])
        }
        YielderView::OnTwo { operation, .. } => push_on_two(stack, operation),
        YielderView::OnOne { operation, .. } => push_on_one(stack, operation),
        YielderView::ClosureOf { .. } => {
            let words = [Word(b"closure"), Word(b"abstraction"), Word(b"of"), OPERAND];
            push_jobs(stack, &words)
        }
    }
}
