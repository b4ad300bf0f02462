//! What is still to be emitted of the code of a yielder, as a stack: no call is nested as deep as
//! the yielder is.

ghost use Rattle.std.specs.Prelude.{◌≡◌, ℕ, ◌≢◌, ◌<◌, ◌≤◌, ◌+◌, ◌++◌, ◌∷◌, [], All, OnOk, IfSome, IfNone, IfOk, OnErr, IsTrue, None, true, length, slice_index};
ghost use Rattle.action_terms.specs.Forms.{yielder_at, two_viewed, IsDatum};
ghost use Rattle.rv_yield.specs.Fronts.{IsAppended, AppendsFrontOf};
ghost use Rattle.rv_yield.specs.Holding.{only_offset, nth_offset, slot_offset, slots_of};
ghost use Rattle.rv_yield.specs.Registers.{registers_needed, is_built, addend, other_addend};
ghost use Rattle.rv_yield.specs.Sources.{places_of};
ghost use Rattle.rv_yield.specs.YielderCode.{of_literal, second_constant, first_constant, small, addend_for};
ghost use Rattle.rv_yield.specs.Tasks.{task_items, items_of, IsReady, addition_tasks, both_tasks, operand_tasks, HasTaskWords, HaveWords, task_turns, turns};

use crate::operations::{append_addition, append_content, append_one, append_operation};
use crate::source::Source;
use crate::words::append_placed;
use acg_base::Memory;
use action_terms::{Graph, One, Two, YielderView};
use rv_asm::Asm;
use rv_asm::pieces::load_constant;
use rv_code::Reg;

/// Code that is still to be emitted.
#[derive(Clone, Copy)]
pub(crate) enum Task {
    /// The value of a yielder goes to a register, by way of those from another one on.
    Value(u32, Reg, Reg),
    /// An operation on the values of two registers goes to another.
    OnTwo(Two, Reg, Reg, Reg),
    /// A sum with a constant of 12 bits goes to a register, from another.
    Addition(Reg, Reg, i32),
    /// An operation on the value of a register goes to another.
    OnOne(One, Reg, Reg),
    /// What a cell holds goes to a register, by the cell's address in another.
    Content(Reg, Reg),
}

/// An integer, where it is one of 12 bits.
fn small(value: i64) -> Option<i32>
    ensures { result ≡ small value }
{
    if -2048 <= value && value < 2048 {
        Some(value as i32)
    } else {
        None
    }
}

/// What an operation adds to its first operand, where the second one is a number of 12 bits.
fn second_constant(graph: &Graph<'_>, operation: Two, second: u32) -> Option<i32>
    requires { second < length graph.now.yielders }
    ensures { result ≡ of_literal (second_constant (two_viewed operation)) (yielder_at
        graph.now.yielders second) }
{
    match (operation, graph.yielder_view(second as usize)) {
        (Two::Sum, YielderView::Number(value)) => small(value),
        (Two::Difference, YielderView::Number(value)) if value > -4096 => small(-value),
        _ => None,
    }
}

/// What an operation adds to its second operand, where the first one is a number of 12 bits.
fn first_constant(graph: &Graph<'_>, operation: Two, first: u32) -> Option<i32>
    requires { first < length graph.now.yielders }
    ensures { result ≡ of_literal (first_constant (two_viewed operation)) (yielder_at
        graph.now.yielders first) }
{
    match (operation, graph.yielder_view(first as usize)) {
        (Two::Sum, YielderView::Number(value)) => small(value),
        _ => None,
    }
}

/// Has an operand's value and a constant added.
fn push_addition(
    tasks: &mut Vec<Task>,
    to: Reg,
    free: Reg,
    constant: i32,
    operand: u32,
) -> Result<(), Memory>
    ensures { OnOk result (tasks.new.items ≡ tasks.old.items ++ addition_tasks to free constant
        operand) }
{
    let source = if to == Reg(26) { Reg(27) } else { Reg(26) };
    tasks.push(Task::Addition(to, source, constant))?;
    tasks.push(Task::Value(operand, source, free))?;
    Ok(())
}

/// Has an operation done on two operands, of which the one that needs more registers comes first.
fn push_both(
    tasks: &mut Vec<Task>,
    operation: Two,
    first_later: bool,
    to: Reg,
    free: Reg,
    operands: (u32, u32),
) -> Result<(), Memory>
    requires { free < 31 }
    ensures { OnOk result (tasks.new.items ≡ tasks.old.items ++ both_tasks operation
        first_later to free operands.0 operands.1) }
{
    let (first, second) = operands;
    let next = Reg(free.0 + 1);
    if first_later {
        tasks.push(Task::OnTwo(operation, to, next, free))?;
        tasks.push(Task::Value(first, next, next))?;
        tasks.push(Task::Value(second, free, free))?;
    } else {
        tasks.push(Task::OnTwo(operation, to, free, next))?;
        tasks.push(Task::Value(second, next, next))?;
        tasks.push(Task::Value(first, free, free))?;
    }
    Ok(())
}

/// Has an operation done whose value goes to a register.
fn push_operands(
    tasks: &mut Vec<Task>,
    source: &Source<'_>,
    operation: Two,
    to: Reg,
    free: Reg,
    operands: (u32, u32),
) -> Result<(), Memory>
    requires first { IsDatum source.now.graph.now.yielders operands.0 }
    requires second { IsDatum source.now.graph.now.yielders operands.1 }
    requires built { (is_built (yielder_at source.now.graph.now.yielders operands.0) ≡ true)
        × (is_built (yielder_at source.now.graph.now.yielders operands.1) ≡ true) }
    requires free { free < 31 }
    ensures { OnOk result (tasks.new.items ≡ tasks.old.items ++ operand_tasks
        source.now.graph.now.yielders operation to free operands.0 operands.1) }
{
    let (first, second) = operands;
    if let Some(constant) = second_constant(source.graph, operation, second) {
        return push_addition(tasks, to, free, constant, first);
    }
    if let Some(constant) = first_constant(source.graph, operation, first) {
        return push_addition(tasks, to, free, constant, second);
    }
    let first_later = source.needs[first as usize] < source.needs[second as usize];
    push_both(tasks, operation, first_later, to, free, operands)
}

/// Has an operand's value in a register, and a task done behind it.
fn push_behind(tasks: &mut Vec<Task>, free: Reg, operand: u32, task: Task) -> Result<(), Memory>
    ensures { OnOk result (tasks.new.items ≡ tasks.old.items
        ++ (task ∷ Task.Value operand free free ∷ [])) }
{
    tasks.push(task)?;
    tasks.push(Task::Value(operand, free, free))?;
    Ok(())
}

/// The offset of the only datum that is given.
fn only_offset(given: &[u32]) -> Option<u32>
    ensures { result ≡ only_offset given.now }
{
    match given {
        [offset] => Some(*offset),
        _ => None,
    }
}

/// The offset of the datum of a place, from 1.
fn nth_offset(given: &[u32], place: u32) -> Option<u32>
    ensures { result ≡ nth_offset given.now place }
{
    if place == 0 {
        return None;
    }
    given.get(place as usize - 1).copied()
}

/// The offset of what a token is bound to, where the token has a slot.
fn slot_offset(bound: &[(&[u8], u32)], token: &[u8]) -> Option<u32>
    ensures { result ≡ slot_offset (slots_of bound.now) token.now }
{
    for (bound_token, offset) in bound {
        if *bound_token == token {
            return Some(*offset);
        }
    }
    None
}

/// Has the value of a yielder in a register, or puts off what it takes.
fn append_value(
    asm: &mut Asm,
    tasks: &mut Vec<Task>,
    source: &Source<'_>,
    yielder: u32,
    to: Reg,
    free: Reg,
) -> Result<(), Memory>
    requires label { source.now.nothing < asm.old.labels }
    requires ready { IsReady source.now.graph.now.yielders (Task.Value yielder to free) }
    requires rest { All (IsReady source.now.graph.now.yielders) tasks.old.items }
    ensures items { OnOk result (IsAppended
        (task_items source.now.graph.now.yielders (places_of source.now) source.now.nothing
        (Task.Value yielder to free) ++ items_of source.now.graph.now.yielders
        (places_of source.now) source.now.nothing tasks.old.items)
        (items_of source.now.graph.now.yielders (places_of source.now) source.now.nothing
        tasks.new.items) asm.old asm.new) }
    ensures err { OnErr result (AppendsFrontOf (task_items source.now.graph.now.yielders
        (places_of source.now) source.now.nothing (Task.Value yielder to free))
        asm.old asm.new) }
    ensures ready { OnOk result
        (All (IsReady source.now.graph.now.yielders) tasks.new.items) }
    ensures words { OnOk result (HaveWords source.now.graph.now.yielders tasks.new.items
        → HaveWords source.now.graph.now.yielders tasks.old.items
        × HasTaskWords source.now.graph.now.yielders (Task.Value yielder to free)) }
    ensures turns { OnOk result (turns source.now.graph.now.yielders tasks.new.items
        < turns source.now.graph.now.yielders tasks.old.items
        + task_turns source.now.graph.now.yielders (Task.Value yielder to free)) }
{
    match source.graph.yielder_view(yielder as usize) {
        YielderView::Number(value) => load_constant(asm, to, value.cast_unsigned()),
        YielderView::Truth(value) => load_constant(asm, to, u64::from(value)),
        YielderView::Given { .. } => {
            append_placed(asm, only_offset(source.given), to, source.nothing)
        }
        YielderView::GivenAt { place, .. } => {
            append_placed(asm, nth_offset(source.given, place), to, source.nothing)
        }
        YielderView::BoundTo { token, .. } => {
            append_placed(asm, slot_offset(source.bound, token), to, source.nothing)
        }
        YielderView::StoredIn { cell, .. } => {
            push_behind(tasks, free, cell, Task::Content(to, free))
        }
        YielderView::OnTwo {
            operation,
            first,
            second,
        } => push_operands(tasks, source, operation, to, free, (first, second)),
        YielderView::OnOne {
            operation,
            argument,
        } => push_behind(tasks, free, argument, Task::OnOne(operation, to, free)),
        _ => unreachable!(),
    }
}

/// Does a task.
pub(crate) fn append_task(
    asm: &mut Asm,
    tasks: &mut Vec<Task>,
    source: &Source<'_>,
    task: Task,
) -> Result<(), Memory>
    requires label { source.now.nothing < asm.old.labels }
    requires ready { IsReady source.now.graph.now.yielders task }
    requires rest { All (IsReady source.now.graph.now.yielders) tasks.old.items }
    ensures items { OnOk result (IsAppended
        (task_items source.now.graph.now.yielders (places_of source.now) source.now.nothing task
        ++ items_of source.now.graph.now.yielders (places_of source.now) source.now.nothing
        tasks.old.items) (items_of source.now.graph.now.yielders (places_of source.now)
        source.now.nothing tasks.new.items) asm.old asm.new) }
    ensures err { OnErr result (AppendsFrontOf (task_items source.now.graph.now.yielders
        (places_of source.now) source.now.nothing task) asm.old asm.new) }
    ensures ready { OnOk result
        (All (IsReady source.now.graph.now.yielders) tasks.new.items) }
    ensures words { OnOk result (HaveWords source.now.graph.now.yielders tasks.new.items
        → HaveWords source.now.graph.now.yielders tasks.old.items
        × HasTaskWords source.now.graph.now.yielders task) }
    ensures turns { OnOk result (turns source.now.graph.now.yielders tasks.new.items
        < turns source.now.graph.now.yielders tasks.old.items
        + task_turns source.now.graph.now.yielders task) }
{
    let nothing = source.nothing;
    match task {
        Task::Value(yielder, to, free) => append_value(asm, tasks, source, yielder, to, free),
        Task::OnTwo(operation, to, a, b) => append_operation(asm, operation, to, a, b, nothing),
        Task::Addition(to, a, constant) => append_addition(asm, to, a, constant, nothing),
        Task::OnOne(operation, to, a) => append_one(asm, operation, to, a, nothing),
        Task::Content(to, a) => append_content(asm, to, a, nothing),
    }
}
