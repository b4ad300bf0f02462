//! The code of a condition: it goes on where a yielder yields `true`, and to a label where it
//! yields `false`.

ghost use Rattle.std.specs.Prelude.{◌≡◌, ◌≢◌, ℕ, ◌<◌, ◌≤◌, ◌+◌, ◌*◌, OnOk, OnErr, true};
ghost use Rattle.rv_asm.specs.Assembly.{total, is_placed};
ghost use Rattle.action_terms.specs.Actions.{Yielder, OnOne, Not};
ghost use Rattle.action_terms.specs.Forms.{yielder_at, IsDatum};
ghost use Rattle.action_terms.specs.Need.{yielder_count};
ghost use Rattle.action_terms.specs.Numbering.{node_limit};
ghost use Rattle.rv_yield.specs.Calls.{calls};
ghost use Rattle.rv_yield.specs.Conditions.{turned, literal_condition, compared, tested, condition_items};
ghost use Rattle.rv_yield.specs.Evaluates.{Decides};
ghost use Rattle.rv_yield.specs.Fronts.{extended, AppendsFrontOf};
ghost use Rattle.rv_yield.specs.Registers.{HasWords, is_built};
ghost use Rattle.rv_yield.specs.Sources.{places_of};

use crate::source::Source;
use crate::values::value_code;
use acg_base::Memory;
use action_terms::{One, Two, YielderView};
use rv_asm::{Asm, Label};
use rv_code::{BranchOp, Reg};
use std::alloc::Global;

const ZERO: Reg = Reg(0);

/// The registers of values that are compared.
const VALUE: Reg = Reg(10);

const OTHER_VALUE: Reg = Reg(11);

/// What is still to be done for a condition: a yielder is to yield a truth-value.
#[derive(Clone, Copy)]
struct Wanted {
    yielder: u32,
    value: bool,
}

/// A comparison, or its opposite where it isn't wanted.
fn turned(wanted: bool, op: BranchOp) -> BranchOp
    ensures { result ≡ turned wanted op }
{
    if wanted {
        return op;
    }
    match op {
        BranchOp::Beq => BranchOp::Bne,
        BranchOp::Bne => BranchOp::Beq,
        BranchOp::Blt => BranchOp::Bge,
        BranchOp::Bge => BranchOp::Blt,
        BranchOp::Bltu => BranchOp::Bgeu,
        BranchOp::Bgeu => BranchOp::Bltu,
    }
}

/// Appends a jump to a label where a literal isn't the truth-value that is wanted.
fn append_literal(
    asm: &mut Asm,
    wanted: bool,
    literal: bool,
    otherwise: Label,
) -> Result<(), Memory>
    requires { otherwise < asm.old.labels }
    ensures ok { OnOk result
        (asm.new ≡ extended asm.old (literal_condition wanted literal otherwise)) }
    ensures err { OnErr result
        (AppendsFrontOf (literal_condition wanted literal otherwise) asm.old asm.new) }
{
    if wanted == literal {
        return Ok(());
    }
    asm.jump(otherwise)
}

/// Appends what computes two operands, the one that needs more registers first, and a jump to a
/// label where a comparison of them holds.
fn append_comparison(
    alloc: Global,
    asm: &mut Asm,
    source: &Source<'_>,
    op: BranchOp,
    operands: (u32, u32),
    otherwise: Label,
) -> Result<(), Memory>
    requires first { IsDatum source.now.graph.now.yielders operands.0 }
    requires second { IsDatum source.now.graph.now.yielders operands.1 }
    requires built { (is_built (yielder_at source.now.graph.now.yielders operands.0) ≡ true)
        × (is_built (yielder_at source.now.graph.now.yielders operands.1) ≡ true) }
    requires few { yielder_count (yielder_at source.now.graph.now.yielders operands.0)
        + yielder_count (yielder_at source.now.graph.now.yielders operands.1) + 1 < node_limit }
    requires label { source.now.nothing < asm.old.labels }
    requires otherwise { otherwise < asm.old.labels }
    ensures ok { OnOk result (asm.new ≡ extended asm.old (compared (places_of source.now) op
        otherwise source.now.nothing (yielder_at source.now.graph.now.yielders operands.0)
        (yielder_at source.now.graph.now.yielders operands.1))) }
    ensures words { OnOk result (HasWords (yielder_at source.now.graph.now.yielders operands.0)
        × HasWords (yielder_at source.now.graph.now.yielders operands.1)) }
    ensures err { OnErr result (AppendsFrontOf (compared (places_of source.now) op otherwise
        source.now.nothing (yielder_at source.now.graph.now.yielders operands.0)
        (yielder_at source.now.graph.now.yielders operands.1)) asm.old asm.new) }
{
    let (first, second) = operands;
    if source.needs[first as usize] < source.needs[second as usize] {
        value_code(alloc, asm, source, second, VALUE)?;
        value_code(alloc, asm, source, first, OTHER_VALUE)?;
        return asm.branch(op, OTHER_VALUE, VALUE, otherwise);
    }
    value_code(alloc, asm, source, first, VALUE)?;
    value_code(alloc, asm, source, second, OTHER_VALUE)?;
    asm.branch(op, VALUE, OTHER_VALUE, otherwise)
}

/// Appends what computes a truth-value, and a jump to a label where it isn't the one that is
/// wanted.
fn append_test(
    alloc: Global,
    asm: &mut Asm,
    source: &Source<'_>,
    wanted: Wanted,
    otherwise: Label,
) -> Result<(), Memory>
    requires datum { IsDatum source.now.graph.now.yielders wanted.yielder }
    requires built { is_built (yielder_at source.now.graph.now.yielders wanted.yielder) ≡ true }
    requires few { yielder_count (yielder_at source.now.graph.now.yielders wanted.yielder)
        < node_limit }
    requires label { source.now.nothing < asm.old.labels }
    requires otherwise { otherwise < asm.old.labels }
    ensures ok { OnOk result (asm.new ≡ extended asm.old (tested (places_of source.now)
        wanted.value otherwise source.now.nothing
        (yielder_at source.now.graph.now.yielders wanted.yielder))) }
    ensures words { OnOk result (HasWords
        (yielder_at source.now.graph.now.yielders wanted.yielder)) }
    ensures err { OnErr result (AppendsFrontOf (tested (places_of source.now) wanted.value otherwise
        source.now.nothing (yielder_at source.now.graph.now.yielders wanted.yielder))
        asm.old asm.new) }
{
    value_code(alloc, asm, source, wanted.yielder, VALUE)?;
    asm.branch(turned(wanted.value, BranchOp::Beq), VALUE, ZERO, otherwise)
}

/// Appends the code of a condition that is no negation.
fn append_condition(
    alloc: Global,
    asm: &mut Asm,
    source: &Source<'_>,
    wanted: Wanted,
    otherwise: Label,
) -> Result<(), Memory>
    requires datum { IsDatum source.now.graph.now.yielders wanted.yielder }
    requires built { is_built (yielder_at source.now.graph.now.yielders wanted.yielder) ≡ true }
    requires few { yielder_count (yielder_at source.now.graph.now.yielders wanted.yielder)
        < node_limit }
    requires positive { (y : Yielder) → yielder_at source.now.graph.now.yielders wanted.yielder
        ≢ OnOne Not y }
    requires label { source.now.nothing < asm.old.labels }
    requires otherwise { otherwise < asm.old.labels }
    ensures ok { OnOk result (asm.new ≡ extended asm.old (condition_items (places_of source.now)
        wanted.value otherwise source.now.nothing
        (yielder_at source.now.graph.now.yielders wanted.yielder))) }
    ensures words { OnOk result (HasWords
        (yielder_at source.now.graph.now.yielders wanted.yielder)) }
    ensures err { OnErr result (AppendsFrontOf (condition_items (places_of source.now) wanted.value
        otherwise source.now.nothing
        (yielder_at source.now.graph.now.yielders wanted.yielder)) asm.old asm.new) }
{
    match source.graph.yielder_view(wanted.yielder as usize) {
        YielderView::Truth(literal) => append_literal(asm, wanted.value, literal, otherwise),
        YielderView::OnTwo {
            operation: Two::Is,
            first,
            second,
        } => {
            let op = turned(wanted.value, BranchOp::Bne);
            append_comparison(alloc, asm, source, op, (first, second), otherwise)
        }
        YielderView::OnTwo {
            operation: Two::Less,
            first,
            second,
        } => {
            let op = turned(wanted.value, BranchOp::Bge);
            append_comparison(alloc, asm, source, op, (first, second), otherwise)
        }
        _ => append_test(alloc, asm, source, wanted, otherwise),
    }
}

/// The yielder behind all negations of a condition, and the truth-value that is wanted of it.
fn without_negations(source: &Source<'_>, yielder: u32) -> Wanted
    requires datum { IsDatum source.now.graph.now.yielders yielder }
    requires built { is_built (yielder_at source.now.graph.now.yielders yielder) ≡ true }
    ensures datum { IsDatum source.now.graph.now.yielders result.yielder }
    ensures built { is_built (yielder_at source.now.graph.now.yielders result.yielder) ≡ true }
    ensures positive { (y : Yielder) → yielder_at source.now.graph.now.yielders result.yielder
        ≢ OnOne Not y }
    ensures few { yielder_count (yielder_at source.now.graph.now.yielders result.yielder)
        ≤ yielder_count (yielder_at source.now.graph.now.yielders yielder) }
    ensures words { HasWords (yielder_at source.now.graph.now.yielders result.yielder)
        → HasWords (yielder_at source.now.graph.now.yielders yielder) }
    ensures items { (otherwise : ℕ) → condition_items (places_of source.now) true otherwise
        source.now.nothing (yielder_at source.now.graph.now.yielders yielder)
        ≡ condition_items (places_of source.now) result.value otherwise source.now.nothing
        (yielder_at source.now.graph.now.yielders result.yielder) }
{
    let mut wanted = Wanted {
        yielder,
        value: true,
    };
    while let YielderView::OnOne {
        operation: One::Not,
        argument,
    } = source.graph.yielder_view(wanted.yielder as usize)
    {
        wanted = Wanted {
            yielder: argument,
            value: !wanted.value,
        };
    }
    wanted
}

/// Appends code that goes on where a yielder yields `true`, to a label where it yields `false`,
/// and to the one of the source where it yields nothing; it may change registers from 10 on. An
/// `Err` says want of memory; the assembler then holds a front of the code, and is to be given up.
pub fn condition_code(
    alloc: Global,
    asm: &mut Asm,
    source: &Source<'_>,
    yielder: u32,
    otherwise: Label,
) -> Result<(), Memory>
    requires datum { IsDatum source.now.graph.now.yielders yielder }
    requires built { is_built (yielder_at source.now.graph.now.yielders yielder) ≡ true }
    requires few { yielder_count (yielder_at source.now.graph.now.yielders yielder) < node_limit }
    requires label { source.now.nothing < asm.old.labels }
    requires otherwise { otherwise < asm.old.labels }
    ensures items { OnOk result (asm.new ≡ extended asm.old (condition_items (places_of source.now)
        true otherwise source.now.nothing
        (yielder_at source.now.graph.now.yielders yielder))) }
    ensures decides { OnOk result (Decides (places_of source.now) otherwise source.now.nothing
        (yielder_at source.now.graph.now.yielders yielder) asm.old asm.new) }
    ensures short { OnOk result (total asm.new.items ≤ total asm.old.items
        + 15 * yielder_count (yielder_at source.now.graph.now.yielders yielder)) }
    ensures placed { OnOk result ((l : ℕ) → is_placed asm.new.items l ≡ is_placed asm.old.items l) }
    ensures quiet { OnOk result (calls asm.new.items ≡ calls asm.old.items) }
    ensures err { OnErr result (AppendsFrontOf (condition_items (places_of source.now) true otherwise
        source.now.nothing (yielder_at source.now.graph.now.yielders yielder)) asm.old asm.new) }
{
    let wanted = without_negations(source, yielder);
    append_condition(alloc, asm, source, wanted, otherwise)
}
