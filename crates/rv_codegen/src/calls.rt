//! The code of calls: a frame for the body is opened behind that of the node, and where the body has
//! completed its data come back.

ghost use Rattle.std.specs.Prelude.{◌≡◌, ◌+◌, ◌*◌, ◌<◌, ◌≤◌, [], ◌∷◌, ◌++◌, All, OnOk, false, length, map, pos, slice_index};
ghost use Rattle.rv_code.specs.declared.instruction.Inst.TheVariants.{Load, Store, OpImm};
ghost use Rattle.rv_code.specs.declared.instruction.OpImmOp.TheVariants.{Addi};
ghost use Rattle.rv_code.specs.declared.instruction.LoadOp.TheVariants.{Ld};
ghost use Rattle.rv_code.specs.declared.instruction.StoreOp.TheVariants.{Sd};
ghost use Rattle.rv_code.specs.declared.instruction.BranchOp.TheVariants.{Bltu};
ghost use Rattle.rv_asm.specs.Assembly.{total, is_placed};
ghost use Rattle.rv_asm.specs.Pieces.{appended};
ghost use Rattle.rv_asm.specs.declared.item.Item.TheVariants.{Plain, BranchTo, Address};
ghost use Rattle.rv_codegen.specs.Aliases.{list_at, lists_of};
ghost use Rattle.rv_codegen.specs.Blocks.{first_label, full_label, start_of, stop_of, calls, leaves, table_words};
ghost use Rattle.rv_codegen.specs.CallItems.{behind_items, room_items, enter_items, call_items, fetch_items, return_items};
ghost use Rattle.rv_codegen.specs.Marks.{extended, PlacesStop};

use crate::entries::FRAME;
use crate::escapes::{append_address, first_word};
use crate::handlers::append_catch;
use crate::jumps::append_way;
use crate::plan::Plan;
use acg_base::Memory;
use rv_asm::pieces::load_constant;
use rv_asm::{Asm, Label};
use rv_code::{BranchOp, Inst, LoadOp, OpImmOp, OpOp, Reg, StoreOp};

/// Holds the address of the region.
const REGION: Reg = Reg(3);

/// Holds the address of the end of the stack, and then that at which a caller goes on.
const END: Reg = Reg(5);

/// Holds the address of the new frame.
const CALLED: Reg = Reg(6);

/// Holds the address of the end of the new frame.
const BEHIND: Reg = Reg(7);

/// Appends what puts the address so many words behind that in a register into another one. An `Err`
/// says want of memory, here and below.
fn append_behind(asm: &mut Asm, to: Reg, from: Reg, words: u32) -> Result<(), Memory>
    ensures { OnOk result (asm.new ≡ appended asm.old (behind_items to from words)) }
{
    load_constant(asm, to, 8 * u64::from(words))?;
    asm.emit(Inst::Op {
        op: OpOp::Add,
        rd: to,
        rs1: to,
        rs2: from,
    })
}

/// Loads the word so many bytes behind the address in a register.
fn append_word(asm: &mut Asm, to: Reg, from: Reg, bytes: u8) -> Result<(), Memory>
    ensures { OnOk result (asm.new ≡ appended asm.old (Load Ld to from (pos bytes) ∷ [])) }
{
    asm.emit(Inst::Load {
        op: LoadOp::Ld,
        rd: to,
        rs1: from,
        imm: i32::from(bytes),
    })
}

/// Stores the word in a register so many bytes behind the address of the new frame.
fn append_kept(asm: &mut Asm, from: Reg, bytes: u8) -> Result<(), Memory>
    ensures { OnOk result (asm.new ≡ appended asm.old (Store Sd 6 from (pos bytes) ∷ [])) }
{
    asm.emit(Inst::Store {
        op: StoreOp::Sd,
        rs1: CALLED,
        rs2: from,
        imm: i32::from(bytes),
    })
}

/// Appends what finds where the new frame begins and ends, and where the stack ends.
fn append_room(asm: &mut Asm, mine: u32, theirs: u32) -> Result<(), Memory>
    ensures { OnOk result (asm.new ≡ appended asm.old (room_items mine theirs)) }
{
    append_behind(asm, CALLED, FRAME, mine)?;
    append_behind(asm, BEHIND, CALLED, theirs)?;
    append_word(asm, END, REGION, 40)
}

/// Appends what makes the new frame that of the machine.
fn append_frame(asm: &mut Asm) -> Result<(), Memory>
    ensures { OnOk result (asm.new ≡ appended asm.old (OpImm Addi 2 6 (pos 0) ∷ [])) }
{
    asm.emit(Inst::OpImm {
        op: OpImmOp::Addi,
        rd: FRAME,
        rs1: CALLED,
        imm: 0,
    })
}

/// Appends what enters the new frame with what the node is given, where the body finds it.
fn append_enter(asm: &mut Asm, given: &[u32], wanted: &[u32]) -> Result<(), Memory>
    requires given { All (λ o. o < 33554432) given.now }
    requires few { length wanted.now ≤ 64 }
    requires wanted { All (λ o. o < 33554432) wanted.now }
    ensures { OnOk result (asm.new ≡ appended asm.old (enter_items given.now wanted.now)) }
{
    append_kept(asm, END, 0)?;
    append_kept(asm, FRAME, 8)?;
    append_address(asm, first_word(given))?;
    append_frame(asm)?;
    append_catch(asm, wanted)
}

/// Appends what tests whether there is room for the frame of a body, and has it return to the stop
/// of node k.
fn append_test(asm: &mut Asm, plan: Plan<'_, '_, '_>, k: usize, body: usize) -> Result<(), Memory>
    requires node { k < length plan.graph.now.nodes }
    requires body { body < length plan.graph.now.nodes }
    requires made { first_label + length plan.labels.row.now ≤ asm.old.labels }
    ensures { OnOk result (asm.new ≡ extended asm.old
        (map Plain (room_items (slice_index plan.entry.frames.now k)
        (slice_index plan.entry.frames.now body))
        ++ (BranchTo Bltu 5 7 full_label ∷ Address 5 (stop_of k) ∷ []))) }
{
    append_room(asm, plan.frame_at(k), plan.frame_at(body))?;
    asm.branch(BranchOp::Bltu, END, BEHIND, plan.entries.full)?;
    asm.address(END, plan.labels.stop(k))
}

/// Appends what calls a body for node k.
fn append_call(asm: &mut Asm, plan: Plan<'_, '_, '_>, k: usize, body: usize) -> Result<(), Memory>
    requires node { k < length plan.graph.now.nodes }
    requires body { body < length plan.graph.now.nodes }
    requires made { first_label + length plan.labels.row.now ≤ asm.old.labels }
    ensures { OnOk result (asm.new ≡ extended asm.old
        (call_items (slice_index plan.entry.frames.now k)
        (slice_index plan.entry.frames.now body)
        (list_at (lists_of plan.entry.given.now) k)
        (list_at (lists_of plan.entry.given.now) body) full_label (stop_of k) (start_of body))) }
{
    append_test(asm, plan, k, body)?;
    append_enter(asm, plan.given_at(k), plan.given_at(body))?;
    asm.jump(plan.labels.start(body))
}

/// Appends what takes back what a body has left at some words of its frame, and leaves it at words
/// of the caller's.
fn append_fetch(asm: &mut Asm, left: &[u32], wanted: &[u32]) -> Result<(), Memory>
    requires left { All (λ o. o < 33554432) left.now }
    requires few { length wanted.now ≤ 64 }
    requires wanted { All (λ o. o < 33554432) wanted.now }
    ensures { OnOk result (asm.new ≡ appended asm.old (fetch_items left.now wanted.now)) }
{
    append_address(asm, first_word(left))?;
    append_word(asm, FRAME, FRAME, 8)?;
    append_catch(asm, wanted)
}

/// Appends what calls a body for node k, and takes back what it has left.
fn append_called(asm: &mut Asm, plan: Plan<'_, '_, '_>, k: usize, body: usize) -> Result<(), Memory>
    requires node { k < length plan.graph.now.nodes }
    requires body { body < length plan.graph.now.nodes }
    requires made { first_label + length plan.labels.row.now ≤ asm.old.labels }
    requires stop { is_placed asm.old.items (stop_of k) ≡ false }
    ensures { OnOk result (asm.new ≡ extended asm.old
        (calls (table_words (lists_of plan.entry.given.now) (lists_of plan.entry.out.now)
        (lists_of plan.entry.escaped.now) plan.entry.keeps.now plan.entry.frames.now k)
        (table_words (lists_of plan.entry.given.now) (lists_of plan.entry.out.now)
        (lists_of plan.entry.escaped.now) plan.entry.keeps.now plan.entry.frames.now body)
        k body)) }
{
    append_call(asm, plan, k, body)?;
    asm.place(plan.labels.stop(k));
    append_fetch(asm, plan.out_at(body), plan.out_at(k))
}

/// Appends the code of node k behind its start where it calls a body and goes on at a label.
pub(crate) fn append_calling(
    asm: &mut Asm,
    plan: Plan<'_, '_, '_>,
    k: usize,
    exit: Label,
    body: usize,
) -> Result<(), Memory>
    requires node { k < length plan.graph.now.nodes }
    requires body { body < length plan.graph.now.nodes }
    requires made { first_label + length plan.labels.row.now ≤ asm.old.labels }
    requires exit { exit < asm.old.labels }
    requires stop { is_placed asm.old.items (stop_of k) ≡ false }
    ensures items { OnOk result (asm.new ≡ extended asm.old
        (calls (table_words (lists_of plan.entry.given.now) (lists_of plan.entry.out.now)
        (lists_of plan.entry.escaped.now) plan.entry.keeps.now plan.entry.frames.now k)
        (table_words (lists_of plan.entry.given.now) (lists_of plan.entry.out.now)
        (lists_of plan.entry.escaped.now) plan.entry.keeps.now plan.entry.frames.now body)
        k body ++ leaves k exit)) }
    ensures marks { OnOk result (PlacesStop k asm.old.items asm.new.items) }
    ensures short { OnOk result (total asm.new.items ≤ total asm.old.items + 400) }
{
    let next = plan.labels.front(k + 1);
    append_called(asm, plan, k, body)?;
    append_way(asm, next, exit)
}

/// Appends the way back of bodies that have completed.
pub(crate) fn append_return(asm: &mut Asm) -> Result<(), Memory>
    ensures { OnOk result (asm.new ≡ appended asm.old return_items) }
{
    append_word(asm, END, FRAME, 0)?;
    asm.emit(Inst::Jalr {
        rd: Reg(0),
        rs1: END,
        imm: 0,
    })
}
