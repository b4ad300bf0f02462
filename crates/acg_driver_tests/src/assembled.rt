//! A program of far jumps and branches, built by the assembler and run by the machine.

ghost use Rattle.std.specs.Prelude.{◌≡◌, ℕ, ◌+◌, OnOk, IfOk, vec_len};
ghost use Rattle.rv_asm.specs.Assembly.{total, is_placed};
ghost use Rattle.rv_asm.specs.Pieces.{fits_immediate};

use acg_base::{ListSink, Memory};
use elf_image::{Image, read_image};
use rv_asm::pieces::{exit_with, send_word};
use rv_asm::{Asm, Code};
use rv_code::{BranchOp, Inst, OpImmOp, Reg, UpperOp};
use rv_machine::{Input, Machine, Run};
use std::alloc::Global;
use std::test::Fail;

const ZERO: Reg = Reg(0);

// Holds the address of the region, which stands at 73728: the code has more than 4096 bytes and at most 8192.
const REGION: Reg = Reg(3);

const ROUNDS: Reg = Reg(5);

const SUM: Reg = Reg(6);

const ADDRESS: Reg = Reg(7);

// Appends `rd = rs1 + imm`, so many times.
#[tactic(auto, using(rv_asm::proofs::LabelsKept::pushes))]
fn append_sums(asm: &mut Asm, rd: Reg, rs1: Reg, imm: i32, times: usize) -> Result<(), Memory>
    requires { fits_immediate imm }
    ensures labels { OnOk result (asm.new.labels ≡ asm.old.labels) }
    ensures total { OnOk result (total asm.new.items ≡ total asm.old.items + times) }
    ensures placed { OnOk result ((l : ℕ) → is_placed asm.new.items l ≡ is_placed asm.old.items l) }
{
    for _index in 0..times {
        asm.emit(Inst::OpImm {
            op: OpImmOp::Addi,
            rd,
            rs1,
            imm,
        })?;
    }
    Ok(())
}

// Adds 1 to a sum 1100 times in each of three rounds, and sends the sum and the address of the first
// instruction of a round. A round begins with a branch to its end and ends with one to its beginning, both over
// more than 4096 bytes. The last goes on to a jump to the beginning, where the first branch is taken.
#[tactic(auto, using(rv_asm::proofs::LabelsKept::pushes))]
fn rounds(alloc: Global) -> Result<Code, Memory>
    ensures { IfOk result (λ code. vec_len code.words ≡ 1129) }
{
    let mut asm = Asm::new(alloc)?;
    let again = asm.label()?;
    let done = asm.label()?;
    asm.emit(Inst::Upper {
        op: UpperOp::Lui,
        rd: REGION,
        imm: 73728,
    })?;
    append_sums(&mut asm, ROUNDS, ZERO, 3, 1)?;
    asm.place(again);
    asm.branch(BranchOp::Beq, ROUNDS, ZERO, done)?;
    append_sums(&mut asm, ROUNDS, ROUNDS, -1, 1)?;
    append_sums(&mut asm, SUM, SUM, 1, 1100)?;
    asm.branch(BranchOp::Bne, ROUNDS, ZERO, again)?;
    asm.jump(again)?;
    asm.emit(Inst::Ebreak)?;
    asm.place(done);
    asm.address(ADDRESS, again)?;
    send_word(&mut asm, SUM, 0)?;
    send_word(&mut asm, ADDRESS, 0)?;
    exit_with(&mut asm, 5)?;
    asm.finish()
}

// The headers of a file of an image: 4516 bytes of code at 65536, flag X, and at 73728 a region
// without bytes, flags R and W, of 4096 bytes.
#[rattlefmt::skip]
const HEADERS: [u8; 176] = [
    0x7f, 0x45, 0x4c, 0x46, 2, 1, 1, 0, 0, 0, 0, 0, 0, 0, 0, 0,
    2, 0, 243, 0, 1, 0, 0, 0,
    0, 0, 1, 0, 0, 0, 0, 0,
    64, 0, 0, 0, 0, 0, 0, 0,
    0, 0, 0, 0, 0, 0, 0, 0,
    0, 0, 0, 0,
    64, 0, 56, 0, 2, 0, 0, 0, 0, 0, 0, 0,
    1, 0, 0, 0, 1, 0, 0, 0,
    0, 0x10, 0, 0, 0, 0, 0, 0,
    0, 0, 1, 0, 0, 0, 0, 0,
    0, 0, 1, 0, 0, 0, 0, 0,
    0xa4, 0x11, 0, 0, 0, 0, 0, 0,
    0xa4, 0x11, 0, 0, 0, 0, 0, 0,
    0, 0x10, 0, 0, 0, 0, 0, 0,
    1, 0, 0, 0, 6, 0, 0, 0,
    0, 0, 0, 0, 0, 0, 0, 0,
    0, 0x20, 1, 0, 0, 0, 0, 0,
    0, 0x20, 1, 0, 0, 0, 0, 0,
    0, 0, 0, 0, 0, 0, 0, 0,
    0, 0x10, 0, 0, 0, 0, 0, 0,
    0, 0x10, 0, 0, 0, 0, 0, 0,
];

// The image of these words, read from its file.
fn image_of_rounds(alloc: Global) -> Result<Image, Fail> {
    let code = rounds(alloc).ok().ok_or("memory")?;
    let mut file = Vec::from_slice(alloc, &HEADERS)?;
    file.resize(4096, 0)?;
    for word in &code.words {
        file.extend_from_slice(&word.to_le_bytes())?;
    }
    Ok(read_image(alloc, &file).ok().ok_or("read")?)
}

// Two instructions come before the rounds. A round has its first branch (1, not taken), a sum, 1100 sums, and its
// last branch (3, or 1 where it isn't taken in the third round). Behind the rounds come the jump (2), the branch
// that it leads to (3), the address (2), two messages (6 each), and the exit (2, and its call, which isn't counted).
const TAKEN: u64 = 2 + 2 * (1 + 1 + 1100 + 3) + (1 + 1 + 1100 + 1) + 2 + 3 + 2 + 2 * 6 + 2;

#[test]
fn far_jumps_and_branches_arrive(rt: HostRuntime) -> Result<(), Fail> {
    let alloc = rt.alloc();
    let image = image_of_rounds(alloc)?;
    let mut machine = Machine::load(alloc, image).ok().ok_or("memory")?;
    let mut input = Input { bytes: b"", at: 0 };
    let mut sink = ListSink::new(alloc, 16, Vec::new(alloc))
        .ok()
        .ok_or("memory")?;
    assert_eq!(rt;
        machine.run(10000, &mut input, &mut sink),
        Run::Exited { code: 5 }
    );
    assert_eq!(rt; machine.taken(), TAKEN);
    assert_eq!(rt; TAKEN, 3336);

    // 3300, and 65544, behind two instructions.
    assert_eq!(rt;
        sink.bytes(),
        [0xe4, 0x0c, 0, 0, 0, 0, 0, 0, 0x08, 0, 0x01, 0, 0, 0, 0, 0].as_slice()
    );
    Ok(())
}
