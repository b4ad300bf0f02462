//! A small program that sends messages: what a run of assembled code shows, from its words to each moment of it.

ghost use Rattle.std.specs.Prelude.{◌≤◌, length, IfOk};
ghost use Rattle.rv_asm.specs.Messages.{SendsAlways};

use crate::asm::{Asm, Code};
use crate::pieces::{exit_with, load_constant, send_word};
use acg_base::Memory;
use rv_code::Reg;
use std::alloc::Global;

/// A program that sends the words in order, each as its 8 bytes, and exits with 0. Its region stands at address 69632.
/// An `Err` says want of memory.
pub fn messages_program(alloc: Global, messages: &[u64]) -> Result<Code, Memory>
    requires { length messages.now ≤ 64 }

    // Whatever the capacity and the input: after every number of instructions.
    ensures { IfOk result (λ code. SendsAlways messages.now code.words.items) }
{
    let mut asm = Asm::new(alloc)?;
    load_constant(&mut asm, Reg(3), 69632)?;
    for message in messages {
        load_constant(&mut asm, Reg(10), *message)?;
        send_word(&mut asm, Reg(10), 0)?;
    }
    exit_with(&mut asm, 0)?;
    asm.finish()
}
