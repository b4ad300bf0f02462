//! Pieces whose words another assembler, llvm-mc, gave.

use crate::pieces::copy_words;
use crate::program::messages_program;
use crate::{Asm, Code};
use acg_base::Memory;
use rv_code::Reg;
use std::alloc::Global;
use std::test::Fail;

// Two words, from one behind the region's address to four behind the frame's.
fn copies(alloc: Global) -> Result<Code, Memory> {
    let mut asm = Asm::new(alloc)?;
    copy_words(&mut asm, 2, Reg(5), Reg(3), 1, Reg(2), 4)?;
    asm.finish()
}

#[test]
fn messages_by_words_of_another_assembler(rt: HostRuntime) -> Result<(), Fail> {
    let code = messages_program(rt.alloc(), &[5, 0xfffffffffffffff9, 0x123456789abcdef0])?;
    assert_eq!(rt;
        code.words.as_slice(),
        [
            0x000111b7, 0x00018193, 0x00500513, 0x00a1b023, 0x00018593, 0x00800613, 0x04000893,
            0x00100513, 0x00000073, 0xff900513, 0x00a1b023, 0x00018593, 0x00800613, 0x04000893,
            0x00100513, 0x00000073, 0x01234537, 0x56850513, 0x00c51513, 0x89b50513, 0x00c51513,
            0xbce50513, 0x00c51513, 0xef050513, 0x00a1b023, 0x00018593, 0x00800613, 0x04000893,
            0x00100513, 0x00000073, 0x00000513, 0x05d00893, 0x00000073
        ]
        .as_slice()
    );
    Ok(())
}

#[test]
fn copies_by_words_of_another_assembler(rt: HostRuntime) -> Result<(), Fail> {
    let code = copies(rt.alloc())?;
    assert_eq!(rt;
        code.words.as_slice(),
        [0x0081b283, 0x02513023, 0x0101b283, 0x02513423].as_slice()
    );
    Ok(())
}
