//! Whether the frame of the main procedure fits the stack, and the code where it doesn't.

ghost use Rattle.std.specs.Prelude.{◌≡◌, IfOk, Some, map};
ghost use Rattle.rv_code.specs.Encode.{encode};
ghost use Rattle.rv_asm.specs.Pieces.{exit_with};
ghost use Rattle.frame_layout.specs.Places.{frames_of};
ghost use Rattle.rv_codegen.specs.Aliases.{words_at};

use acg_base::Memory;
use frame_layout::Layout;
use rv_asm::pieces::exit_with;
use rv_asm::{Asm, Code};
use std::alloc::Global;

/// The exit code of an action whose performance needs more than there is.
const FULL: u8 = 3;

/// How many words the frame of the main procedure has.
pub(crate) fn main_words(layout: &Layout<'_>) -> u32
    ensures { result ≡ words_at (frames_of layout.now) 0 }
{
    for procedure in layout.procedures {
        if procedure.root == 0 {
            return procedure.words;
        }
    }
    0
}

/// The code that exits as full at once.
pub(crate) fn full_code(alloc: Global) -> Result<Code, Memory>
    ensures { IfOk result (λ code. map Some code.words.items ≡ map encode (exit_with 3)) }
{
    let mut asm = Asm::new(alloc)?;
    exit_with(&mut asm, FULL)?;
    asm.finish()
}
