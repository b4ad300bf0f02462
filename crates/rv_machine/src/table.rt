//! Instructions that are decoded once, when a machine is loaded.

ghost use Rattle.std.specs.Prelude.{◌≡◌, ◌+◌, ◌*◌, ◌^◌, ◌<◌, ◌≤◌, IfSome};
ghost use Rattle.rv_machine.specs.Memory.{IsTable};

use crate::block::{Block, code_place, fixed};
use rv_code::Inst;
use std::alloc::Global;

// The most words of code that a table has: those of 64 MB.
const MOST: u64 = 0x100_0000;

/// The place of the instruction at the pc among `count` of them from an address on.
#[inline(always)]
pub(crate) fn place(pc: u64, address: u64, count: usize) -> Option<usize>
    ensures below { IfSome result (λ place. place < count) }
    ensures there { address + 4 * count ≤ 2 ^ 64 → IfSome result (λ place. pc ≡ address + 4 * place) }
{
    let distance = pc.wrapping_sub(address);
    let place = distance / 4;
    if distance % 4 != 0 || place >= count as u64 {
        return None;
    }
    Some(place as usize)
}

/// An address, and the instructions of the words from there on: of the first block with the flag X, as far as no block
/// with the flag W has them. There are none where the address isn't a multiple of 4, or memory for them is wanting.
pub(crate) fn decoded(alloc: Global, blocks: &[Block]) -> (u64, Vec<Option<Inst>>)
    ensures { IsTable blocks.now result.0 result.1.items }
{
    let (address, words) = code_place(blocks);
    if address % 4 != 0 || address >= 0x1_0000_0000 || words > MOST {
        return (0, Vec::new(alloc));
    }
    let Ok(mut code) = Vec::with_capacity(alloc, words as usize) else {
        return (0, Vec::new(alloc));
    };
    for k in 0..words {
        let Some(entry) = fixed(blocks, address + 4 * k) else {
            return (address, code);
        };
        if code.push(entry).is_err() {
            return (address, code);
        }
    }
    (address, code)
}
