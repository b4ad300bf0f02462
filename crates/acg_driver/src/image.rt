//! Images of compiled code.

ghost use Rattle.std.specs.Prelude.{◌≡◌, ◌+◌, ◌*◌, ◌≤◌, length, IfOk};
ghost use Rattle.rv_code.specs.Images.{IsImage};
ghost use Rattle.rv_asm.specs.Conventions.{instruction_bytes, region_address, region_size};
ghost use Rattle.rv_codegen.specs.RightImage.{compiled_image};
ghost use Rattle.acg_words.specs.Settings.{IsCapacity};

use acg_base::{Capacity, Memory};
use elf_image::{Image, Segment};
use std::alloc::Global;

// Where the code stands, and the run begins.
const CODE_ADDRESS: u64 = 65536;

// The words of code as bytes, 4 for each, the lowest first.
#[tactic(auto, unfolding(rv_asm::specs::Conventions::instruction_bytes))]
fn bytes_of_words(alloc: Global, words: &[u32]) -> Result<Vec<u8>, Memory>
    ensures { IfOk result (λ bytes. bytes.items ≡ instruction_bytes words.now) }
{
    let mut bytes = Vec::new(alloc);
    for word in words {
        bytes.extend_from_slice(&word.to_le_bytes())?;
    }
    Ok(bytes)
}

/// The image of compiled code for a capacity: the code, which can be fetched, and behind it the
/// region of the run, which can be read and written.
pub fn compiled_image(alloc: Global, words: &[u32], capacity: Capacity) -> Result<Image, Memory>
    requires capacity { IsCapacity capacity }
    requires image { IsImage
        (compiled_image (instruction_bytes words.now) capacity.stack capacity.units) }
    ensures { IfOk result (λ image. image ≡
        compiled_image (instruction_bytes words.now) capacity.stack capacity.units) }
{
    let bytes = bytes_of_words(alloc, words)?;
    let size = bytes.len() as u64;
    let code = Segment {
        address: CODE_ADDRESS,
        flags: 1,
        bytes,
        size,
    };
    let region = Segment {
        address: (CODE_ADDRESS + size + 4095) / 4096 * 4096,
        flags: 6,
        bytes: Vec::new(alloc),
        size: 4096 + 8 * capacity.stack + 16 * capacity.units,
    };
    let mut segments = Vec::with_capacity(alloc, 2)?;
    segments.push(code)?;
    segments.push(region)?;
    Ok(Image {
        entry: CODE_ADDRESS,
        segments,
    })
}
