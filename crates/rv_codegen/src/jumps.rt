//! The way from one label to another.

ghost use Rattle.std.specs.Prelude.{◌≡◌, ℕ, ◌+◌, ◌<◌, ◌≤◌, OnOk};
ghost use Rattle.rv_asm.specs.Assembly.{total};
ghost use Rattle.rv_codegen.specs.Blocks.{goes};
ghost use Rattle.rv_codegen.specs.Marks.{extended, PlacesStop};

use acg_base::Memory;
use rv_asm::{Asm, Label};

/// Appends the way to a label from before another: nothing where that is the one.
#[tactic(auto, using(crate::proofs::Fresh::freshness))]
pub(crate) fn append_way(asm: &mut Asm, next: Label, label: Label) -> Result<(), Memory>
    requires { label < asm.old.labels }
    ensures items { OnOk result (asm.new ≡ extended asm.old (goes next label)) }
    ensures marks { OnOk result ((k : ℕ) → PlacesStop k asm.old.items asm.new.items) }
    ensures short { OnOk result (total asm.new.items ≤ total asm.old.items + 2) }
{
    if label == next {
        return Ok(());
    }
    asm.jump(label)
}
