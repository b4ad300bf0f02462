//! Instructions appended one after another.

ghost use Rattle.std.specs.Prelude.{◌≡◌, OnOk, OnErr, IsTrue, map};
ghost use Rattle.rv_asm.specs.declared.item.Item.TheVariants.{Plain};
ghost use Rattle.rv_yield.specs.Fronts.{extended, AppendsFrontOf, are_in_format};

use acg_base::Memory;
use rv_asm::Asm;
use rv_code::Inst;

/// Appends instructions.
pub(crate) fn append_all(asm: &mut Asm, insts: &[Inst]) -> Result<(), Memory>
    requires { IsTrue (are_in_format insts.now) }
    ensures ok { OnOk result (asm.new ≡ extended asm.old (map Plain insts.now)) }
    ensures err { OnErr result (AppendsFrontOf (map Plain insts.now) asm.old asm.new) }
{
    for inst in insts {
        asm.emit(*inst)?;
    }
    Ok(())
}
