//! The registers of a machine.

ghost use Rattle.std.specs.Prelude.{◌≡◌, slice_index};
ghost use Rattle.rv_code.specs.Machine.{register, with_register};

use rv_code::Reg;

/// What a register holds, where 0 is kept for x0.
#[inline(always)]
pub(crate) fn register(registers: &[u64; 32], number: Reg) -> u64
    requires { slice_index registers.now 0 ≡ 0 }
    ensures { result ≡ register registers.now number }
{
    registers[number.number() as usize]
}

/// Sets a register. x0 stays.
#[inline(always)]
pub(crate) fn set_register(registers: &mut [u64; 32], number: Reg, value: u64)
    ensures is { registers.new ≡ with_register registers.old number value }
    ensures zero { slice_index registers.new 0 ≡ slice_index registers.old 0 }
{
    let number = number.number();
    if number != 0 {
        registers[number as usize] = value;
    }
}
