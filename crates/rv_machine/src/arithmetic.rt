//! What the operations compute.

ghost use Rattle.std.specs.Prelude.{◌≡◌, ◌<◌, ◌≤◌, ◌^◌, ◌+◌, ◌-◌, ◌*◌, nat_lt, if◌then◌else◌};
ghost use Rattle.rv_code.specs.Arithmetic.{wrap, operation, immediate_operation, shift_operation, is_taken, upper_value, signed_word, word, unsigned, load_size, extended, store_size};
ghost use Rattle.rv_machine.specs.Memory.{IsSize};

use rv_code::{BranchOp, LoadOp, OpImmOp, OpOp, ShiftOp, StoreOp, UpperOp};

// The integer that the lowest 32 bits are.
fn signed_word(value: u64) -> i32
    ensures { result ≡ signed_word value }
{
    ((value % 0x1_0000_0000) as u32).cast_signed()
}

// The lowest 32 bits, extended to 64 by their sign.
fn word(value: u64) -> u64
    ensures { result ≡ word value }
{
    i64::from(signed_word(value)).cast_unsigned()
}

// The 64 bits that an integer of 32 bits is.
fn unsigned(value: i32) -> u64
    ensures { result ≡ unsigned value }
{
    i64::from(value).cast_unsigned()
}

fn mulh(a: u64, b: u64) -> u64
    ensures { result ≡ operation OpOp.Mulh a b }
{
    let product = i128::from(a.cast_signed()) * i128::from(b.cast_signed());
    ((product >> 64) as i64).cast_unsigned()
}

fn mulhsu(a: u64, b: u64) -> u64
    ensures { result ≡ operation OpOp.Mulhsu a b }
{
    let product = i128::from(a.cast_signed()) * i128::from(b);
    ((product >> 64) as i64).cast_unsigned()
}

fn mulhu(a: u64, b: u64) -> u64
    ensures { result ≡ operation OpOp.Mulhu a b }
{
    ((u128::from(a) * u128::from(b)) >> 64) as u64
}

fn div(a: u64, b: u64) -> u64
    ensures { result ≡ operation OpOp.Div a b }
{
    if b == 0 {
        u64::MAX
    } else {
        a.cast_signed()
            .wrapping_div(b.cast_signed())
            .cast_unsigned()
    }
}

fn divu(a: u64, b: u64) -> u64
    ensures { result ≡ operation OpOp.Divu a b }
{
    if b == 0 { u64::MAX } else { a / b }
}

fn rem(a: u64, b: u64) -> u64
    ensures { result ≡ operation OpOp.Rem a b }
{
    if b == 0 {
        a
    } else {
        a.cast_signed()
            .wrapping_rem(b.cast_signed())
            .cast_unsigned()
    }
}

fn remu(a: u64, b: u64) -> u64
    ensures { result ≡ operation OpOp.Remu a b }
{
    if b == 0 { a } else { a % b }
}

fn divw(a: u64, b: u64) -> u64
    ensures { result ≡ operation OpOp.Divw a b }
{
    let divisor = signed_word(b);
    if divisor == 0 {
        u64::MAX
    } else {
        word((i64::from(signed_word(a)) / i64::from(divisor)).cast_unsigned())
    }
}

fn divuw(a: u64, b: u64) -> u64
    ensures { result ≡ operation OpOp.Divuw a b }
{
    let divisor = b % 0x1_0000_0000;
    if divisor == 0 {
        u64::MAX
    } else {
        word(a % 0x1_0000_0000 / divisor)
    }
}

fn remw(a: u64, b: u64) -> u64
    ensures { result ≡ operation OpOp.Remw a b }
{
    let divisor = signed_word(b);
    if divisor == 0 {
        word(a)
    } else {
        (i64::from(signed_word(a)) % i64::from(divisor)).cast_unsigned()
    }
}

fn remuw(a: u64, b: u64) -> u64
    ensures { result ≡ operation OpOp.Remuw a b }
{
    let divisor = b % 0x1_0000_0000;
    if divisor == 0 {
        word(a)
    } else {
        word(a % 0x1_0000_0000 % divisor)
    }
}

/// What an operation on two registers gives.
#[inline(always)]
pub(crate) fn operation(op: OpOp, a: u64, b: u64) -> u64
    ensures { result ≡ operation op a b }
{
    match op {
        OpOp::Add => a.wrapping_add(b),
        OpOp::Sub => a.wrapping_sub(b),
        OpOp::Sll => a << (b % 64),
        OpOp::Slt => u64::from(a.cast_signed() < b.cast_signed()),
        OpOp::Sltu => u64::from(a < b),
        OpOp::Xor => a ^ b,
        OpOp::Srl => a >> (b % 64),
        OpOp::Sra => (a.cast_signed() >> (b % 64)).cast_unsigned(),
        OpOp::Or => a | b,
        OpOp::And => a & b,
        OpOp::Addw => word(a.wrapping_add(b)),
        OpOp::Subw => word(a.wrapping_sub(b)),
        OpOp::Sllw => word(a << (b % 32)),
        OpOp::Srlw => word((a % 0x1_0000_0000) >> (b % 32)),
        OpOp::Sraw => unsigned(signed_word(a) >> (b % 32)),
        OpOp::Mul => a.wrapping_mul(b),
        OpOp::Mulh => mulh(a, b),
        OpOp::Mulhsu => mulhsu(a, b),
        OpOp::Mulhu => mulhu(a, b),
        OpOp::Div => div(a, b),
        OpOp::Divu => divu(a, b),
        OpOp::Rem => rem(a, b),
        OpOp::Remu => remu(a, b),
        OpOp::Mulw => word(a.wrapping_mul(b)),
        OpOp::Divw => divw(a, b),
        OpOp::Divuw => divuw(a, b),
        OpOp::Remw => remw(a, b),
        OpOp::Remuw => remuw(a, b),
    }
}

/// What an operation on a register and an immediate gives.
#[inline(always)]
pub(crate) fn immediate_operation(op: OpImmOp, a: u64, immediate: i32) -> u64
    ensures { result ≡ immediate_operation op a immediate }
{
    let bits = unsigned(immediate);
    match op {
        OpImmOp::Addi => a.wrapping_add(bits),
        OpImmOp::Slti => u64::from(a.cast_signed() < i64::from(immediate)),
        OpImmOp::Sltiu => u64::from(a < bits),
        OpImmOp::Xori => a ^ bits,
        OpImmOp::Ori => a | bits,
        OpImmOp::Andi => a & bits,
        OpImmOp::Addiw => word(a.wrapping_add(bits)),
    }
}

/// What a shift by a constant amount gives.
#[inline(always)]
pub(crate) fn shift_operation(op: ShiftOp, a: u64, amount: u8) -> u64
    requires { amount < 64 }
    ensures { result ≡ shift_operation op a amount }
{
    match op {
        ShiftOp::Slli => a << amount,
        ShiftOp::Srli => a >> amount,
        ShiftOp::Srai => (a.cast_signed() >> amount).cast_unsigned(),
        ShiftOp::Slliw => word(a << amount),
        ShiftOp::Srliw => word((a % 0x1_0000_0000) >> amount),
        ShiftOp::Sraiw => (i64::from(signed_word(a)) >> amount).cast_unsigned(),
    }
}

/// Whether a branch is taken.
#[inline(always)]
pub(crate) fn is_taken(op: BranchOp, a: u64, b: u64) -> bool
    ensures { result ≡ is_taken op a b }
{
    match op {
        BranchOp::Beq => a == b,
        BranchOp::Bne => a != b,
        BranchOp::Blt => a.cast_signed() < b.cast_signed(),
        BranchOp::Bge => a.cast_signed() >= b.cast_signed(),
        BranchOp::Bltu => a < b,
        BranchOp::Bgeu => a >= b,
    }
}

/// What an instruction with an upper immediate gives.
#[inline(always)]
pub(crate) fn upper_value(op: UpperOp, pc: u64, immediate: i32) -> u64
    ensures { result ≡ upper_value op pc immediate }
{
    match op {
        UpperOp::Lui => unsigned(immediate),
        UpperOp::Auipc => offset(pc, immediate),
    }
}

// The number, whose bits from the sign bit up are those of the sign bit.
fn sign_extended(number: u64, sign: u64) -> u64
    requires sign { (0 < sign) × (sign < 2 ^ 63) }
    requires number { number < 2 * sign }
    ensures { result ≡ (if nat_lt number sign then number else number + (2 ^ 64 - 2 * sign)) }
{
    if number < sign {
        number
    } else {
        number + (u64::MAX - (2 * sign - 1))
    }
}

/// What a load makes of the number that its bytes spell.
#[inline(always)]
pub(crate) fn extended(op: LoadOp, number: u64) -> u64
    requires { number < 2 ^ (8 * load_size op) }
    ensures { result ≡ extended op number }
{
    match op {
        LoadOp::Lb => sign_extended(number, 0x80),
        LoadOp::Lh => sign_extended(number, 0x8000),
        LoadOp::Lw => sign_extended(number, 0x8000_0000),
        LoadOp::Ld | LoadOp::Lbu | LoadOp::Lhu | LoadOp::Lwu => number,
    }
}

/// How many bytes a load reads.
#[inline(always)]
pub(crate) fn load_size(op: LoadOp) -> u64
    ensures is { result ≡ load_size op }
    ensures size { IsSize result }
{
    match op {
        LoadOp::Lb | LoadOp::Lbu => 1,
        LoadOp::Lh | LoadOp::Lhu => 2,
        LoadOp::Lw | LoadOp::Lwu => 4,
        LoadOp::Ld => 8,
    }
}

/// How many bytes a store writes.
#[inline(always)]
pub(crate) fn store_size(op: StoreOp) -> u64
    ensures is { result ≡ store_size op }
    ensures size { IsSize result }
{
    match op {
        StoreOp::Sb => 1,
        StoreOp::Sh => 2,
        StoreOp::Sw => 4,
        StoreOp::Sd => 8,
    }
}

/// The address at an offset from another.
#[inline(always)]
pub(crate) fn offset(address: u64, immediate: i32) -> u64
    ensures { result ≡ wrap (address + unsigned immediate) }
{
    address.wrapping_add(unsigned(immediate))
}
