//! Distances in two parts, for AUIPC and the instruction behind it.

ghost use Rattle.std.specs.Prelude.{◌≡◌, ◌<◌, ◌^◌};
ghost use Rattle.rv_asm.specs.Assembly.{far_high, far_low};

/// The two parts of a distance in bytes: a multiple of 4096, and what is left, from -2048 to 2047.
#[derive(Clone, Copy)]
pub(crate) struct Far {
    pub(crate) high: i32,
    pub(crate) low: i32,
}

// What keeps a distance and its rounding to the nearest multiple of 4096 above 0.
const BIAS: u32 = 2147485696;

/// The distance between two places, each of them given as the number of instructions before it.
pub(crate) fn distance(from: u32, to: u32) -> Far
    requires from { from < 2 ^ 28 }
    requires to { to < 2 ^ 28 }
    ensures high { result.high ≡ far_high from to }
    ensures low { result.low ≡ far_low from to }
{
    let biased = 4 * to + (BIAS - 4 * from);
    let rest = biased % 4096;
    Far {
        high: (i64::from(biased - rest) - 2147483648) as i32,
        low: rest as i32 - 2048,
    }
}
