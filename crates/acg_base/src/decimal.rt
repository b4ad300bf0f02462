//! Decimals of numbers, written and read.

ghost use Rattle.std.specs.Prelude.{◌≡◌, ◌+◌, ◌≤◌, ◌++◌, length, take, drop, Some};
ghost use Rattle.acg_base.specs.Decimals.{unsigned_decimal_of, decimal_of, spelled_number, spelled_i64};

use std::str;

/// Reads a decimal: `-` or nothing, and then one digit or more, leading zeros among them.
///
/// Answers `None` exactly where the bytes are no such text, or where its value isn't one of 64 signed
/// bits.
pub fn read_decimal(bytes: &[u8]) -> Option<i64>
    ensures { result ≡ spelled_i64 bytes.now }
{
    if !bytes.is_empty() && bytes[0] == b'+' {
        return None;
    }
    match str::from_utf8(bytes) {
        Ok(text) => text.parse().ok(),
        Err(_) => None,
    }
}

/// Writes the decimal of the value at the front of `out`, and answers how many bytes it has.
#[tactic(auto, using(crate::proofs::DecimalLemmas::decimals))]
pub fn decimal_into(value: i64, out: &mut [u8; 20]) -> usize
    ensures written { take result out.new ≡ decimal_of value }
    ensures read_back { spelled_i64 (take result out.new) ≡ Some value }
    ensures bound { result ≤ 20 }
    ensures rest { drop result out.new ≡ drop result out.old }
{
    let magnitude = value.unsigned_abs();
    if value >= 0 {
        return write_digits(magnitude, out, 0);
    }
    out[0] = b'-';
    write_digits(magnitude, out, 1)
}

/// Writes the decimal of the value at the front of `out`, and answers how many bytes it has.
#[tactic(auto, using(crate::proofs::DecimalLemmas::decimals))]
pub fn unsigned_into(value: u64, out: &mut [u8; 20]) -> usize
    ensures written { take result out.new ≡ unsigned_decimal_of value }
    ensures read_back { spelled_number (take result out.new) ≡ Some value }
    ensures bound { result ≤ 20 }
    ensures rest { drop result out.new ≡ drop result out.old }
{
    write_digits(value, out, 0)
}

// Writes the digits of the value from `start` on, and answers where they end.
#[tactic(auto, using(crate::proofs::DecimalLemmas::decimals))]
fn write_digits(value: u64, out: &mut [u8], start: usize) -> usize
    requires { start + length (unsigned_decimal_of value) ≤ length out.old }
    ensures end { result ≡ start + length (unsigned_decimal_of value) }
    ensures written { take result out.new ≡ take start out.old ++ unsigned_decimal_of value }
    ensures rest { drop result out.new ≡ drop result out.old }
{
    if value < 10 {
        out[start] = b'0' + value as u8;
        return start + 1;
    }
    let place = write_digits(value / 10, out, start);
    out[place] = b'0' + (value % 10) as u8;
    place + 1
}
