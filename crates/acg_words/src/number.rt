//! Numbers of command lines.

ghost use Rattle.std.specs.Prelude.{◌≡◌};
ghost use Rattle.acg_words.specs.Commands.{schedule_number};

use acg_base::read_decimal;

/// A number without a sign, below 2^63.
pub(crate) fn read_number(bytes: &[u8]) -> Option<u64>
    ensures { result ≡ schedule_number bytes.now }
{
    match bytes {
        [b'-', ..] => None,
        digits => Some(read_decimal(digits)? as u64),
    }
}
