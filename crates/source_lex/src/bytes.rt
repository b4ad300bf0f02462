//! Which bytes go on an identifier.
ghost use Rattle.std.specs.Prelude.{◌≡◌, ◌≤◌, length};
ghost use Rattle.std.specs.List.{prefix_len};
ghost use Rattle.source_lex.specs.Forms.{is_name_byte};

use meta_lex::bytes::{is_digit, is_letter};

/// Tells whether the byte may stand in an identifier behind its first letter.
pub fn is_name_byte(byte: u8) -> bool
    ensures { result ≡ is_name_byte byte }
{
    is_letter(byte) || is_digit(byte) || byte == b'_'
}

/// How many bytes at the front of `rest` may go on an identifier.
pub fn name_bytes(rest: &[u8]) -> usize
    ensures value { result ≡ prefix_len is_name_byte rest.now }
    ensures within { result ≤ length rest.now }
{
    rest.iter().take_while(|byte| is_name_byte(**byte)).count()
}
