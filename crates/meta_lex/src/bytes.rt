//! Tests of single bytes, and how many bytes at the front of a text pass one.
ghost use Rattle.std.specs.Prelude.{◌≡◌, ◌≤◌, length};
ghost use Rattle.std.specs.List.{prefix_len};
ghost use Rattle.meta_lex.specs.Bytes.{is_letter, is_digit, is_word_byte, is_quotable, is_blank, is_single, is_bracket};

/// Tells whether the byte is an ASCII letter.
pub fn is_letter(byte: u8) -> bool
    ensures { result ≡ is_letter byte }
{
    byte.is_ascii_alphabetic()
}

/// Tells whether the byte is a decimal digit.
pub fn is_digit(byte: u8) -> bool
    ensures { result ≡ is_digit byte }
{
    byte.is_ascii_digit()
}

/// Tells whether the byte may stand in a word after its first letter.
pub fn is_word_byte(byte: u8) -> bool
    ensures { result ≡ is_word_byte byte }
{
    is_letter(byte) || is_digit(byte) || byte == b'-'
}

/// Tells whether the byte may stand between the quotes of a quoted text.
pub fn is_quotable(byte: u8) -> bool
    ensures { result ≡ is_quotable byte }
{
    byte.is_ascii_graphic() && byte != b'"'
}

/// Tells whether the byte is skipped between tokens.
pub fn is_blank(byte: u8) -> bool
    ensures { result ≡ is_blank byte }
{
    matches!(byte, b'\t' | b'\n' | b'\r' | b' ')
}

/// Tells whether the byte is a symbol of its own.
pub fn is_single(byte: u8) -> bool
    ensures { result ≡ is_single byte }
{
    matches!(
        byte,
        b'(' | b')' | b',' | b'#' | b'.' | b'=' | b'|' | b':' | b'_'
    )
}

/// Tells whether two of the byte are a symbol.
pub fn is_bracket(byte: u8) -> bool
    ensures { result ≡ is_bracket byte }
{
    matches!(byte, b'[' | b']')
}

/// How many bytes at the front of `rest` may go on a word.
pub fn word_bytes(rest: &[u8]) -> usize
    ensures value { result ≡ prefix_len is_word_byte rest.now }
    ensures within { result ≤ length rest.now }
{
    rest.iter().take_while(|byte| is_word_byte(**byte)).count()
}

/// How many digits stand at the front of `rest`.
pub fn digits(rest: &[u8]) -> usize
    ensures value { result ≡ prefix_len is_digit rest.now }
    ensures within { result ≤ length rest.now }
{
    rest.iter().take_while(|byte| is_digit(**byte)).count()
}

/// How many bytes at the front of `rest` may stand between quotes.
pub fn quotable_bytes(rest: &[u8]) -> usize
    ensures value { result ≡ prefix_len is_quotable rest.now }
    ensures within { result ≤ length rest.now }
{
    rest.iter().take_while(|byte| is_quotable(**byte)).count()
}

/// How many blanks stand at the front of `rest`.
pub fn blanks(rest: &[u8]) -> usize
    ensures value { result ≡ prefix_len is_blank rest.now }
    ensures within { result ≤ length rest.now }
{
    rest.iter().take_while(|byte| is_blank(**byte)).count()
}
