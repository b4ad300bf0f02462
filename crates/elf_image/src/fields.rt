//! Fields of image files: numbers, the lowest byte first.

ghost use Rattle.std.specs.Prelude.{◌≡◌, ◌+◌, ◌≤◌, ◌++◌, length, OnOk};
ghost use Rattle.elf_image.specs.Fields.{field, number};

use acg_base::Memory;
use byteorder::{ByteOrder, LittleEndian};

/// The number in the two bytes from a place on.
#[tactic(auto, unfolding(crate::specs::Fields::number))]
pub(crate) fn number_2(bytes: &[u8], at: usize) -> u16
    requires { at + 2 ≤ length bytes.now }
    ensures { result ≡ number 2 at bytes.now }
{
    LittleEndian::read_u16(&bytes[at..])
}

/// The number in the four bytes from a place on.
#[tactic(auto, unfolding(crate::specs::Fields::number))]
pub(crate) fn number_4(bytes: &[u8], at: usize) -> u32
    requires { at + 4 ≤ length bytes.now }
    ensures { result ≡ number 4 at bytes.now }
{
    LittleEndian::read_u32(&bytes[at..])
}

/// The number in the eight bytes from a place on.
#[tactic(auto, unfolding(crate::specs::Fields::number))]
pub(crate) fn number_8(bytes: &[u8], at: usize) -> u64
    requires { at + 8 ≤ length bytes.now }
    ensures { result ≡ number 8 at bytes.now }
{
    LittleEndian::read_u64(&bytes[at..])
}

/// Appends the two bytes of a number.
#[tactic(auto, unfolding(crate::specs::Fields::field))]
pub(crate) fn put_2(out: &mut Vec<u8>, number: u16) -> Result<(), Memory>
    ensures { OnOk result (out.new.items ≡ out.old.items ++ field 2 number) }
{
    let mut bytes = [0; 2];
    LittleEndian::write_u16(&mut bytes, number);
    out.extend_from_slice(&bytes)?;
    Ok(())
}

/// Appends the four bytes of a number.
#[tactic(auto, unfolding(crate::specs::Fields::field))]
pub(crate) fn put_4(out: &mut Vec<u8>, number: u32) -> Result<(), Memory>
    ensures { OnOk result (out.new.items ≡ out.old.items ++ field 4 number) }
{
    let mut bytes = [0; 4];
    LittleEndian::write_u32(&mut bytes, number);
    out.extend_from_slice(&bytes)?;
    Ok(())
}

/// Appends the eight bytes of a number.
#[tactic(auto, unfolding(crate::specs::Fields::field))]
pub(crate) fn put_8(out: &mut Vec<u8>, number: u64) -> Result<(), Memory>
    ensures { OnOk result (out.new.items ≡ out.old.items ++ field 8 number) }
{
    let mut bytes = [0; 8];
    LittleEndian::write_u64(&mut bytes, number);
    out.extend_from_slice(&bytes)?;
    Ok(())
}
