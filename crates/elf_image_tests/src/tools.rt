//! A file and changes of it.

use std::alloc::Global;
use std::process::Abort;
use std::test::Fail;

/// Places of a file, and the bytes that stand there instead.
pub type Changes<'a> = &'a [(usize, &'a [u8])];

/// The headers of the file of an image with the entry 65536 and one segment of 12 bytes there, flags R and X.
#[rattlefmt::skip]
pub const HEADERS: [u8; 120] = [
    0x7f, 0x45, 0x4c, 0x46, 2, 1, 1, 0, 0, 0, 0, 0, 0, 0, 0, 0,
    2, 0, 243, 0, 1, 0, 0, 0,
    0, 0, 1, 0, 0, 0, 0, 0,
    64, 0, 0, 0, 0, 0, 0, 0,
    0, 0, 0, 0, 0, 0, 0, 0,
    0, 0, 0, 0,
    64, 0, 56, 0, 1, 0, 0, 0, 0, 0, 0, 0,
    1, 0, 0, 0, 5, 0, 0, 0,
    0, 16, 0, 0, 0, 0, 0, 0,
    0, 0, 1, 0, 0, 0, 0, 0,
    0, 0, 1, 0, 0, 0, 0, 0,
    12, 0, 0, 0, 0, 0, 0, 0,
    12, 0, 0, 0, 0, 0, 0, 0,
    0, 16, 0, 0, 0, 0, 0, 0,
];

/// The bytes of that segment: code that exits with 7.
#[rattlefmt::skip]
pub const CODE: [u8; 12] = [
    0x93, 0x08, 0xd0, 0x05, 0x13, 0x05, 0x70, 0x00, 0x73, 0x00, 0x00, 0x00,
];

/// That file: its headers, zeros up to 4096 bytes, and the code.
pub fn file(alloc: Global) -> Result<Vec<u8>, Fail> {
    let mut bytes = Vec::from_slice(alloc, &HEADERS)?;
    bytes.resize(4096, 0)?;
    bytes.extend_from_slice(&CODE)?;
    Ok(bytes)
}

/// That file with other bytes at some places.
pub fn changed(rt: &impl Abort, alloc: Global, changes: Changes<'_>) -> Result<Vec<u8>, Fail> {
    let mut bytes = file(alloc)?;
    for (at, new) in changes {
        assert!(rt; *at <= bytes.len() && new.len() <= bytes.len() - *at);
        bytes[*at..*at + new.len()].copy_from_slice(new);
    }
    Ok(bytes)
}
