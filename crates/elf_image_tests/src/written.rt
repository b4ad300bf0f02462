//! Files that are written, byte for byte.

use crate::linked::HELLO;
use crate::tools::{CODE, Changes, changed, file};
use elf_image::{Image, Segment, read_image, write_image};
use std::test::Fail;

#[test]
fn a_file_is_written_as_stated(rt: HostRuntime) -> Result<(), Fail> {
    let mut segments = Vec::new(rt.alloc());
    segments.push(Segment {
        address: 65536,
        flags: 5,
        bytes: Vec::from_slice(rt.alloc(), &CODE)?,
        size: 12,
    })?;
    let image = Image {
        entry: 65536,
        segments,
    };
    let bytes = write_image(rt.alloc(), &image).ok().ok_or("memory")?;
    assert_eq!(rt; bytes.as_slice(), file(rt.alloc())?.as_slice());
    Ok(())
}

// A second program header in that file: no bytes, flags R and W, 4096 bytes at 131072.
#[rattlefmt::skip]
const WITHOUT_BYTES: Changes<'static> = &[(56, &[2]), (120, &[
    1, 0, 0, 0, 6, 0, 0, 0,
    0, 0, 0, 0, 0, 0, 0, 0,
    0, 0, 2, 0, 0, 0, 0, 0,
    0, 0, 2, 0, 0, 0, 0, 0,
    0, 0, 0, 0, 0, 0, 0, 0,
    0, 16, 0, 0, 0, 0, 0, 0,
    0, 16, 0, 0, 0, 0, 0, 0,
])];

#[test]
fn a_segment_without_bytes_is_written(rt: HostRuntime) -> Result<(), Fail> {
    let bytes = changed(&rt, rt.alloc(), WITHOUT_BYTES)?;
    let image = read_image(rt.alloc(), &bytes).ok().ok_or("read")?;
    let written = write_image(rt.alloc(), &image).ok().ok_or("memory")?;
    assert_eq!(rt; written.as_slice(), bytes.as_slice());
    Ok(())
}

// The headers of the file of an image with the entry 0x11160 and three segments: 0x15e bytes at
// 0x10000 with the flag R, 0x34 bytes at 0x11160 with R and X, and 8 bytes at 0x12198 with R and W,
// which has 0x48 in memory.
#[rattlefmt::skip]
const THREE: [u8; 232] = [
    0x7f, 0x45, 0x4c, 0x46, 2, 1, 1, 0, 0, 0, 0, 0, 0, 0, 0, 0,
    2, 0, 243, 0, 1, 0, 0, 0,
    0x60, 0x11, 1, 0, 0, 0, 0, 0,
    64, 0, 0, 0, 0, 0, 0, 0,
    0, 0, 0, 0, 0, 0, 0, 0,
    0, 0, 0, 0,
    64, 0, 56, 0, 3, 0, 0, 0, 0, 0, 0, 0,
    1, 0, 0, 0, 4, 0, 0, 0,
    0, 0x10, 0, 0, 0, 0, 0, 0,
    0, 0, 1, 0, 0, 0, 0, 0,
    0, 0, 1, 0, 0, 0, 0, 0,
    0x5e, 1, 0, 0, 0, 0, 0, 0,
    0x5e, 1, 0, 0, 0, 0, 0, 0,
    0, 0x10, 0, 0, 0, 0, 0, 0,
    1, 0, 0, 0, 5, 0, 0, 0,
    0, 0x20, 0, 0, 0, 0, 0, 0,
    0x60, 0x11, 1, 0, 0, 0, 0, 0,
    0x60, 0x11, 1, 0, 0, 0, 0, 0,
    0x34, 0, 0, 0, 0, 0, 0, 0,
    0x34, 0, 0, 0, 0, 0, 0, 0,
    0, 0x10, 0, 0, 0, 0, 0, 0,
    1, 0, 0, 0, 6, 0, 0, 0,
    0, 0x30, 0, 0, 0, 0, 0, 0,
    0x98, 0x21, 1, 0, 0, 0, 0, 0,
    0x98, 0x21, 1, 0, 0, 0, 0, 0,
    8, 0, 0, 0, 0, 0, 0, 0,
    0x48, 0, 0, 0, 0, 0, 0, 0,
    0, 0x10, 0, 0, 0, 0, 0, 0,
];

#[test]
fn three_segments_are_written(rt: HostRuntime) -> Result<(), Fail> {
    let mut wanted = Vec::from_slice(rt.alloc(), &THREE)?;
    wanted.resize(0x1000, 0)?;
    wanted.extend_from_slice(&HELLO[..0x15e])?;
    wanted.resize(0x2000, 0)?;
    wanted.extend_from_slice(&HELLO[0x160..0x194])?;
    wanted.resize(0x3000, 0)?;
    wanted.extend_from_slice(&HELLO[0x198..0x1a0])?;
    let image = read_image(rt.alloc(), &HELLO).ok().ok_or("read")?;
    let written = write_image(rt.alloc(), &image).ok().ok_or("memory")?;
    assert_eq!(rt; written.as_slice(), wanted.as_slice());
    Ok(())
}
