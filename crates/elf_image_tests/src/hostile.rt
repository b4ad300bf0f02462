//! Files that are refused, each at its first check that fails, and odd ones that are read.

use crate::tools::{CODE, Changes, changed};
use elf_image::{ImageError, read_image};
use std::test::Fail;

// Fields of the headers: their places in the file.
const KIND: usize = 16;

const MACHINE: usize = 18;

const TABLE: usize = 32;

const HEADER_SIZE: usize = 54;

const COUNT: usize = 56;

const TYPE: usize = 64;

const FLAGS: usize = 68;

const OFFSET: usize = 72;

const ADDRESS: usize = 80;

const FILE_SIZE: usize = 96;

const SIZE: usize = 104;

// A second program header: a segment without bytes, flags R and W, of 4096 bytes at 131072.
#[rattlefmt::skip]
const SECOND: [u8; 56] = [
    1, 0, 0, 0, 6, 0, 0, 0,
    0, 0, 0, 0, 0, 0, 0, 0,
    0, 0, 2, 0, 0, 0, 0, 0,
    0, 0, 2, 0, 0, 0, 0, 0,
    0, 0, 0, 0, 0, 0, 0, 0,
    0, 16, 0, 0, 0, 0, 0, 0,
    0, 16, 0, 0, 0, 0, 0, 0,
];

// Its fields.
const NEXT: usize = 120;

const NEXT_OFFSET: usize = 128;

const NEXT_ADDRESS: usize = 136;

const NEXT_FILE_SIZE: usize = 152;

const NEXT_SIZE: usize = 160;

// The greatest number of 64 bits.
const MOST: [u8; 8] = [255; 8];

// 2^32, one more, and numbers around the most bytes of an image, 536870912.
const TOP: [u8; 8] = [0, 0, 0, 0, 1, 0, 0, 0];

const PAST_TOP: [u8; 8] = [1, 0, 0, 0, 1, 0, 0, 0];

const LIMIT: [u8; 8] = [0, 0, 0, 32, 0, 0, 0, 0];

const PAST_LIMIT: [u8; 8] = [1, 0, 0, 32, 0, 0, 0, 0];

#[rattlefmt::skip]
const REFUSED: [(Changes<'static>, ImageError); 36] = [
    (&[(0, &[0])], ImageError::Magic),
    (&[(3, &[0x47])], ImageError::Magic),
    (&[(3, &[0x47]), (4, &[1])], ImageError::Magic),
    (&[(4, &[1])], ImageError::Class),
    (&[(5, &[2])], ImageError::Class),
    (&[(6, &[0])], ImageError::Class),
    (&[(6, &[0]), (MACHINE, &[62])], ImageError::Class),
    (&[(MACHINE, &[62])], ImageError::Machine),
    (&[(MACHINE, &[243, 1])], ImageError::Machine),
    (&[(MACHINE, &[0, 243])], ImageError::Machine),
    (&[(MACHINE, &[62]), (KIND, &[3])], ImageError::Machine),
    (&[(KIND, &[3])], ImageError::Kind),
    (&[(KIND, &[2, 1])], ImageError::Kind),
    (&[(KIND, &[3]), (COUNT, &[17])], ImageError::Kind),
    (&[(COUNT, &[17])], ImageError::Header),
    (&[(COUNT, &[0, 1])], ImageError::Header),
    (&[(HEADER_SIZE, &[57])], ImageError::Header),
    (&[(HEADER_SIZE, &[57]), (COUNT, &[0])], ImageError::Header),
    (&[(TABLE, &MOST)], ImageError::Header),
    (&[(TABLE, &[213, 15])], ImageError::Header),
    (&[(TABLE, &[213, 15]), (FILE_SIZE, &[13])], ImageError::Header),
    (&[(FILE_SIZE, &[13])], ImageError::Segment { index: 0 }),
    (&[(SIZE, &[11])], ImageError::Segment { index: 0 }),
    (&[(OFFSET, &[1, 16])], ImageError::Segment { index: 0 }),
    (&[(OFFSET, &MOST)], ImageError::Segment { index: 0 }),
    (&[(FILE_SIZE, &MOST), (SIZE, &MOST)], ImageError::Segment { index: 0 }),
    (&[(ADDRESS, &MOST)], ImageError::Segment { index: 0 }),
    (&[(ADDRESS, &[245, 255, 255, 255])], ImageError::Segment { index: 0 }),
    (&[(SIZE, &MOST)], ImageError::Segment { index: 0 }),
    (&[(SIZE, &PAST_LIMIT)], ImageError::Segment { index: 0 }),
    (&[(COUNT, &[2]), (NEXT, &SECOND), (NEXT_ADDRESS, &PAST_TOP), (NEXT_SIZE, &[0, 0])],
        ImageError::Segment { index: 1 }),
    (&[(COUNT, &[2]), (NEXT, &SECOND), (NEXT_FILE_SIZE, &[1]), (NEXT_OFFSET, &MOST)],
        ImageError::Segment { index: 1 }),
    (&[(COUNT, &[2]), (NEXT, &SECOND), (NEXT_ADDRESS, &[11, 0, 1])],
        ImageError::Segment { index: 1 }),
    (&[(COUNT, &[2]), (NEXT, &SECOND), (NEXT_ADDRESS, &[1, 240, 0])],
        ImageError::Segment { index: 1 }),
    (&[(COUNT, &[2]), (NEXT, &SECOND), (TYPE, &[4]), (NEXT_SIZE, &PAST_LIMIT)],
        ImageError::Segment { index: 1 }),
    (&[(COUNT, &[2]), (NEXT, &SECOND), (NEXT_SIZE, &LIMIT)], ImageError::Segment { index: 1 }),
];

#[test]
fn the_first_check_that_fails_is_answered(rt: HostRuntime) -> Result<(), Fail> {
    for (changes, error) in REFUSED {
        let bytes = changed(&rt, rt.alloc(), changes)?;
        assert_eq!(rt; read_image(rt.alloc(), &bytes).err(), Some(error));
    }
    Ok(())
}

// How many bytes of the file are read, and the check that fails then.
#[rattlefmt::skip]
const FRONTS: [(usize, ImageError); 6] = [
    (0, ImageError::Short),
    (63, ImageError::Short),
    (64, ImageError::Header),
    (119, ImageError::Header),
    (120, ImageError::Segment { index: 0 }),
    (4107, ImageError::Segment { index: 0 }),
];

#[test]
fn short_files_are_refused(rt: HostRuntime) -> Result<(), Fail> {
    let bytes = changed(&rt, rt.alloc(), &[])?;
    assert_eq!(rt; bytes.len(), 4108);
    for (count, error) in FRONTS {
        assert!(rt; count <= bytes.len());
        assert_eq!(rt; read_image(rt.alloc(), &bytes[..count]).err(), Some(error));
    }
    Ok(())
}

// Changes that leave a file that is read, how many segments it has then, and the size and the flags of the first.
#[rattlefmt::skip]
const READ: [(Changes<'static>, usize, u64, u32); 17] = [
    (&[], 1, 12, 5),
    (&[(7, &[9, 1, 2, 3, 4, 5, 6, 7, 8])], 1, 12, 5),
    (&[(20, &[2])], 1, 12, 5),
    (&[(48, &[5]), (60, &[5])], 1, 12, 5),
    (&[(FLAGS, &[0xfd, 0xff, 0xff, 0xff])], 1, 12, 5),
    (&[(FLAGS, &[0, 255])], 1, 12, 0),
    (&[(SIZE, &[13])], 1, 13, 5),
    (&[(SIZE, &LIMIT)], 1, 536_870_912, 5),
    (&[(FILE_SIZE, &[0]), (OFFSET, &MOST)], 1, 12, 5),
    (&[(ADDRESS, &[244, 255, 255, 255])], 1, 12, 5),
    (&[(ADDRESS, &TOP), (FILE_SIZE, &[0]), (SIZE, &[0])], 1, 0, 5),
    (&[(COUNT, &[16])], 1, 12, 5),
    (&[(COUNT, &[2]), (NEXT, &SECOND)], 2, 12, 5),
    (&[(COUNT, &[2]), (NEXT, &SECOND), (NEXT_ADDRESS, &[12, 0, 1])], 2, 12, 5),
    (&[(COUNT, &[2]), (NEXT, &SECOND), (NEXT_ADDRESS, &[0, 240, 0])], 2, 12, 5),
    (&[(COUNT, &[2]), (NEXT, &SECOND), (NEXT_ADDRESS, &[4, 0, 1]), (NEXT_SIZE, &[0, 0])],
        2, 12, 5),
    (&[(COUNT, &[2]), (NEXT, &SECOND), (TYPE, &[0]), (FILE_SIZE, &MOST)], 1, 4096, 6),
];

#[test]
fn odd_files_are_read(rt: HostRuntime) -> Result<(), Fail> {
    for (changes, count, size, flags) in READ {
        let bytes = changed(&rt, rt.alloc(), changes)?;
        let image = read_image(rt.alloc(), &bytes).ok().ok_or("read")?;
        assert_eq!(rt; image.entry, 65536);
        assert_eq!(rt; image.segments.len(), count);
        let first = image.segments.first().ok_or("segment")?;
        assert_eq!(rt; first.size, size);
        assert_eq!(rt; first.flags, flags);
    }
    Ok(())
}

#[test]
fn no_segments_are_read_wherever_the_table_is(rt: HostRuntime) -> Result<(), Fail> {
    let bytes = changed(&rt, rt.alloc(), &[(COUNT, &[0]), (TABLE, &MOST)])?;
    let image = read_image(rt.alloc(), &bytes).ok().ok_or("read")?;
    assert!(rt; image.segments.is_empty());
    Ok(())
}

#[test]
fn the_table_may_stand_anywhere(rt: HostRuntime) -> Result<(), Fail> {
    let bytes = changed(
        &rt,
        rt.alloc(),
        &[(TABLE, &[201]), (201, &SECOND), (TYPE, &[9])],
    )?;
    let image = read_image(rt.alloc(), &bytes).ok().ok_or("read")?;
    assert_eq!(rt; image.segments.len(), 1);
    let segment = image.segments.first().ok_or("segment")?;
    assert_eq!(rt; segment.address, 131072);
    assert!(rt; segment.bytes.is_empty());
    let bytes = changed(&rt, rt.alloc(), &[(OFFSET, &[255, 15])])?;
    let image = read_image(rt.alloc(), &bytes).ok().ok_or("read")?;
    let segment = image.segments.first().ok_or("segment")?;
    assert_eq!(rt; segment.bytes.len(), 12);
    assert_eq!(rt; segment.bytes.first(), Some(&0));
    assert_eq!(rt; segment.bytes[1..], CODE[..11]);
    Ok(())
}
