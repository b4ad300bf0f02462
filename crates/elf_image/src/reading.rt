//! Reading bytes as an image.

ghost use Rattle.std.specs.Prelude.{◌≡◌, ℕ, suc, ◌+◌, ◌%◌, ◌*◌, ◌<◌, ◌≤◌, ◌^◌, All, sum_by, take, drop, length, IfOk, IfErr, OnOk};
ghost use Rattle.std.specs.Bool.{OnTrue, OnFalse};
ghost use Rattle.rv_code.specs.Images.{AreApart, Image as ImageValue, image_limit};
ghost use Rattle.elf_image.specs.Fields.{number, header_count, header_at};
ghost use Rattle.elf_image.specs.Reading.{IsWithin, HasHeader, HasTable, segments_of, stretch, Joins, Loads, IsFileOf, IsRefused};
ghost use Rattle.elf_image.specs.declared.error.ImageError.TheVariants as image_error;

use crate::error::ImageError;
use crate::fields::{number_2, number_4, number_8};
use crate::image::{Image, Segment};
use acg_base::LIMIT_IMAGE;
use std::alloc::Global;

// How many bytes the header of a file has, and a program header.
const FILE_HEADER: usize = 64;

const PROGRAM_HEADER: u64 = 56;

// The type of a program header that has a segment to load.
const LOAD: u32 = 1;

// The end of all addresses of an image.
const TOP: u64 = 0x1_0000_0000;

// Whether a range of the file doesn't pass its end.
fn is_within(bytes: &[u8], offset: u64, size: u64) -> bool
    ensures yes { OnTrue result (IsWithin bytes.now offset size) }
    ensures no { OnFalse result (IsWithin bytes.now offset size → ⊥) }
{
    let all = bytes.len() as u64;
    size == 0 || (size <= all && offset <= all - size)
}

// Whether the program headers have their size, are few, and don't pass the end of the file.
fn has_table(bytes: &[u8]) -> bool
    requires { 64 ≤ length bytes.now }
    ensures yes { OnTrue result (HasTable bytes.now) }
    ensures no { OnFalse result (HasTable bytes.now → ⊥) }
{
    let count = number_2(bytes, 56);
    number_2(bytes, 54) == 56
        && count <= 16
        && is_within(
            bytes,
            number_8(bytes, 32),
            PROGRAM_HEADER * u64::from(count),
        )
}

// Checks the header of a file.
fn check_header(bytes: &[u8]) -> Result<(), ImageError>
    ensures passed { OnOk result (HasHeader bytes.now) }
    ensures refused { IfErr result (λ error. IsRefused bytes.now error) }
{
    if bytes.len() < FILE_HEADER {
        return Err(ImageError::Short);
    }
    if bytes[..4] != [0x7f, b'E', b'L', b'F'] {
        return Err(ImageError::Magic);
    }
    if bytes[4..7] != [2, 1, 1] {
        return Err(ImageError::Class);
    }
    if number_2(bytes, 18) != 243 {
        return Err(ImageError::Machine);
    }
    if number_2(bytes, 16) != 2 {
        return Err(ImageError::Kind);
    }
    if !has_table(bytes) {
        return Err(ImageError::Header);
    }
    Ok(())
}

// What a program header says of its segment.
#[derive(Clone, Copy)]
struct Program {
    kind: u32,
    flags: u32,
    offset: u64,
    address: u64,
    file_size: u64,
    size: u64,
}

// The sizes of segments together.
fn total(segments: &[Segment]) -> u64
    requires { sum_by (λ s. s.size) segments.now ≤ image_limit }
    ensures { result ≡ sum_by (λ s. s.size) segments.now }
{
    let mut sum = 0;
    for segment in segments {
        sum += segment.size;
    }
    sum
}

// Whether a segment has no address in common with a stretch of memory.
fn is_apart(segment: &Segment, address: u64, size: u64) -> bool
    requires low { segment.now.address + segment.now.size ≤ 2 ^ 32 }
    requires stretch { address + size ≤ 2 ^ 32 }
    ensures yes { OnTrue result (AreApart segment.now (stretch address size)) }
    ensures no { OnFalse result (AreApart segment.now (stretch address size) → ⊥) }
{
    segment.size == 0
        || size == 0
        || segment.address + segment.size <= address
        || address + size <= segment.address
}

// Whether segments have no address in common with a stretch of memory.
fn are_apart(segments: &[Segment], address: u64, size: u64) -> bool
    requires low { All (λ s. s.address + s.size ≤ 2 ^ 32) segments.now }
    requires stretch { address + size ≤ 2 ^ 32 }
    ensures yes { OnTrue result (All (λ s. AreApart s (stretch address size)) segments.now) }
    ensures no { OnFalse result
        (All (λ s. AreApart s (stretch address size)) segments.now → ⊥) }
{
    for segment in segments {
        if !is_apart(segment, address, size) {
            return false;
        }
    }
    true
}

// Whether the segment of a program header makes an image with those before it.
fn joins(before: &[Segment], program: Program) -> bool
    requires low { All (λ s. s.address + s.size ≤ 2 ^ 32) before.now }
    requires total { sum_by (λ s. s.size) before.now ≤ image_limit }
    ensures yes { OnTrue result
        (Joins before.now program.file_size program.address program.size) }
    ensures no { OnFalse result
        (Joins before.now program.file_size program.address program.size → ⊥) }
{
    program.file_size <= program.size
        && program.size <= TOP
        && program.address <= TOP - program.size
        && total(before) + program.size <= u64::from(LIMIT_IMAGE)
        && are_apart(before, program.address, program.size)
}

// The bytes of a program header, and those behind it.
fn header_at(bytes: &[u8], index: u32) -> &[u8]
    requires header { HasHeader bytes.now }
    requires there { index < header_count bytes.now }
    ensures bytes { result.now ≡ header_at bytes.now index }
    ensures long { 56 ≤ length result.now }
{
    let table = number_8(bytes, 32) as usize;
    &bytes[table + 56 * index as usize..]
}

// What a program header says of its segment.
fn read_program(header: &[u8]) -> Program
    requires { 56 ≤ length header.now }
    ensures { result ≡ record {
      kind = number 4 0 header.now;
      flags = number 4 4 header.now;
      offset = number 8 8 header.now;
      address = number 8 16 header.now;
      file_size = number 8 32 header.now;
      size = number 8 40 header.now;
    } }
{
    Program {
        kind: number_4(header, 0),
        flags: number_4(header, 4),
        offset: number_8(header, 8),
        address: number_8(header, 16),
        file_size: number_8(header, 32),
        size: number_8(header, 40),
    }
}

// The segment of a program header. Takes all of its memory.
fn copy_segment(alloc: Global, bytes: &[u8], program: Program) -> Result<Segment, ImageError>
    requires within { IsWithin bytes.now program.offset program.file_size }
    requires sized { program.file_size ≤ program.size }
    requires low { program.size ≤ 2 ^ 32 }
    ensures copied { IfOk result (λ s. s ≡ record {
      address = program.address;
      flags = program.flags % 8;
      bytes = take program.file_size (drop program.offset bytes.now);
      size = program.size;
    }) }
    ensures refused { IfErr result (λ error. error ≡ image_error.Memory) }
{
    let mut copy = Vec::with_capacity(alloc, program.size as usize)?;
    if program.file_size > 0 {
        let from = program.offset as usize;
        copy.extend_from_slice(&bytes[from..from + program.file_size as usize])?;
    }
    Ok(Segment {
        address: program.address,
        flags: program.flags % 8,
        bytes: copy,
        size: program.size,
    })
}

// Appends the segment of the next program header, where it has one.
fn add_segment(
    alloc: Global,
    bytes: &[u8],
    index: u32,
    segments: &mut Vec<Segment>,
) -> Result<(), ImageError>
    requires header { HasHeader bytes.now }
    requires next { index < header_count bytes.now }
    requires before { segments.old.items ≡ segments_of bytes.now index }
    requires loads { Loads bytes.now index }
    ensures added { OnOk result (segments.new.items ≡ segments_of bytes.now (suc index)) }
    ensures loads { OnOk result (Loads bytes.now (suc index)) }
    ensures refused { IfErr result (λ error. IsRefused bytes.now error) }
{
    let program = read_program(header_at(bytes, index));
    if program.kind != LOAD {
        return Ok(());
    }
    if !is_within(bytes, program.offset, program.file_size) || !joins(segments, program) {
        return Err(ImageError::Segment { index });
    }
    let segment = copy_segment(alloc, bytes, program)?;
    segments.push(segment)?;
    Ok(())
}

// The segments of the program headers.
fn read_segments(alloc: Global, bytes: &[u8]) -> Result<Vec<Segment>, ImageError>
    requires { HasHeader bytes.now }
    ensures read { IfOk result (λ list.
        list.items ≡ segments_of bytes.now (header_count bytes.now)) }
    ensures loads { OnOk result (Loads bytes.now (header_count bytes.now)) }
    ensures refused { IfErr result (λ error. IsRefused bytes.now error) }
{
    let count = u32::from(number_2(bytes, 56));
    let mut segments = Vec::with_capacity(alloc, count as usize)?;
    for index in 0..count {
        add_segment(alloc, bytes, index, &mut segments)?;
    }
    Ok(segments)
}

// Reads bytes as an image, or answers the first check that fails.
fn read_checked(alloc: Global, bytes: &[u8]) -> Result<Image, ImageError>
    ensures read { IfOk result (λ image. IsFileOf bytes.now image) }
    ensures refused { IfErr result (λ error. IsRefused bytes.now error) }
{
    check_header(bytes)?;
    let segments = read_segments(alloc, bytes)?;
    Ok(Image {
        entry: number_8(bytes, 24),
        segments,
    })
}

/// Reads bytes as an image, or answers the first check that fails: their number, the first four
/// bytes, the class, the machine, the kind, the program headers, and then each segment. It obeys
/// where the program headers stand, passes over those that are for something else, takes flags
/// modulo 8, and ignores all other fields.
///
/// Each segment's bytes are copied once, into room for the whole segment.
pub fn read_image(alloc: Global, bytes: &[u8]) -> Result<Image, ImageError>
    // All checks pass, and these are the entry and the segments.
    ensures read { IfOk result (λ image. IsFileOf bytes.now image) }

    // The check is the first that fails.
    ensures refused { IfErr result (λ error. IsRefused bytes.now error) }

    // What passes all checks is read, unless memory runs out: so the file that `write_image` gives
    // is read back.
    ensures back { (x : ImageValue) → IsFileOf bytes.now x → IfOk result (λ image. image ≡ x) }
    ensures taken { (x : ImageValue) → IsFileOf bytes.now x →
        IfErr result (λ error. error ≡ image_error.Memory) }
{
    read_checked(alloc, bytes)
}
