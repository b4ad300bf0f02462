//! Writing an image as a file.

ghost use Rattle.std.specs.Prelude.{◌≡◌, ℕ, ◌+◌, ◌*◌, ◌<◌, ◌≤◌, ◌^◌, ◌++◌, [], length, take, All, IfOk, OnOk};
ghost use Rattle.elf_image.specs.Files.{kind_fields, place_fields, size_fields, file_header, front_fields, extent_fields, aligned, offset_behind, end_behind, piece_behind, end_of, program_header, program_headers, contents, headers_end, file_of};
ghost use Rattle.elf_image.specs.Reading.{IsFileOf};

use crate::fields::{put_2, put_4, put_8};
use crate::image::{Image, Segment};
use acg_base::Memory;
use std::alloc::Global;

// The first bytes of a file: ELF, 64-bit numbers, the lowest byte first, version 1.
const IDENTIFICATION: [u8; 16] = [0x7f, b'E', b'L', b'F', 2, 1, 1, 0, 0, 0, 0, 0, 0, 0, 0, 0];

// What the bytes of each segment are aligned to in the file.
const PAGE: u64 = 4096;

// The least multiple of a page not below an end.
fn aligned(end: u64) -> u64
    requires { end ≤ 2 ^ 32 }
    ensures { result ≡ aligned end }
{
    (end + PAGE - 1) / PAGE * PAGE
}

// The end of the bytes up to those of a segment.
fn end_behind(end: u64, segment: &Segment) -> u64
    requires end { end ≤ 2 ^ 32 }
    requires size { length segment.now.bytes ≤ 2 ^ 32 }
    ensures { result ≡ end_behind end segment.now }
{
    if segment.bytes.is_empty() {
        end
    } else {
        aligned(end) + segment.bytes.len() as u64
    }
}

// Appends what kind of file it is.
#[tactic(auto, using(std::proofs::Common::append_assoc), unfolding(crate::specs::Files::kind_fields))]
fn put_kind(out: &mut Vec<u8>) -> Result<(), Memory>
    ensures { OnOk result (out.new.items ≡ out.old.items ++ kind_fields) }
{
    out.extend_from_slice(&IDENTIFICATION)?;
    put_2(out, 2)?;
    put_2(out, 243)?;
    put_4(out, 1)?;
    Ok(())
}

// Appends where the run begins, where the program headers begin, and that there are no sections
// and no flags.
#[tactic(auto, using(std::proofs::Common::append_assoc), unfolding(crate::specs::Files::place_fields))]
fn put_places(out: &mut Vec<u8>, entry: u64) -> Result<(), Memory>
    ensures { OnOk result (out.new.items ≡ out.old.items ++ place_fields entry) }
{
    put_8(out, entry)?;
    put_8(out, 64)?;
    put_8(out, 0)?;
    put_4(out, 0)?;
    Ok(())
}

// Appends the sizes of the headers, and how many program headers there are.
#[tactic(auto, using(std::proofs::Common::append_assoc), unfolding(crate::specs::Files::size_fields))]
fn put_sizes(out: &mut Vec<u8>, count: u16) -> Result<(), Memory>
    ensures { OnOk result (out.new.items ≡ out.old.items ++ size_fields count) }
{
    put_2(out, 64)?;
    put_2(out, 56)?;
    put_2(out, count)?;
    put_2(out, 0)?;
    put_2(out, 0)?;
    put_2(out, 0)?;
    Ok(())
}

// Appends the header of a file.
#[tactic(auto, using(std::proofs::Common::append_assoc))]
fn put_header(out: &mut Vec<u8>, entry: u64, count: u16) -> Result<(), Memory>
    ensures { OnOk result (out.new.items ≡ out.old.items ++ file_header entry count) }
{
    put_kind(out)?;
    put_places(out, entry)?;
    put_sizes(out, count)?;
    Ok(())
}

// Appends the type, the flags and the offset of a program header.
#[tactic(auto, using(std::proofs::Common::append_assoc), unfolding(crate::specs::Files::front_fields))]
fn put_front(out: &mut Vec<u8>, flags: u32, offset: u64) -> Result<(), Memory>
    ensures { OnOk result (out.new.items ≡ out.old.items ++ front_fields flags offset) }
{
    put_4(out, 1)?;
    put_4(out, flags)?;
    put_8(out, offset)?;
    Ok(())
}

// Appends the addresses, the sizes and the alignment of a program header.
#[tactic(auto, using(std::proofs::Common::append_assoc), unfolding(crate::specs::Files::extent_fields))]
fn put_extent(out: &mut Vec<u8>, segment: &Segment) -> Result<(), Memory>
    ensures { OnOk result (out.new.items ≡ out.old.items ++ extent_fields segment.now) }
{
    put_8(out, segment.address)?;
    put_8(out, segment.address)?;
    put_8(out, segment.bytes.len() as u64)?;
    put_8(out, segment.size)?;
    put_8(out, PAGE)?;
    Ok(())
}

// Where the bytes of a segment stand behind an end.
fn offset_behind(end: u64, segment: &Segment) -> u64
    requires { end ≤ 2 ^ 32 }
    ensures { result ≡ offset_behind end segment.now }
{
    if segment.bytes.is_empty() {
        0
    } else {
        aligned(end)
    }
}

// Appends the program header of a segment whose bytes stand behind an end.
#[tactic(auto, using(std::proofs::Common::append_assoc))]
fn put_program(out: &mut Vec<u8>, end: u64, segment: &Segment) -> Result<(), Memory>
    requires { end ≤ 2 ^ 32 }
    ensures { let offset = offset_behind end segment.now in
        OnOk result (out.new.items ≡ out.old.items ++ program_header offset segment.now) }
{
    put_front(out, segment.flags, offset_behind(end, segment))?;
    put_extent(out, segment)?;
    Ok(())
}

// Appends the program headers of segments whose bytes stand behind an end, and answers the end of
// all of them.
fn put_programs(out: &mut Vec<u8>, end: u64, segments: &[Segment]) -> Result<u64, Memory>
    requires low { (i : ℕ) → end_of end (take i segments.now) ≤ 2 ^ 32 }
    requires sizes { All (λ s. length s.bytes ≤ 2 ^ 32) segments.now }
    ensures put { OnOk result
        (out.new.items ≡ out.old.items ++ program_headers end segments.now) }
    ensures end { IfOk result (λ last. last ≡ end_of end segments.now) }
{
    let mut last = end;
    for segment in segments {
        put_program(out, last, segment)?;
        last = end_behind(last, segment);
    }
    Ok(last)
}

// Appends the bytes of a segment, with zeros before them.
fn put_piece(out: &mut Vec<u8>, segment: &Segment) -> Result<(), Memory>
    requires { length out.old.items ≤ 2 ^ 32 }
    ensures { OnOk result
        (out.new.items ≡ out.old.items ++ piece_behind (length out.old.items) segment.now) }
{
    if segment.bytes.is_empty() {
        return Ok(());
    }
    let start = aligned(out.len() as u64);
    out.resize(start as usize, 0)?;
    out.extend_from_slice(&segment.bytes)?;
    Ok(())
}

// Appends the bytes of segments.
fn put_pieces(out: &mut Vec<u8>, segments: &[Segment]) -> Result<(), Memory>
    requires { (i : ℕ) → end_of (length out.old.items) (take i segments.now) ≤ 2 ^ 32 }
    ensures { OnOk result
        (out.new.items ≡ out.old.items ++ contents (length out.old.items) segments.now) }
{
    for segment in segments {
        put_piece(out, segment)?;
    }
    Ok(())
}

// Appends the file of an image to nothing. Takes the room for all of it once.
fn put_file(out: &mut Vec<u8>, entry: u64, segments: &[Segment]) -> Result<(), Memory>
    requires empty { out.old.items ≡ [] }
    requires few { length segments.now ≤ 16 }
    requires low { (i : ℕ) →
        end_of (headers_end (length segments.now)) (take i segments.now) ≤ 2 ^ 32 }
    requires sizes { All (λ s. length s.bytes ≤ 2 ^ 32) segments.now }
    ensures { OnOk result
        (out.new.items ≡ file_of (record { entry = entry; segments = segments.now })) }
{
    let count = segments.len();
    put_header(out, entry, count as u16)?;
    let end = put_programs(out, 64 + 56 * count as u64, segments)?;
    out.reserve_exact((end as usize).saturating_sub(out.len()))?;
    put_pieces(out, segments)?;
    Ok(())
}

/// Writes an image as an ELF64 file for RISC-V: its header, the program headers, one for each
/// segment in their order, and then the bytes of the segments, each aligned to 4096 bytes, with
/// zeros between. A segment without bytes has the offset 0. The room for all of it is taken once.
pub fn write_image(alloc: Global, image: &Image) -> Result<Vec<u8>, Memory>
    ensures bytes { IfOk result (λ file. file.items ≡ file_of image.now) }

    // All checks of reading pass, and the image is what is read.
    ensures back { IfOk result (λ file. IsFileOf file.items image.now) }
{
    let mut out = Vec::new(alloc);
    put_file(&mut out, image.entry, &image.segments)?;
    Ok(out)
}
