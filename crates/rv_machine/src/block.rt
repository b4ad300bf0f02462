//! The memory of a machine.

ghost use Rattle.std.specs.Prelude.{◌≡◌, ◌+◌, ◌-◌, ◌*◌, ◌^◌, ◌<◌, ◌≤◌, Some, None, IfSome, IfNone, IfOk, ℕ, min, All, length, map, take, drop, option_map, vec_capacity};
ghost use Rattle.rv_code.specs.Bytes.{number_of, bytes_of, put_at};
ghost use Rattle.rv_code.specs.Machine.{has_flag, holds, holder, read_bytes, written_in, write_bytes};
ghost use Rattle.std.specs.Bool.{OnTrue, OnFalse};
ghost use Rattle.rv_code.specs.Machine.{Segment as SegmentValue};
ghost use Rattle.rv_code.specs.Images.{filled};
ghost use Rattle.rv_machine.specs.Machines.{left};
ghost use Rattle.rv_machine.specs.Memory.{AreRead, IsSize, IsFixed};
ghost use Rattle.rv_machine.specs.Fronts.{padded, IsFront};

use crate::input::Input;
use acg_base::Memory;
use elf_image::Segment;
use rv_code::{Inst, decode};
use std::alloc::Global;
use std::marker::Model;

// By how many bytes at least a front grows.
const CHUNK: usize = 4096;

/// A segment of memory in a machine. Its front is in memory; zeros behind the front have room there, and aren't written
/// before a byte behind them is written or lent.
#[derive(Debug, Drop)]
pub(crate) struct Block {
    address: u64,
    flags: u32,
    // How many bytes it has.
    size: u64,
    front: Vec<u8>,
}

impl Model for Block {
    ghost use Rattle.std.specs.Prelude.{length, vec_capacity};
    ghost use Rattle.rv_code.specs.Machine.{Segment as SegmentValue};
    ghost use Rattle.rv_machine.specs.Fronts.{padded, IsFront};

    ghost Value = { SegmentValue };

    ghost view = { λ block. record {
      address = block.address;
      flags = block.flags;
      bytes = padded block.size block.front.items;
    } };

    ghost invariant = { λ block. IsFront block.size (length block.front.items) (vec_capacity block.front) };
}

// Makes a front longer, in the room that it has.
#[cold]
#[inline(never)]
fn grow(front: &mut Vec<u8>, size: usize, to: usize)
    requires within { to ≤ size }
    requires kept { IsFront size (length front.old.items) (vec_capacity front.old) }
    ensures same { padded size front.new.items ≡ padded size front.old.items }
    ensures reaches { to ≤ length front.new.items }
    ensures kept { IsFront size (length front.new.items) (vec_capacity front.new) }
{
    let chunk = size.min(front.len().saturating_add(CHUNK));
    if front.resize(to.max(chunk), 0).is_err() {
        unreachable!();
    }
}

// Makes a front reach up to a place.
#[inline(always)]
fn reach(front: &mut Vec<u8>, size: usize, to: usize)
    requires within { to ≤ size }
    requires kept { IsFront size (length front.old.items) (vec_capacity front.old) }
    ensures same { padded size front.new.items ≡ padded size front.old.items }
    ensures reaches { to ≤ length front.new.items }
    ensures kept { IsFront size (length front.new.items) (vec_capacity front.new) }
{
    if to > front.len() {
        grow(front, size, to);
    }
}

// The number that bytes of a segment spell, some of which stand behind its front.
#[cold]
#[inline(never)]
fn number_behind(front: &[u8], from: usize, size: usize) -> u64
    requires size { IsSize size }
    requires behind { length front.now < from + size }
    ensures is { (all : ℕ) → from + size ≤ all → result ≡ number_of (take size (drop from (padded all front.now))) }
    ensures small { result < 2 ^ (8 * size) }
{
    let there = &front[from.min(front.len())..];
    let mut bytes = [0; 8];
    bytes[..there.len()].copy_from_slice(there);
    number(&bytes[..size])
}

impl Block {
    ghost use Rattle.std.specs.Borrow.{sem};
    ghost use Rattle.rv_machine.specs.Borrowed.{BlockStays};

    // Whether the block has the flag, and the bytes from an address on.
    #[inline(always)]
    fn holds(&self, flag: u32, address: u64, size: u64) -> bool
        requires { 0 < flag }
        ensures { result ≡ holds flag address size self.now }
    {
        self.flags / flag % 2 == 1
            && self.address <= address
            && size <= self.size
            && address - self.address <= self.size - size
    }

    // Whether the block has the flag W.
    fn is_writable(&self) -> bool
        ensures { result ≡ has_flag self.now.flags 2 }
    {
        self.flags / 2 % 2 == 1
    }

    // The number that the bytes from an address on spell.
    #[inline(always)]
    fn number_at(&self, address: u64, size: u64) -> u64
        requires size { IsSize size }
        requires low { self.now.address ≤ address }
        requires high { address + size ≤ self.now.address + length self.now.bytes }
        ensures is { result ≡ number_of (take size (drop (address - self.now.address) self.now.bytes)) }
        ensures small { result < 2 ^ (8 * size) }
    {
        let from = (address - self.address) as usize;
        let to = from + size as usize;
        if to > self.front.len() {
            number_behind(self.front.as_slice(), from, size as usize)
        } else {
            number(&self.front[from..to])
        }
    }

    /// Lends the bytes from an address on, and stays what it is.
    pub(crate) fn lent(&mut self, address: u64, size: u64) -> &[u8]
        requires low { self.old.address ≤ address }
        requires high { address + size ≤ self.old.address + length self.old.bytes }
        ensures* stays { sem 𝓛 (BlockStays self.entry) }
        ensures bytes { result.now ≡ take size (drop (address - self.old.address) self.old.bytes) }
        ensures length { length result.now ≡ size }
    {
        let from = (address - self.address) as usize;
        let to = from + size as usize;
        reach(&mut self.front, self.size as usize, to);
        &self.front[from..to]
    }

    // Writes the bytes that spell a number from an address on.
    #[inline(always)]
    fn write_number(&mut self, address: u64, size: u64, number: u64)
        requires size { IsSize size }
        requires low { self.old.address ≤ address }
        requires high { address + size ≤ self.old.address + length self.old.bytes }
        ensures { self.new ≡ record self.old { bytes = put_at self.old.bytes (address - self.old.address) (bytes_of size number) } }
    {
        let from = (address - self.address) as usize;
        let to = from + size as usize;
        reach(&mut self.front, self.size as usize, to);
        spell(&mut self.front[from..to], number);
    }

    // Takes so many bytes of an input to an address.
    fn receive(&mut self, address: u64, count: u64, input: &mut Input<'_>)
        requires low { self.old.address ≤ address }
        requires high { address + count ≤ self.old.address + length self.old.bytes }
        requires left { count ≤ length (left input.old) }
        ensures bytes { self.new ≡ record self.old { bytes = put_at self.old.bytes (address - self.old.address) (take count (left input.old)) } }
        ensures input { input.new ≡ record input.old { at = input.old.at + count } }
    {
        let from = (address - self.address) as usize;
        let to = from + count as usize;
        reach(&mut self.front, self.size as usize, to);
        input.take_into(&mut self.front[from..to]);
    }
}

// The memory of a segment of an image.
fn filled(segment: Segment) -> Result<Block, Memory>
    requires { length segment.bytes ≤ segment.size }
    ensures { IfOk result (λ block. block ≡ filled segment) }
{
    let mut front = segment.bytes;
    front.reserve_exact(segment.size as usize - front.len())?;
    Ok(Block {
        address: segment.address,
        flags: segment.flags,
        size: segment.size,
        front,
    })
}

/// The memory of the segments of an image.
pub(crate) fn filled_all(alloc: Global, segments: Vec<Segment>) -> Result<Vec<Block>, Memory>
    requires { All (λ segment. length segment.bytes ≤ segment.size) segments.items }
    ensures { IfOk result (λ blocks. blocks.items ≡ map filled segments.items) }
{
    let mut blocks = Vec::with_capacity(alloc, segments.len())?;
    for segment in segments {
        if blocks.push(filled(segment)?).is_err() {
            return Err(Memory);
        }
    }
    Ok(blocks)
}

// The number that one, two, four or eight bytes spell, the lowest first.
#[tactic(auto, using(crate::proofs::NumbersLemmas::numbers))]
#[inline(always)]
fn number(bytes: &[u8]) -> u64
    requires { IsSize (length bytes.now) }
    ensures is { result ≡ number_of bytes.now }
    ensures small { result < 2 ^ (8 * length bytes.now) }
{
    match bytes {
        [b0, b1, b2, b3, b4, b5, b6, b7] => {
            u64::from_le_bytes([*b0, *b1, *b2, *b3, *b4, *b5, *b6, *b7])
        }
        [b0, b1, b2, b3] => u64::from(u32::from_le_bytes([*b0, *b1, *b2, *b3])),
        [b0, b1] => u64::from(u16::from_le_bytes([*b0, *b1])),
        [b0] => u64::from(*b0),
        _ => unreachable!(),
    }
}

// Writes the one, two, four or eight bytes of a number, the lowest first.
#[inline(always)]
fn spell(out: &mut [u8], number: u64)
    requires { IsSize (length out.old) }
    ensures { out.new ≡ bytes_of (length out.old) number }
{
    if out.len() == 8 {
        out.copy_from_slice(&number.to_le_bytes());
    } else if out.len() == 4 {
        out.copy_from_slice(&((number % 0x1_0000_0000) as u32).to_le_bytes());
    } else if out.len() == 2 {
        out.copy_from_slice(&((number % 0x1_0000) as u16).to_le_bytes());
    } else {
        out[0] = (number % 0x100) as u8;
    }
}

/// The number of the first block that has the flag, and the bytes from an address on.
#[inline(always)]
pub(crate) fn find(blocks: &[Block], flag: u32, address: u64, size: u64) -> Option<usize>
    requires { 0 < flag }
    ensures is { result ≡ holder blocks.now flag address size }
    ensures below { IfSome result (λ i. i < length blocks.now) }
{
    blocks
        .iter()
        .position(|block| block.holds(flag, address, size))
}

/// Whether the bytes from an address on lie in one block with the flag R.
pub(crate) fn can_read(blocks: &[Block], address: u64, size: u64) -> bool
    ensures yes { OnTrue result (AreRead blocks.now address size) }
    ensures no { OnFalse result (read_bytes blocks.now 4 address size ≡ None) }
{
    find(blocks, 4, address, size).is_some()
}

// The number that the bytes from an address on spell, where they lie in one block with the flag.
#[inline(always)]
fn number_at(blocks: &[Block], flag: u32, address: u64, size: u64) -> Option<u64>
    requires flag { 0 < flag }
    requires size { IsSize size }
    ensures number { result ≡ option_map number_of (read_bytes blocks.now flag address size) }
    ensures small { IfSome result (λ number. number < 2 ^ (8 * size)) }
{
    match find(blocks, flag, address, size) {
        None => None,
        Some(index) => Some(blocks[index].number_at(address, size)),
    }
}

/// The word at an address, where its 4 bytes lie in one block with the flag X.
pub(crate) fn read_word(blocks: &[Block], address: u64) -> Option<u32>
    ensures { result ≡ option_map number_of (read_bytes blocks.now 1 address 4) }
{
    match number_at(blocks, 1, address, 4) {
        None => None,
        Some(number) => Some(number as u32),
    }
}

/// Writes the bytes that spell a number from an address on. False where they don't lie in one block with the flag W.
#[inline(always)]
pub(crate) fn write_number(blocks: &mut [Block], address: u64, size: u64, number: u64) -> bool
    requires { IsSize size }
    ensures written { OnTrue result (write_bytes blocks.old address (bytes_of size number) ≡ Some blocks.new) }
    ensures missing { OnFalse result (write_bytes blocks.old address (bytes_of size number) ≡ None) }
    ensures stays { OnFalse result (blocks.new ≡ blocks.old) }
{
    match find(blocks, 2, address, size) {
        None => false,
        Some(index) => {
            blocks[index].write_number(address, size, number);
            true
        }
    }
}

/// The number that the bytes from an address on spell, where they lie in one block with the flag R, by code of its own
/// for each size.
#[inline(always)]
pub(crate) fn read_sized(blocks: &[Block], address: u64, size: u64) -> Option<u64>
    requires { IsSize size }
    ensures number { result ≡ option_map number_of (read_bytes blocks.now 4 address size) }
    ensures small { IfSome result (λ number. number < 2 ^ (8 * size)) }
{
    match size {
        8 => number_at(blocks, 4, address, 8),
        4 => number_at(blocks, 4, address, 4),
        2 => number_at(blocks, 4, address, 2),
        _ => number_at(blocks, 4, address, 1),
    }
}

/// The same as `write_number`, by code of its own for each size.
#[inline(always)]
pub(crate) fn write_sized(blocks: &mut [Block], address: u64, size: u64, number: u64) -> bool
    requires { IsSize size }
    ensures written { OnTrue result (write_bytes blocks.old address (bytes_of size number) ≡ Some blocks.new) }
    ensures missing { OnFalse result (write_bytes blocks.old address (bytes_of size number) ≡ None) }
    ensures stays { OnFalse result (blocks.new ≡ blocks.old) }
{
    match size {
        8 => write_number(blocks, address, 8, number),
        4 => write_number(blocks, address, 4, number),
        2 => write_number(blocks, address, 2, number),
        _ => write_number(blocks, address, 1, number),
    }
}

/// Takes the next `size` bytes of an input, or as many as are left, to an address, and answers how many. `None` where
/// the `size` bytes from the address on don't lie in one block with the flag W.
pub(crate) fn receive(
    blocks: &mut [Block],
    address: u64,
    size: u64,
    input: &mut Input<'_>,
) -> Option<u64>
    ensures count { IfSome result (λ count. count ≡ min size (length (left input.old))) }
    ensures written { IfSome result (λ count. option_map (written_in blocks.old address (take count (left input.old)))
        (holder blocks.old 2 address size) ≡ Some blocks.new) }
    ensures input { IfSome result (λ count. input.new ≡ record input.old { at = input.old.at + count }) }
    ensures missing { IfNone result (holder blocks.old 2 address size ≡ None) }
    ensures stays { IfNone result ((blocks.new ≡ blocks.old) × (input.new ≡ input.old)) }
{
    match find(blocks, 2, address, size) {
        None => None,
        Some(index) => {
            let count = size.min(input.count() as u64);
            blocks[index].receive(address, count, input);
            Some(count)
        }
    }
}

/// The instruction at an address, where its 4 bytes lie in one block with the flag X that can't be written.
pub(crate) fn fixed(blocks: &[Block], address: u64) -> Option<Option<Inst>>
    ensures { IfSome result (λ entry. IsFixed blocks.now address entry) }
{
    let index = find(blocks, 1, address, 4)?;
    let block = &blocks[index];
    if block.is_writable() {
        return None;
    }
    Some(decode(block.number_at(address, 4) as u32))
}

/// The address of the first block with the flag X, and how many words it has.
pub(crate) fn code_place(blocks: &[Block]) -> (u64, u64) {
    for block in blocks {
        if block.flags % 2 == 1 {
            return (block.address, block.size / 4);
        }
    }
    (0, 0)
}
