//! Images: what a machine is loaded from.

use std::marker::Model;

/// A stretch of memory of an image. Contracts see it as its numbers and the list of its bytes.
#[derive(Debug, Drop)]
pub struct Segment {
    /// The address of its first byte.
    pub address: u64,
    /// The sum of X 1, W 2 and R 4.
    pub flags: u32,
    /// The bytes at its front.
    pub bytes: Vec<u8>,
    /// How many bytes it has: zeros stand behind the given ones.
    pub size: u64,
}

impl Model for Segment {
    ghost use Rattle.rv_code.specs.Images.{ImageSegment};

    ghost Value = { ImageSegment };

    ghost view = { λ segment. record {
      address = segment.address;
      flags = segment.flags;
      bytes = segment.bytes.items;
      size = segment.size;
    } };
}

/// An image: at most 16 segments that lie apart, below 2^32, of at most 2^29 bytes together.
/// Contracts see it as its entry and the list of its segments.
#[derive(Debug, Drop)]
pub struct Image {
    /// The address of the first instruction.
    pub entry: u64,
    /// Its segments, in any order.
    pub segments: Vec<Segment>,
}

impl Model for Image {
    ghost use Rattle.rv_code.specs.Images.{Image as ImageValue, IsImage};

    ghost Value = { ImageValue };

    ghost view = { λ image. record { entry = image.entry; segments = image.segments.items } };

    ghost invariant = { λ image.
        IsImage (record { entry = image.entry; segments = image.segments.items }) };
}
