//! Why bytes are refused as an image.

ghost use Rattle.std.specs.Prelude.{◌≡◌};
ghost use Rattle.elf_image.specs.declared.error.ImageError.TheVariants as image_error;

use acg_base::Memory;
use std::alloc::{AllocError, AllocFailed};
use thiserror::Error;

/// The first check that fails when bytes are read as an image, or want of memory.
#[derive(Clone, Copy, Debug, PartialEq, Eq, Drop, Error)]
pub enum ImageError {
    /// Want of memory.
    #[error("out of memory")]
    Memory,
    /// There are fewer than 64 bytes.
    #[error("the file is too short")]
    Short,
    /// The first four bytes aren't those of an ELF file.
    #[error("not an ELF file")]
    Magic,
    /// The file isn't of 64-bit numbers with the lowest byte first, in version 1.
    #[error("not a 64-bit file with the lowest byte first")]
    Class,
    /// The file isn't for RISC-V.
    #[error("not for RISC-V")]
    Machine,
    /// The file isn't a program that stands at its addresses.
    #[error("not an executable at fixed addresses")]
    Kind,
    /// A program header hasn't 56 bytes, there are more than 16, or they pass the end of the file.
    #[error("bad program headers")]
    Header,
    /// The range of a segment passes the end of the file, or it makes no image with those before
    /// it.
    #[error("bad segment {index}")]
    Segment {
        /// The number of its program header among all, from 0.
        index: u32,
    },
}

impl From<Memory> for ImageError {
    ghost from_gives = { λ _ error. error ≡ image_error.Memory };

    fn from(_error: Memory) -> ImageError {
        ImageError::Memory
    }
}

impl From<AllocError> for ImageError {
    ghost from_gives = { λ _ error. error ≡ image_error.Memory };

    fn from(_error: AllocError) -> ImageError {
        ImageError::Memory
    }
}

impl<T: Drop> From<AllocFailed<T>> for ImageError {
    ghost from_gives = { λ _ error. error ≡ image_error.Memory };

    fn from(_error: AllocFailed<T>) -> ImageError {
        ImageError::Memory
    }
}
