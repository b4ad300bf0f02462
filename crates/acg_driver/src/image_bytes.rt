//! Bytes that are read as an image.

ghost use Rattle.std.specs.Prelude.{IfOk, IfErr};
ghost use Rattle.acg_driver.specs.ImageFiles.{GivesImage, RefusesImage};

use acg_base::LIMIT_IMAGE;
use acg_words::Line;
use elf_image::{Image, ImageError, read_image};
use std::alloc::Global;

/// Reads bytes as an image, or answers the line with which they are refused.
///
/// The bytes are freed at the end: the image has its own copy of what it loads, and no second one
/// stands while it is loaded and run.
pub fn image_of(alloc: Global, bytes: Vec<u8>) -> Result<Image, Line>
    ensures image { IfOk result (λ image. GivesImage bytes.items image) }
    ensures refusal { IfErr result (λ line. RefusesImage bytes.items line) }
{
    if bytes.len() > LIMIT_IMAGE as usize {
        return Err(Line::LimitImage);
    }
    match read_image(alloc, &bytes) {
        Ok(image) => Ok(image),
        Err(ImageError::Memory) => Err(Line::Memory),
        Err(ImageError::Short) => Err(Line::ImageShort),
        Err(ImageError::Magic) => Err(Line::ImageMagic),
        Err(ImageError::Class) => Err(Line::ImageClass),
        Err(ImageError::Machine) => Err(Line::ImageMachine),
        Err(ImageError::Kind) => Err(Line::ImageKind),
        Err(ImageError::Header) => Err(Line::ImageHeader),
        Err(ImageError::Segment { index }) => Err(Line::ImageSegment { index }),
    }
}
