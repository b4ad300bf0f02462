//! Images, and the ELF64 files in which they are kept.
#![tactic(auto)]

pub mod error;
mod fields;
pub mod image;
mod reading;
mod writing;

pub use error::ImageError;
pub use image::{Image, Segment};
pub use reading::read_image;
pub use writing::write_image;
