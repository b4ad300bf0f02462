//! The greatest inputs that are taken. A limit is passed where the number is greater.

/// Bytes of a description.
pub const LIMIT_DESCRIPTION: u32 = 1_048_576;

/// Bytes of a source.
pub const LIMIT_SOURCE: u32 = 1_048_576;

/// Bytes of an action text.
pub const LIMIT_ACTION: u32 = 1_048_576;

/// Bytes of the input of a run.
pub const LIMIT_INPUT: u32 = 8_388_608;

/// Bytes of an image.
pub const LIMIT_IMAGE: u32 = 536_870_912;

/// Lexemes of a source.
pub const LIMIT_LEXEMES: u32 = 4096;

/// Action nodes and yielders of one action, together.
pub const LIMIT_NODES: u32 = 65_536;
