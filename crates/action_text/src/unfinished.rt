//! A text in the making.
ghost use Rattle.std.specs.Prelude.{◌≤◌, vec_len};
ghost use Rattle.std.specs.Option.{ForSome};

/// A text in the making.
#[derive(Drop)]
pub struct Text {
    /// The bytes so far.
    pub bytes: Vec<u8>,
    /// Where the last token begins.
    pub last: Option<usize>,
    // It begins within the text.
    pub ghost inside: { ForSome last (λ start. start ≤ vec_len bytes) },
}
