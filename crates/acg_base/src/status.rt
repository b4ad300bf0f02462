//! How a request ended.

ghost use Rattle.std.specs.Prelude.{◌≡◌};
ghost use Rattle.acg_base.specs.Statuses.{code_of};

/// How a request ended. The number behind a variant is the exit status of the program.
#[derive(Clone, Copy, Debug, PartialEq, Eq)]
pub enum Status {
    /// The request was carried out, the run completed, or a foreign image exited with 0.
    Done = 0,
    /// The run failed, or a foreign image exited with 1.
    Failed = 1,
    /// The run escaped, or a foreign image exited with 2.
    Escaped = 2,
    /// The run was full, or a foreign image exited with 3.
    Full = 3,
    /// The budget of instructions or of steps was taken without an end.
    Running = 4,
    /// A foreign image exited with a code above 3.
    ExitAbove = 5,
    /// The words are no command line.
    Words = 10,
    /// A read of the store failed.
    ReadFault = 11,
    /// A write of the store or of the sink failed.
    WriteFault = 12,
    /// The description is none, or breaks a rule.
    Description = 13,
    /// The source has no lexemes, no tree, or more than one.
    Source = 14,
    /// An application of a semantic function has no equation.
    Uncovered = 15,
    /// A numeral is above 9223372036854775807.
    Numeral = 16,
    /// The action isn't well-sorted.
    IllSorted = 17,
    /// One of the limits is passed.
    Limit = 18,
    /// Memory ran out.
    Memory = 19,
    /// The image is refused.
    Image = 20,
    /// The machine trapped on a foreign image.
    Trapped = 21,
    /// The action text is none, or has a stray `unfold`.
    Action = 22,
}

impl Status {
    /// The exit status of the program.
    pub fn code(&self) -> u8
        ensures { result ≡ code_of self.now }
    {
        *self as u8
    }
}
