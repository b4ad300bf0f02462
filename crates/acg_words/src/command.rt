//! What command lines ask for.

use acg_base::Capacity;

/// A command with its options and operands.
#[derive(Clone, Copy, Debug, PartialEq, Eq)]
pub enum Command<'a> {
    /// To run the image of an action.
    Act(Act<'a>),
    /// To run an image.
    Run(Run<'a>),
    /// To perform an action.
    Perform(Perform<'a>),
    /// To print how the program is used.
    Help,
    /// To print which version it is.
    Version,
}

/// The options and the operands of `act`.
#[derive(Clone, Copy, Debug, PartialEq, Eq)]
pub struct Act<'a> {
    /// The room of the run: from 1 to 16777216 words of the stack, and from 1 to 4194304 units.
    pub capacity: Capacity,
    /// The most instructions that are run, from 1 to 1000000000.
    pub budget: u64,
    /// The file with the action.
    pub action: &'a str,
    /// The file with the input; where there is none, the input is empty.
    pub input: Option<&'a str>,
}

/// The option and the operands of `run`.
#[derive(Clone, Copy, Debug, PartialEq, Eq)]
pub struct Run<'a> {
    /// The most instructions that are run, from 1 to 1000000000.
    pub budget: u64,
    /// The file with the image.
    pub image: &'a str,
    /// The file with the input; where there is none, the input is empty.
    pub input: Option<&'a str>,
}

/// The operands of `perform`.
#[derive(Clone, Copy, Debug, PartialEq, Eq)]
pub struct Perform<'a> {
    /// The number that chooses the performance, below 2^63.
    pub number: u64,
    /// The file with the action.
    pub action: &'a str,
    /// The file with the input; where there is none, the input is empty.
    pub input: Option<&'a str>,
}
