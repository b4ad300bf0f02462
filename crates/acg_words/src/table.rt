//! The commands that there are, and the statuses with which they end.

ghost use Rattle.std.specs.Prelude.{◌≡◌};
ghost use Rattle.std.specs.Str.{bytes_eq};
ghost use Rattle.acg_words.specs.Commands.{name_of, kind_of};
ghost use Rattle.acg_words.specs.Usage.{IsRow, meaning_of};

use crate::settings::Setting;
use acg_base::Status;

/// Which command it is.
#[derive(Clone, Copy, Debug, PartialEq, Eq)]
pub(crate) enum Kind {
    /// To run the image of an action.
    Act,
    /// To run an image.
    Run,
    /// To perform an action.
    Perform,
    /// To print how the program is used.
    Help,
    /// To print which version it is.
    Version,
}

/// The commands that there are.
pub(crate) static KINDS: [Kind; 5] = [
    Kind::Act,
    Kind::Run,
    Kind::Perform,
    Kind::Help,
    Kind::Version,
];

/// How a command is written, and what it does.
#[derive(Clone, Copy)]
pub(crate) struct Row {
    /// The first word.
    pub(crate) name: &'static str,
    /// Its options, in the order in which words say them.
    pub(crate) settings: &'static [Setting],
    /// The words behind these, each with a blank before it; one in brackets may be left out.
    pub(crate) operands: &'static str,
    /// What it does.
    pub(crate) about: &'static str,
}

/// How the command is written, and what it does.
pub(crate) fn row_of(kind: Kind) -> Row
    ensures { IsRow kind result }
{
    match kind {
        Kind::Act => Row {
            name: "act",
            settings: &[Setting::Stack, Setting::Units, Setting::Budget],
            operands: " ACTION [INPUT]",
            about: "compiles the action in the file ACTION, and runs its image",
        },
        Kind::Run => Row {
            name: "run",
            settings: &[Setting::Budget],
            operands: " IMAGE [INPUT]",
            about: "runs the image in the file IMAGE",
        },
        Kind::Perform => Row {
            name: "perform",
            settings: &[],
            operands: " N ACTION [INPUT]",
            about: "performs the action; N, a number below 2^63, chooses each step",
        },
        Kind::Help => Row {
            name: "help",
            settings: &[],
            operands: "",
            about: "prints this",
        },
        Kind::Version => Row {
            name: "version",
            settings: &[],
            operands: "",
            about: "prints the version",
        },
    }
}

// Whether the command has that name.
#[tactic(auto, using(crate::proofs::WordsLemmas::words))]
fn is_named(kind: Kind, name: &str) -> bool
    ensures { result ≡ bytes_eq (name_of kind) name.now }
{
    row_of(kind).name == name
}

/// The command with that name, where there is one.
#[tactic(auto, using(crate::proofs::Tables::steps))]
pub(crate) fn kind_named(name: &str) -> Option<Kind>
    ensures { result ≡ kind_of name.now }
{
    for kind in KINDS {
        if is_named(kind, name) {
            return Some(kind);
        }
    }
    None
}

/// The statuses with which the commands end.
pub(crate) static STATUSES: [Status; 15] = [
    Status::Done,
    Status::Failed,
    Status::Escaped,
    Status::Full,
    Status::Running,
    Status::ExitAbove,
    Status::Words,
    Status::ReadFault,
    Status::WriteFault,
    Status::IllSorted,
    Status::Limit,
    Status::Memory,
    Status::Image,
    Status::Trapped,
    Status::Action,
];

/// What a status means.
pub(crate) fn meaning_of(status: Status) -> &'static str
    ensures { result.now ≡ meaning_of status }
{
    match status {
        Status::Done => "done, or the action has completed",
        Status::Failed => "the action has failed",
        Status::Escaped => "the action has escaped",
        Status::Full => "the run needs more memory than it has",
        Status::Running => "the instructions or steps of a run were taken without an end",
        Status::ExitAbove => "the image has exited with a code above 3",
        Status::Words => "the words are no command line",
        Status::ReadFault => "a file can't be read",
        Status::WriteFault => "the output can't be written",
        Status::Description => "the description is none, or breaks a rule",
        Status::Source => "the source has no tree, or more than one",
        Status::Uncovered => "a phrase has no equation",
        Status::Numeral => "a numeral is too large",
        Status::IllSorted => "the action isn't well-sorted",
        Status::Limit => "a file or an action is too large",
        Status::Memory => "memory ran out",
        Status::Image => "the image is refused",
        Status::Trapped => "the machine has trapped on the image",
        Status::Action => "the file holds no action, or one that can't be compiled",
    }
}
