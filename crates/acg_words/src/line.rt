//! The lines that end an answer.

ghost use Rattle.std.specs.Prelude.{◌≡◌};
ghost use Rattle.acg_words.specs.Lines.{bytes_of, status_of, exit_status};
ghost use Rattle.acg_words.specs.Prints.{Printed, Answered};

use crate::prints::{
    print, print_named, print_numbered, print_rule, print_trapped, print_uncovered,
};
use acg_base::{
    LIMIT_ACTION, LIMIT_DESCRIPTION, LIMIT_IMAGE, LIMIT_INPUT, LIMIT_LEXEMES, LIMIT_NODES,
    LIMIT_SOURCE, Memory, Name, Sink, SinkError, Status,
};
use rv_code::Cause;

/// The line that ends an answer: why a request was refused, or how a run or a performance ended.
/// Each goes with one status. Offsets are in bytes, nodes are numbers of action nodes, both from 0.
#[derive(Debug, Drop)]
pub enum Line {
    /// The words are no command line.
    Words,
    /// A read of the store failed.
    ReadFault {
        /// The name that was read.
        name: Name,
    },
    /// A write of the store failed.
    WriteFault {
        /// The name that was written.
        name: Name,
    },
    /// The file of the description has more bytes than `LIMIT_DESCRIPTION`.
    LimitDescription,
    /// The file of the source has more bytes than `LIMIT_SOURCE`.
    LimitSource,
    /// The source has more lexemes than `LIMIT_LEXEMES`.
    LimitLexemes,
    /// The file of the action has more bytes than `LIMIT_ACTION`.
    LimitAction,
    /// The file of the input has more bytes than `LIMIT_INPUT`.
    LimitInput,
    /// The file of the image has more bytes than `LIMIT_IMAGE`.
    LimitImage,
    /// The action has more nodes and yielders than `LIMIT_NODES`.
    LimitNodes,
    /// After tokens and blanks of the description, no token begins there.
    DescriptionByte {
        /// Where it is.
        offset: u32,
    },
    /// An item of the description isn't formed as one.
    DescriptionItem {
        /// Which item.
        index: u32,
    },
    /// The description breaks a rule.
    DescriptionRule {
        /// Which rule, from 1 to 9.
        rule: u8,
        /// The item that breaks it.
        item: u32,
    },
    /// After lexemes and blanks of the source, no lexeme begins there.
    SourceByte {
        /// Where it is.
        offset: u32,
    },
    /// The lexemes of the source have no tree.
    NoTree,
    /// The lexemes of the source have more than one tree.
    Ambiguous,
    /// A semantic function has no equation for a phrase.
    Uncovered {
        /// The name of the function.
        function: Vec<u8>,
        /// The name of the phrase's production.
        production: Vec<u8>,
        /// The number of its alternative, from 1.
        alternative: u32,
    },
    /// A numeral of the source whose value is asked for is above 9223372036854775807.
    Numeral {
        /// Where it is.
        offset: u32,
    },
    /// After tokens and blanks, no token begins there.
    ActionByte {
        /// Where it is.
        offset: u32,
    },
    /// The token there is the first with which the text begins no action, or the text ends there
    /// too early.
    ActionText {
        /// Where it is.
        offset: u32,
    },
    /// An `unfold` has no `unfolding` around it.
    StrayUnfold {
        /// The least such node.
        node: u32,
    },
    /// No table of sorts is admissible for the action.
    IllSorted {
        /// The least node with a clash in the least marked table.
        node: u32,
    },
    /// A node has no code yet.
    Unbuilt {
        /// The least such node.
        node: u32,
    },
    /// The file of the image has fewer than 64 bytes.
    ImageShort,
    /// Its first four bytes aren't those of an ELF file.
    ImageMagic,
    /// It isn't of 64-bit numbers with the lowest byte first, in version 1.
    ImageClass,
    /// It isn't for RISC-V.
    ImageMachine,
    /// It isn't a program that stands at its addresses.
    ImageKind,
    /// Its program headers have another size, are more than 16, or pass the end of the file.
    ImageHeader,
    /// The range of a segment passes the end of the file, or it makes no image with those before it.
    ImageSegment {
        /// The number of its program header among all, from 0.
        index: u32,
    },
    /// Memory ran out.
    Memory,
    /// The run or the performance has completed.
    Completed,
    /// It has failed.
    Failed,
    /// It has escaped.
    Escaped,
    /// The run needed more words or units than there are.
    Full,
    /// It has taken as many instructions or steps as it may without an end.
    Running,
    /// The image has exited.
    Exited {
        /// The code with which it has.
        code: u8,
    },
    /// The machine has trapped on the image.
    Trapped {
        /// Why it has.
        cause: Cause,
        /// The address of the instruction.
        pc: u64,
    },
}

// The status of an image that exits with a code.
fn exit_status(code: u8) -> Status
    ensures { result ≡ exit_status code }
{
    match code {
        0 => Status::Done,
        1 => Status::Failed,
        2 => Status::Escaped,
        3 => Status::Full,
        _ => Status::ExitAbove,
    }
}

impl From<Memory> for Line {
    ghost use Rattle.std.specs.Prelude.{◌≡◌};
    ghost use Rattle.acg_words.specs.declared.line.Line.TheVariants.{Memory as OutOfMemory};

    ghost from_gives = { λ _ line. line ≡ OutOfMemory };

    fn from(_error: Memory) -> Line {
        Line::Memory
    }
}

impl Line {
    ghost use Rattle.std.specs.Prelude.{◌≡◌, ◌≢◌, ◌⊎◌, length, IsTrue, OnOk, OnErr};
    ghost use Rattle.acg_base.specs.Outside.{counted};
    ghost use Rattle.acg_words.specs.Lines.{bytes_of, status_of, is_one_piece, pieces_of, TellsWriteFault};
    ghost use Rattle.acg_words.specs.Prints.{Printed, Answered, PiecesBroke, writes_behind};

    /// The status that goes with the line.
    pub fn status(&self) -> Status
        ensures { result ≡ status_of self.now }
    {
        match self {
            Line::Words => Status::Words,
            Line::ReadFault { .. } => Status::ReadFault,
            Line::WriteFault { .. } => Status::WriteFault,
            Line::LimitDescription
            | Line::LimitSource
            | Line::LimitLexemes
            | Line::LimitAction
            | Line::LimitInput
            | Line::LimitImage
            | Line::LimitNodes => Status::Limit,
            Line::DescriptionByte { .. }
            | Line::DescriptionItem { .. }
            | Line::DescriptionRule { .. } => Status::Description,
            Line::SourceByte { .. } | Line::NoTree | Line::Ambiguous => Status::Source,
            Line::Uncovered { .. } => Status::Uncovered,
            Line::Numeral { .. } => Status::Numeral,
            Line::ActionByte { .. }
            | Line::ActionText { .. }
            | Line::StrayUnfold { .. }
            | Line::Unbuilt { .. } => Status::Action,
            Line::IllSorted { .. } => Status::IllSorted,
            Line::ImageShort
            | Line::ImageMagic
            | Line::ImageClass
            | Line::ImageMachine
            | Line::ImageKind
            | Line::ImageHeader
            | Line::ImageSegment { .. } => Status::Image,
            Line::Memory => Status::Memory,
            Line::Completed => Status::Done,
            Line::Failed => Status::Failed,
            Line::Escaped => Status::Escaped,
            Line::Full => Status::Full,
            Line::Running => Status::Running,
            Line::Exited { code } => exit_status(*code),
            Line::Trapped { .. } => Status::Trapped,
        }
    }

    /// Prints the line, by one write or, where it has names, by one for each piece. Answers `Failed` where the
    /// sink fails: it has the pieces before the failed one and a front of that one then.
    pub fn print<K: Sink>(&self, out: &mut K) -> Result<(), SinkError>
        ensures printed { Printed K.Sink (bytes_of self.now) out.old out.new result }
        ensures pieces { OnOk result
            (K.writes out.new ≡ writes_behind (length (pieces_of self.now)) (K.writes out.old)) }
        ensures broken { OnErr result (PiecesBroke K.Sink (pieces_of self.now) out.old out.new) }
        ensures once { IsTrue (is_one_piece self.now) →
            K.writes out.new ≡ counted (K.writes out.old) }
    {
        match self {
            Line::Words => print(out, b"words\n"),
            Line::ReadFault { name } => print_named(out, b"read fault ", name.bytes()),
            Line::WriteFault { name } => print_named(out, b"write fault ", name.bytes()),
            Line::LimitDescription => print_numbered(out, b"limit description ", LIMIT_DESCRIPTION),
            Line::LimitSource => print_numbered(out, b"limit source ", LIMIT_SOURCE),
            Line::LimitLexemes => print_numbered(out, b"limit lexemes ", LIMIT_LEXEMES),
            Line::LimitAction => print_numbered(out, b"limit action ", LIMIT_ACTION),
            Line::LimitInput => print_numbered(out, b"limit input ", LIMIT_INPUT),
            Line::LimitImage => print_numbered(out, b"limit image ", LIMIT_IMAGE),
            Line::LimitNodes => print_numbered(out, b"limit nodes ", LIMIT_NODES),
            Line::DescriptionByte { offset } => print_numbered(out, b"description byte ", *offset),
            Line::DescriptionItem { index } => print_numbered(out, b"description item ", *index),
            Line::DescriptionRule { rule, item } => print_rule(out, *rule, *item),
            Line::SourceByte { offset } => print_numbered(out, b"source byte ", *offset),
            Line::NoTree => print(out, b"source no tree\n"),
            Line::Ambiguous => print(out, b"source ambiguous\n"),
            Line::Uncovered {
                function,
                production,
                alternative,
            } => print_uncovered(out, function, production, *alternative),
            Line::Numeral { offset } => print_numbered(out, b"numeral ", *offset),
            Line::ActionByte { offset } => print_numbered(out, b"action byte ", *offset),
            Line::ActionText { offset } => print_numbered(out, b"action text ", *offset),
            Line::StrayUnfold { node } => print_numbered(out, b"stray unfold ", *node),
            Line::IllSorted { node } => print_numbered(out, b"ill-sorted ", *node),
            Line::Unbuilt { node } => print_numbered(out, b"unbuilt ", *node),
            Line::ImageShort => print(out, b"image short\n"),
            Line::ImageMagic => print(out, b"image magic\n"),
            Line::ImageClass => print(out, b"image class\n"),
            Line::ImageMachine => print(out, b"image machine\n"),
            Line::ImageKind => print(out, b"image kind\n"),
            Line::ImageHeader => print(out, b"image header\n"),
            Line::ImageSegment { index } => print_numbered(out, b"image segment ", *index),
            Line::Memory => print(out, b"memory\n"),
            Line::Completed => print(out, b"completed\n"),
            Line::Failed => print(out, b"failed\n"),
            Line::Escaped => print(out, b"escaped\n"),
            Line::Full => print(out, b"full\n"),
            Line::Running => print(out, b"running\n"),
            Line::Exited { code } => print_numbered(out, b"exited ", u32::from(*code)),
            Line::Trapped { cause, pc } => print_trapped(out, *cause, *pc),
        }
    }

    /// Prints the line, and answers its status, or `WriteFault` where the sink fails. So for the
    /// line of a write of the store that failed it answers `WriteFault` in both cases.
    pub fn answer<K: Sink>(&self, out: &mut K) -> Status
        ensures answered { Answered K.Sink (bytes_of self.now) (status_of self.now)
            out.old out.new result }
        ensures pieces { result ≢ Status.WriteFault →
            K.writes out.new ≡ writes_behind (length (pieces_of self.now)) (K.writes out.old) }
        ensures broken { result ≡ Status.WriteFault →
            PiecesBroke K.Sink (pieces_of self.now) out.old out.new
            ⊎ TellsWriteFault K.Sink self.now out.old out.new }
        ensures once { IsTrue (is_one_piece self.now) →
            K.writes out.new ≡ counted (K.writes out.old) }
    {
        match self.print(out) {
            Ok(()) => self.status(),
            Err(SinkError::Failed) => Status::WriteFault,
        }
    }
}
