//! The commands `help` and `version`.

ghost use Rattle.acg_words.specs.Prints.{Answered};
ghost use Rattle.acg_words.specs.Usage.{usage, version_line};

use acg_base::{Sink, SinkError, Status};
use acg_words::{print_usage, print_version};

/// Prints how the program is used. Answers `Done`, or `WriteFault` where a write of the sink fails.
pub fn help<K: Sink>(out: &mut K) -> Status
    ensures { Answered K.Sink usage Status.Done out.old out.new result }
{
    match print_usage(out) {
        Ok(()) => Status::Done,
        Err(SinkError::Failed) => Status::WriteFault,
    }
}

/// Prints which version the program is. Answers `Done`, or `WriteFault` where a write of the sink fails.
pub fn version<K: Sink>(out: &mut K) -> Status
    ensures { Answered K.Sink version_line Status.Done out.old out.new result }
{
    match print_version(out) {
        Ok(()) => Status::Done,
        Err(SinkError::Failed) => Status::WriteFault,
    }
}
