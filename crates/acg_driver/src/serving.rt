//! Serving command lines.

ghost use Rattle.std.specs.Prelude.{◌≡◌, ◌≢◌, [], IsTrue, IfSome, option_map};
ghost use Rattle.acg_words.specs.Commands.{command_of, asked, HasRanges};
ghost use Rattle.acg_driver.specs.Files.{files_if, FaultsWhere, missing_file};
ghost use Rattle.acg_driver.specs.Serving.{Served, LacksAny, Names, Performs, Handled};

use crate::commands::act::act;
use crate::commands::help::{help, version};
use crate::commands::perform::perform;
use crate::commands::run::run;
use acg_base::{Sink, Status, Store, Words};
use acg_words::{Command, Line, parse_command};
use std::alloc::Global;

// Does what a command asks for, or refuses words that are none.
fn carry_out<S: Store, K: Sink>(
    alloc: Global,
    command: Option<Command<'_>>,
    store: &mut S,
    out: &mut K,
) -> Status
    requires { IfSome command (λ c. HasRanges (asked c)) }
    ensures { Handled S.Store K.Sink (option_map asked command.entry)
        store.old store.new out.old out.new result }
{
    match command {
        None => Line::Words.answer(out),
        Some(Command::Act(operands)) => act(alloc, operands, store, out),
        Some(Command::Run(operands)) => run(alloc, operands, store, out),
        Some(Command::Perform(operands)) => perform(alloc, operands, store, out),
        Some(Command::Help) => help(out),
        Some(Command::Version) => version(out),
    }
}

/// Does what a command line asks for.
///
/// `act ACTION` reads the action text that the store has at the name ACTION, compiles it, and runs its image. Options before
/// ACTION say the room of the run, `stack=N` and `units=N`, and the most instructions, `budget=N`. Its input is empty, or with
/// `act ACTION INPUT` the file INPUT.
/// `run IMAGE` reads the file of an image at the name IMAGE, and runs it for at most 10000000
/// instructions, or as many as an option `budget=N` before it says. Its input is empty, or with
/// `run IMAGE INPUT` the file INPUT.
/// `perform N ACTION` reads it and performs it without an image, for at most 1000000 steps: the number N chooses each
/// step among those that stand open. Its input is empty, or with `perform N ACTION INPUT` the file INPUT. `help` prints
/// how the program is used, and `version` its version.
///
/// The sink gets the lines that are printed: for a run of an action's image first a header with the
/// words of the stack, the units and the factor; then the messages in the order in which they were
/// sent, and the outcome; for the run of a file of an image the bytes that it sends as they are, and
/// then how it ended; else the one line of a refusal. The status tells the same as the lines. Behind a write that failed nothing is written.
pub fn serve<S: Store, K: Sink>(alloc: Global, words: &Words, store: &mut S, out: &mut K) -> Status
    // Which files are read, what is said for what they gave, and what store and sink get.
    ensures served { Served S.Store K.Sink (command_of words.now)
        store.old store.new out.old out.new result }

    // Over a sure store a read fault comes exactly where a file isn't there.
    ensures surely { IsTrue (S.sure store.old) →
        FaultsWhere (LacksAny (S.contents store.old) (command_of words.now)) result }

    // Its line names the first file that isn't there.
    ensures named { IsTrue (S.sure store.old) → Names K.Sink
        (missing_file (S.contents store.old) (files_if (command_of words.now))) out.old out.new result }

    // An action that reads is performed, or run where it has code, and so is an image that passes all
    // checks: only want of memory and faults are free to come.
    ensures performs { IsTrue (S.tells store.old) → result ≢ Status.ReadFault → result ≢ Status.WriteFault →
        Performs (S.contents store.old) words.now result }

    // Where there is no file to read, the store isn't asked.
    ensures idle { files_if (command_of words.now) ≡ [] → store.new ≡ store.old }
{
    carry_out(alloc, parse_command(words), store, out)
}
