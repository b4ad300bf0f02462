//! A run of an image: its messages, and how it ended.

ghost use Rattle.std.specs.Prelude.{◌≡◌, ◌≤◌, ℕ, []};
ghost use Rattle.rv_code.specs.Machine.{run};
ghost use Rattle.rv_machine.specs.Machines.{state_of};
ghost use Rattle.acg_words.specs.Prints.{Printed};
ghost use Rattle.acg_driver.specs.Says.{Said};
ghost use Rattle.acg_driver.specs.Runs.{output_lines, IsExit, IsRunOf};
ghost use Rattle.acg_driver.specs.Sending.{SendsMessages};

use crate::messages::split_message;
use acg_base::{Sink, SinkError, Status};
use acg_words::{Line, print_message};
use rv_machine::{Input, Machine, QuietEnd};

// Prints the messages that the bytes spell, a line each.
fn print_messages<K: Sink>(out: &mut K, bytes: &[u8]) -> Result<(), SinkError>
    ensures { Printed K.Sink (output_lines bytes.now) out.old out.new result }
{
    let mut rest = bytes;
    while let Some((message, behind)) = split_message(rest) {
        print_message(out, message)?;
        rest = behind;
    }
    Ok(())
}

// The line of an exit.
fn exit_line(code: u8) -> Line
    requires { code ≤ 3 }
    ensures { IsExit code result }
{
    match code {
        0 => Line::Completed,
        1 => Line::Failed,
        2 => Line::Escaped,
        _ => Line::Full,
    }
}

/// Runs a machine on the bytes of an input for at most `budget` instructions, and prints its messages, a decimal on a line,
/// and then how the run ended. Takes no memory.
///
/// The answer is the status of the outcome, or `WriteFault` where a write of `out` failed.
pub(crate) fn run_machine<K: Sink>(
    machine: &mut Machine,
    budget: u64,
    input: &[u8],
    out: &mut K,
) -> Status
    requires { (m : ℕ) → SendsMessages (run m (state_of machine.old input.now [])) }
    ensures { Said K.Sink (IsRunOf (run budget (state_of machine.old input.now [])))
        out.old out.new result }
{
    let mut input = Input {
        bytes: input,
        at: 0,
    };
    let mut ran = 0;
    'runs: loop {
        let quiet = machine.run_quietly(budget - ran, &mut input);
        match quiet.end {
            QuietEnd::Exited { code } => return exit_line(code).answer(out),
            QuietEnd::Trapped { .. } => unreachable!(),
            QuietEnd::Budget => return Line::Running.answer(out),
            QuietEnd::Sends => {}
        }
        if print_messages(out, machine.sending()).is_err() {
            return Status::WriteFault;
        }
        machine.pass_over();
        ran += quiet.ran + 1;
    }
}
