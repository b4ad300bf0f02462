//! The performance that a number chooses.

ghost use Rattle.std.specs.Prelude.{◌≡◌, ◌<◌, ◌≤◌, ◌+◌, length, drop};
ghost use Rattle.action_terms.specs.Performances.{start};
ghost use Rattle.action_terms.specs.Acting.{End};
ghost use Rattle.action_sos.specs.Performers.{outcome_of};
ghost use Rattle.action_sos.specs.Schedules.{next_number, chosen};
ghost use Rattle.acg_words.specs.Lines.{message_lines};
ghost use Rattle.acg_words.specs.Prints.{Printed};
ghost use Rattle.acg_driver.specs.Says.{Said};
ghost use Rattle.acg_driver.specs.Commands.Perform.{IsPerformed, end_line};

use acg_base::{Sink, SinkError, Status};
use acg_words::{Line, print_message};
use action_sos::{Moved, Outcome, Performer};

/// The most steps of a performance.
pub(crate) const STEP_LIMIT: u32 = 1_000_000;

// The number of the step behind one with this number: a linear congruential generator modulo 2^64.
fn next_number(number: u64) -> u64
    ensures { result ≡ next_number number }
{
    number
        .wrapping_mul(6364136223846793005)
        .wrapping_add(1442695040888963407)
}

// The index of the open step that the number chooses. Its lower bits have short periods, so they don't count.
fn chosen(number: u64, open_steps: u64) -> u64
    requires { 0 < open_steps }
    ensures { result ≡ chosen number open_steps }
{
    number / 8_589_934_592 % open_steps
}

// Prints the message that stands behind so many, where there is one.
fn print_sent<K: Sink>(out: &mut K, output: &[i64], before: usize) -> Result<(), SinkError>
    requires { length output.now ≤ before + 1 }
    ensures { Printed K.Sink (message_lines (drop before output.now)) out.old out.new result }
{
    match output.get(before) {
        Some(message) => print_message(out, *message),
        None => Ok(()),
    }
}

// The line of an outcome.
fn end_line(outcome: Outcome) -> Line
    ensures { (z : End) → outcome ≡ outcome_of z → result ≡ end_line z }
{
    match outcome {
        Outcome::Completed => Line::Completed,
        Outcome::Escaped => Line::Escaped,
        Outcome::Failed => Line::Failed,
    }
}

/// Takes steps until the performance has ended, for at most 1000000 steps: the schedule of the number chooses each among
/// those that stand open. Prints the messages, a decimal on a line, and then the outcome.
///
/// The answer is the status of the outcome, `Running` where there is none within the limit, `Memory` where memory runs
/// out, whose line then stands behind the messages so far, or `WriteFault` where a write of `out` failed.
pub fn take_steps<K: Sink>(performer: &mut Performer<'_>, mut number: u64, out: &mut K) -> Status
    requires { performer.old.state ≡ start performer.old.state.world.input }
    ensures { Said K.Sink
        (IsPerformed number performer.old.graph performer.old.state.world.input)
        out.old out.new result }
{
    for _turn in 0..STEP_LIMIT {
        let before = performer.output().len();
        let choice = chosen(number, performer.open_steps());
        let Ok(moved) = performer.step(choice) else {
            return Line::Memory.answer(out);
        };
        if print_sent(out, performer.output(), before).is_err() {
            return Status::WriteFault;
        }
        if let Moved::Ended(outcome) = moved {
            return end_line(outcome).answer(out);
        }
        number = next_number(number);
    }
    Line::Running.answer(out)
}
