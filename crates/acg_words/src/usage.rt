//! How the program is used, and its version.

ghost use Rattle.std.specs.Prelude.{◌≡◌, ◌++◌, codes};
ghost use Rattle.std.specs.List.{flat_map};
ghost use Rattle.acg_base.specs.Outside.{counted};
ghost use Rattle.acg_words.specs.Prints.{Printed};
ghost use Rattle.acg_words.specs.Usage.{option_text, about_text, command_lines, option_line, status_line, usage, version_line};

use crate::prints::{print, print_all};
use crate::settings::{SETTINGS, Setting, setting_row};
use crate::table::{KINDS, Kind, Row, STATUSES, meaning_of, row_of};
use acg_base::{Sink, SinkError, Status, unsigned_into};

// Prints an option where a command takes it.
fn print_sign<K: Sink>(out: &mut K, setting: Setting) -> Result<(), SinkError>
    ensures { Printed K.Sink (option_text setting) out.old out.new result }
{
    let row = setting_row(setting);
    print_all(
        out,
        &[b" [".as_slice(), row.sign.as_bytes(), b"N]".as_slice()],
    )
}

// Prints options where a command takes them.
fn print_signs<K: Sink>(out: &mut K, settings: &[Setting]) -> Result<(), SinkError>
    ensures { Printed K.Sink (flat_map option_text settings.now) out.old out.new result }
{
    for setting in settings {
        print_sign(out, *setting)?;
    }
    Ok(())
}

// Prints the name of a command.
fn print_name<K: Sink>(out: &mut K, row: &Row) -> Result<(), SinkError>
    ensures { Printed K.Sink (codes "acg " ++ row.now.name.now) out.old out.new result }
{
    print_all(out, &[b"acg ".as_slice(), row.name.as_bytes()])
}

// Prints the operands of a command, and what it does.
fn print_about<K: Sink>(out: &mut K, row: &Row) -> Result<(), SinkError>
    ensures { Printed K.Sink (about_text row.now.operands.now row.now.about.now)
        out.old out.new result }
{
    print_all(
        out,
        &[
            row.operands.as_bytes(),
            b"\n    ".as_slice(),
            row.about.as_bytes(),
            b"\n".as_slice(),
        ],
    )
}

// Prints a command.
fn print_command<K: Sink>(out: &mut K, kind: Kind) -> Result<(), SinkError>
    ensures { Printed K.Sink (command_lines kind) out.old out.new result }
{
    let row = row_of(kind);
    print_name(out, &row)?;
    print_signs(out, row.settings)?;
    print_about(out, &row)
}

// Prints an option.
fn print_setting<K: Sink>(out: &mut K, setting: Setting) -> Result<(), SinkError>
    ensures { Printed K.Sink (option_line setting) out.old out.new result }
{
    let row = setting_row(setting);
    let mut least = [0; 20];
    let least_count = unsigned_into(row.least, &mut least);
    let mut greatest = [0; 20];
    let greatest_count = unsigned_into(row.greatest, &mut greatest);
    let mut default = [0; 20];
    let default_count = unsigned_into(row.default, &mut default);
    print_all(
        out,
        &[
            b"option ".as_slice(),
            row.sign.as_bytes(),
            b"N: ".as_slice(),
            row.about.as_bytes(),
            b", from ".as_slice(),
            &least[..least_count],
            b" to ".as_slice(),
            &greatest[..greatest_count],
            b", or ".as_slice(),
            &default[..default_count],
            b" where none are said\n".as_slice(),
        ],
    )
}

// Prints a status.
fn print_status<K: Sink>(out: &mut K, status: Status) -> Result<(), SinkError>
    ensures { Printed K.Sink (status_line status) out.old out.new result }
{
    let mut digits = [0; 20];
    let count = unsigned_into(u64::from(status.code()), &mut digits);
    print_all(
        out,
        &[
            b"status ".as_slice(),
            &digits[..count],
            b": ".as_slice(),
            meaning_of(status).as_bytes(),
            b"\n".as_slice(),
        ],
    )
}

// Prints commands.
fn print_commands<K: Sink>(out: &mut K, kinds: &[Kind]) -> Result<(), SinkError>
    ensures { Printed K.Sink (flat_map command_lines kinds.now) out.old out.new result }
{
    for kind in kinds {
        print_command(out, *kind)?;
    }
    Ok(())
}

// Prints options.
fn print_options<K: Sink>(out: &mut K, settings: &[Setting]) -> Result<(), SinkError>
    ensures { Printed K.Sink (flat_map option_line settings.now) out.old out.new result }
{
    for setting in settings {
        print_setting(out, *setting)?;
    }
    Ok(())
}

// Prints statuses.
fn print_statuses<K: Sink>(out: &mut K, statuses: &[Status]) -> Result<(), SinkError>
    ensures { Printed K.Sink (flat_map status_line statuses.now) out.old out.new result }
{
    for status in statuses {
        print_status(out, *status)?;
    }
    Ok(())
}

/// Prints each command that there is, each option, and each status with which commands end.
///
/// Answers `Failed` where the sink fails: it has a front of the text then.
#[tactic(auto, unfolding(crate::specs::Usage::usage))]
pub fn print_usage<K: Sink>(out: &mut K) -> Result<(), SinkError>
    ensures { Printed K.Sink usage out.old out.new result }
{
    print_commands(out, &KINDS)?;
    print_options(out, &SETTINGS)?;
    print_statuses(out, &STATUSES)
}

/// Prints the name of the program and its version, by one write.
///
/// Answers `Failed` where the sink fails: it has a front of the line then.
pub fn print_version<K: Sink>(out: &mut K) -> Result<(), SinkError>
    ensures printed { Printed K.Sink version_line out.old out.new result }
    ensures once { K.writes out.new ≡ counted (K.writes out.old) }
{
    print(out, b"acg 0.2.0\n")
}
