//! Words that are read as commands.

ghost use Rattle.std.specs.Prelude.{◌≡◌, map, string_bytes, option_map, IfSome};
ghost use Rattle.std.specs.List.{list_any};
ghost use Rattle.acg_words.specs.Commands.{command_of, command_with, words_of, alone_of, asked, HasRanges, is_empty, act_of, run_of, perform_of};

use crate::command::{Act, Command, Perform, Run};
use crate::number::read_number;
use crate::settings::{Settings, read_settings};
use crate::table::{Kind, kind_named, row_of};
use acg_base::Words;

/// What the words ask for. Answers `None` exactly where they are no command line.
pub fn parse_command(words: &Words) -> Option<Command<'_>>
    ensures parsed { command_of words.now ≡ option_map asked result }
    ensures ranges { IfSome result (λ command. HasRanges (asked command)) }
{
    let list = words.list();
    if has_empty(list) {
        None
    } else {
        parse_list(list)
    }
}

// Whether one of the words is empty.
fn has_empty(words: &[String]) -> bool
    ensures { result ≡ list_any (λ word. is_empty (string_bytes word)) words.now }
{
    words.iter().any(|word| word.is_empty())
}

// What words ask for, none of which is empty.
fn parse_list(words: &[String]) -> Option<Command<'_>>
    ensures { command_with (map string_bytes words.now) ≡ option_map asked result }
{
    let [name, behind @ ..] = words else {
        return None;
    };
    let kind = kind_named(name.as_str())?;
    let told = read_settings(row_of(kind).settings, behind)?;
    parse_operands(kind, told.settings, told.behind)
}

// What a command's operands ask for, by what its options say.
fn parse_operands(kind: Kind, settings: Settings, operands: &[String]) -> Option<Command<'_>>
    ensures { words_of kind settings (map string_bytes operands.now) ≡ option_map asked result }
{
    match kind {
        Kind::Act => act(settings, operands),
        Kind::Run => run(settings, operands),
        Kind::Perform => perform(operands),
        Kind::Help => alone(operands, Command::Help),
        Kind::Version => alone(operands, Command::Version),
    }
}

// `ACTION`, or `ACTION INPUT`.
fn act(settings: Settings, operands: &[String]) -> Option<Command<'_>>
    ensures { act_of settings (map string_bytes operands.now) ≡ option_map asked result }
{
    let (action, input) = match operands {
        [action] => (action, None),
        [action, input] => (action, Some(input.as_str())),
        _ => return None,
    };
    Some(Command::Act(Act {
        capacity: settings.capacity,
        budget: settings.budget,
        action: action.as_str(),
        input,
    }))
}

// `IMAGE`, or `IMAGE INPUT`.
fn run(settings: Settings, operands: &[String]) -> Option<Command<'_>>
    ensures { run_of settings (map string_bytes operands.now) ≡ option_map asked result }
{
    let (image, input) = match operands {
        [image] => (image, None),
        [image, input] => (image, Some(input.as_str())),
        _ => return None,
    };
    Some(Command::Run(Run {
        budget: settings.budget,
        image: image.as_str(),
        input,
    }))
}

// `N ACTION`, or `N ACTION INPUT`.
fn perform(operands: &[String]) -> Option<Command<'_>>
    ensures { perform_of (map string_bytes operands.now) ≡ option_map asked result }
{
    let (number, action, input) = match operands {
        [number, action] => (number, action, None),
        [number, action, input] => (number, action, Some(input.as_str())),
        _ => return None,
    };
    Some(Command::Perform(Perform {
        number: read_number(number.as_bytes())?,
        action: action.as_str(),
        input,
    }))
}

// No operands.
fn alone<'a>(operands: &[String], command: Command<'a>) -> Option<Command<'a>>
    ensures { alone_of (asked command.entry) (map string_bytes operands.now)
        ≡ option_map asked result }
{
    if operands.is_empty() {
        Some(command)
    } else {
        None
    }
}
