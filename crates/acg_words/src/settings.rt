//! The options of command lines: how they are written, their ranges, and how words say them.

ghost use Rattle.std.specs.Prelude.{◌≡◌, map, string_bytes, option_map};
ghost use Rattle.acg_words.specs.Settings.{IsSettingRow, sign_of, begins_with, behind_sign, setting_number, with_setting, defaults, is_option, with_first, told_by, pair_of};

use crate::number::read_number;
use acg_base::{Capacity, DEFAULT_BUDGET, DEFAULT_STACK, DEFAULT_UNITS};

/// Which option it is.
#[derive(Clone, Copy, Debug, PartialEq, Eq)]
pub(crate) enum Setting {
    /// How many words the stack has.
    Stack,
    /// How many units there are for cells and closures.
    Units,
    /// How many instructions are run at most.
    Budget,
}

/// The options that there are.
pub(crate) static SETTINGS: [Setting; 3] = [Setting::Stack, Setting::Units, Setting::Budget];

/// How an option is written, and which numbers it takes.
#[derive(Clone, Copy)]
pub(crate) struct SettingRow {
    /// Its name and `=`, behind which the number stands.
    pub(crate) sign: &'static str,
    /// The least number.
    pub(crate) least: u64,
    /// The greatest number.
    pub(crate) greatest: u64,
    /// The number where no word says one.
    pub(crate) default: u64,
    /// What it counts.
    pub(crate) about: &'static str,
}

/// How the option is written, and which numbers it takes.
pub(crate) fn setting_row(setting: Setting) -> SettingRow
    ensures { IsSettingRow setting result }
{
    match setting {
        Setting::Stack => SettingRow {
            sign: "stack=",
            least: 1,
            greatest: 16_777_216,
            default: DEFAULT_STACK,
            about: "words of 8 bytes for the frames of a run",
        },
        Setting::Units => SettingRow {
            sign: "units=",
            least: 1,
            greatest: 4_194_304,
            default: DEFAULT_UNITS,
            about: "units of 16 bytes for the cells and closures of a run",
        },
        Setting::Budget => SettingRow {
            sign: "budget=",
            least: 1,
            greatest: 1_000_000_000,
            default: DEFAULT_BUDGET,
            about: "instructions that are run at most",
        },
    }
}

/// What the options of a command say.
#[derive(Clone, Copy)]
pub(crate) struct Settings {
    /// The room of a run.
    pub(crate) capacity: Capacity,
    /// The most instructions of a run.
    pub(crate) budget: u64,
}

/// What options say, and the words behind them.
#[derive(Clone, Copy)]
pub(crate) struct Told<'a> {
    /// What they say.
    pub(crate) settings: Settings,
    /// The words behind them.
    pub(crate) behind: &'a [String],
}

// What holds where no word is an option.
fn defaults() -> Settings
    ensures { result ≡ defaults }
{
    Settings {
        capacity: Capacity {
            stack: setting_row(Setting::Stack).default,
            units: setting_row(Setting::Units).default,
        },
        budget: setting_row(Setting::Budget).default,
    }
}

// The settings, with one of them said anew.
fn with_setting(setting: Setting, number: u64, settings: Settings) -> Settings
    ensures { result ≡ with_setting setting number settings }
{
    let Settings { capacity, budget } = settings;
    match setting {
        Setting::Stack => Settings {
            capacity: Capacity {
                stack: number,
                units: capacity.units,
            },
            budget,
        },
        Setting::Units => Settings {
            capacity: Capacity {
                stack: capacity.stack,
                units: number,
            },
            budget,
        },
        Setting::Budget => Settings {
            capacity,
            budget: number,
        },
    }
}

// What stands behind the sign, in a word that begins with it.
fn behind_sign<'a>(sign: &str, word: &'a str) -> Option<&'a [u8]>
    ensures { option_map (λ behind. behind.now) result ≡ behind_sign sign.now word.now }
{
    word.as_bytes().strip_prefix(sign.as_bytes())
}

// The number that an option says, without a sign and within its range.
fn read_setting(setting: Setting, digits: &[u8]) -> Option<u64>
    ensures { result ≡ setting_number setting digits.now }
{
    let row = setting_row(setting);
    let number = read_number(digits)?;
    if row.least <= number && number <= row.greatest {
        Some(number)
    } else {
        None
    }
}

// Reads the option where the first word says it.
fn read_first<'a>(setting: Setting, told: Told<'a>) -> Option<Told<'a>>
    ensures { option_map pair_of result ≡ with_first setting told.entry.settings
        (map string_bytes told.entry.behind.now) }
{
    let [word, behind @ ..] = told.behind else {
        return Some(told);
    };
    match behind_sign(setting_row(setting).sign, word.as_str()) {
        None => Some(told),
        Some(digits) => Some(Told {
            settings: with_setting(setting, read_setting(setting, digits)?, told.settings),
            behind,
        }),
    }
}

// Whether the word begins with the sign of the option.
fn begins(setting: Setting, word: &str) -> bool
    ensures { result ≡ begins_with (sign_of setting) word.now }
{
    behind_sign(setting_row(setting).sign, word).is_some()
}

// Whether the word begins with the sign of one of the options.
fn is_option(settings: &[Setting], word: &str) -> bool
    ensures { result ≡ is_option settings.now word.now }
{
    settings.iter().any(|setting| begins(*setting, word))
}

/// Reads options, each at most once and in the order of the list. Answers what they say, and the
/// words behind them; and `None` exactly where a word before the operands says none of them so.
pub(crate) fn read_settings<'a>(settings: &[Setting], words: &'a [String]) -> Option<Told<'a>>
    ensures { option_map pair_of result ≡ told_by settings.now (map string_bytes words.now) }
{
    let mut told = Told {
        settings: defaults(),
        behind: words,
    };
    for setting in settings {
        told = read_first(*setting, told)?;
    }
    match told.behind {
        [word, ..] if is_option(settings, word.as_str()) => None,
        _ => Some(told),
    }
}
