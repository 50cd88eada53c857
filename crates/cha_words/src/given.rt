//! What the words behind the command give.

ghost use Rattle.std.specs.Prelude.{◌≡◌};
ghost use Rattle.cha_words.specs.Language.{part_of, setting_named, say};
ghost use Rattle.cha_words.specs.Language.Part.{Value, Plain};
ghost use Rattle.cha_words.specs.Reading.{Takes, TakesWord, Fits, Stands, TakesName, value_in, put, open_in, settled_of};

use crate::numbers::number;
use crate::table::{
    Argument, Command, Range, Setting, argument_of, is_flag, range_of, setting_of, side_of,
};
use cha_board::Color;

/// What the words behind the command that are no options have said so far.
#[derive(Clone, Copy, Debug, PartialEq, Eq)]
pub enum Said {
    /// There were none.
    Nothing,
    /// The seed.
    Seeded(u64),
    /// The seed, and the number of games.
    Games(u64, u64),
    /// The side that mates.
    Sided(Color),
}

/// What the words behind the command have given so far: the number of each option that stood, and what the others said.
#[derive(Clone, Copy, Debug, PartialEq, Eq)]
pub struct Given {
    /// Of `--budget`.
    pub budget: Option<u64>,
    /// Of `--workers`.
    pub workers: Option<u64>,
    /// Of `--depth`.
    pub depth: Option<u64>,
    /// Of `--entries`.
    pub entries: Option<u64>,
    /// Of `--certs`.
    pub certs: Option<u64>,
    /// Of `--json`.
    pub json: Option<u64>,
    /// Of `--san`.
    pub san: Option<u64>,
    /// Of `--fens`.
    pub fens: Option<u64>,
    /// Of `--flagged-draws`.
    pub flagged_draws: Option<u64>,
    /// Of `--changed`.
    pub changed: Option<u64>,
    /// What words said that are no options.
    pub said: Said,
}

/// What the words read so far have given, and the option whose number is the next word.
#[derive(Clone, Copy, Debug, PartialEq, Eq)]
pub struct Progress {
    /// What they have given.
    pub given: Given,
    /// The option that awaits its number.
    pub awaited: Option<Setting>,
}

/// The number given to an option.
pub fn value(given: Given, setting: Setting) -> Option<u64>
    ensures { result ≡ value_in setting given }
{
    match setting {
        Setting::Budget => given.budget,
        Setting::Workers => given.workers,
        Setting::Depth => given.depth,
        Setting::Entries => given.entries,
        Setting::Certs => given.certs,
        Setting::Json => given.json,
        Setting::San => given.san,
        Setting::Fens => given.fens,
        Setting::FlaggedDraws => given.flagged_draws,
        Setting::Changed => given.changed,
    }
}

/// The numbers that an option may be given now, or None where it is given already, or where the command does not take it.
pub fn open_range(command: Command, given: Given, setting: Setting) -> Option<Range>
    ensures { result ≡ open_in command given setting }
{
    match value(given, setting) {
        Some(_) => None,
        None => range_of(command, setting),
    }
}

/// The same with a number given to an option.
fn with(given: Given, setting: Setting, value: u64) -> Given
    ensures { result ≡ put setting value given }
{
    let mut next = given;
    match setting {
        Setting::Budget => next.budget = Some(value),
        Setting::Workers => next.workers = Some(value),
        Setting::Depth => next.depth = Some(value),
        Setting::Entries => next.entries = Some(value),
        Setting::Certs => next.certs = Some(value),
        Setting::Json => next.json = Some(value),
        Setting::San => next.san = Some(value),
        Setting::Fens => next.fens = Some(value),
        Setting::FlaggedDraws => next.flagged_draws = Some(value),
        Setting::Changed => next.changed = Some(value),
    }
    next
}

/// Takes an option with its value. None where the option may not be given now, or the value is no number in its range.
fn with_value(command: Command, given: Given, setting: Setting, word: &str) -> Option<Given>
    requires { Fits command given }
    ensures { Takes command given (Value setting word.now) result }
{
    match open_range(command, given, setting) {
        Some(range) => match number(word, range.least, range.most) {
            Some(value) => Some(with(given, setting, value)),
            None => None,
        },
        None => None,
    }
}

/// What a word says as the next one that is no option, or None where it does not say that.
fn said_by(argument: Option<Argument>, said: Said, word: &str) -> Option<Said>
    ensures { result ≡ say argument said word.now }
{
    match argument {
        Some(Argument::Seed) => Some(Said::Seeded(number(word, 0, u64::MAX)?)),
        Some(Argument::Count) => match said {
            Said::Seeded(seed) => Some(Said::Games(seed, number(word, 1, 1_000)?)),
            _ => None,
        },
        Some(Argument::Side) => Some(Said::Sided(side_of(word)?)),
        None => None,
    }
}

/// Takes a word that is no option. None where it may not come now.
fn with_plain(command: Command, given: Given, word: &str) -> Option<Given>
    requires { Fits command given }
    ensures { Takes command given (Plain word.now) result }
{
    match said_by(argument_of(command, given.said), given.said, word) {
        Some(said) => Some(Given { said, ..given }),
        None => None,
    }
}

/// Takes a word that is a part by itself, and names no option: an option with its value behind an equals sign, or else a word that
/// is no option.
fn with_part(command: Command, given: Given, word: &str) -> Option<Given>
    requires fits { Fits command given }
    requires unnamed { setting_named word.now ≡ None }
    ensures { Takes command given (part_of word.now) result }
{
    match word.split_once('=') {
        Some((name, value)) => match setting_of(name) {
            Some(setting) => {
                if is_flag(setting) {
                    return with_plain(command, given, word);
                }
                with_value(command, given, setting, value)
            }
            None => with_plain(command, given, word),
        },
        None => with_plain(command, given, word),
    }
}

/// Where no option awaits its value.
fn settled(given: Option<Given>) -> Option<Progress>
    ensures { result ≡ settled_of given }
{
    let given = given?;
    Some(Progress {
        given,
        awaited: None,
    })
}

/// Takes one word that names an option.
fn with_name(command: Command, given: Given, setting: Setting) -> Option<Progress>
    requires { Fits command given }
    ensures { TakesName command given setting result }
{
    if is_flag(setting) {
        return settled(with_value(command, given, setting, "1"));
    }
    match open_range(command, given, setting) {
        Some(_) => Some(Progress {
            given,
            awaited: Some(setting),
        }),
        None => None,
    }
}

/// Reads the next command word; None where it may not stand there.
pub fn with_word(command: Command, progress: Progress, word: &str) -> Option<Progress>
    requires { Stands command progress }
    ensures { TakesWord command progress word.now result }
{
    let given = progress.given;
    match progress.awaited {
        Some(setting) => settled(with_value(command, given, setting, word)),
        None => match setting_of(word) {
            Some(setting) => with_name(command, given, setting),
            None => settled(with_part(command, given, word)),
        },
    }
}
