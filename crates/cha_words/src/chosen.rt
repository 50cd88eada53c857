//! The numbers of all options.

ghost use Rattle.std.specs.Prelude.{◌≡◌, Some, []};
ghost use Rattle.cha_words.specs.Language.{range};
ghost use Rattle.cha_words.specs.Reading.{AreIn, Fits, IsIn, chosen_from, numbers_from, value_in};

use crate::given::{Given, value};
use crate::table::{Command, Setting, range_of};

/// The number of each option; of one that the command does not take it is 0.
#[derive(Clone, Copy, Debug, PartialEq, Eq)]
pub struct Numbers {
    pub budget: u64,
    pub workers: u64,
    pub depth: u64,
    pub entries: u64,
    pub certs: u64,
    pub json: u64,
    pub san: u64,
    pub fens: u64,
    pub flagged_draws: u64,
    pub changed: u64,
}

/// The number that is given to an option, or else its usual one, or 0 where the command does not take it.
fn chosen(command: Command, given: Given, setting: Setting) -> u64
    requires { Fits command given }
    ensures value { chosen_from (range command setting) (value_in setting given) [] ≡ Some result }
    ensures range { IsIn (range command setting) result }
{
    match value(given, setting) {
        Some(number) => number,
        None => match range_of(command, setting) {
            Some(range) => range.usual,
            None => 0,
        },
    }
}

/// The numbers of all options behind a command, by what is given.
pub fn all_numbers(command: Command, given: Given) -> Numbers
    requires { Fits command given }
    ensures values { numbers_from command given [] ≡ Some result }
    ensures ranges { AreIn command result }
{
    Numbers {
        budget: chosen(command, given, Setting::Budget),
        workers: chosen(command, given, Setting::Workers),
        depth: chosen(command, given, Setting::Depth),
        entries: chosen(command, given, Setting::Entries),
        certs: chosen(command, given, Setting::Certs),
        json: chosen(command, given, Setting::Json),
        san: chosen(command, given, Setting::San),
        fens: chosen(command, given, Setting::Fens),
        flagged_draws: chosen(command, given, Setting::FlaggedDraws),
        changed: chosen(command, given, Setting::Changed),
    }
}
