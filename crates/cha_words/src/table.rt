//! The table of the language: commands, their options with the numbers that these take, and their further words.
//!
//! The reader of words, the faults, the usage and the completions all go by it. A new command, option or further word is a row here.

ghost use Rattle.std.specs.Prelude.{◌≡◌, Some};
ghost use Rattle.cha_words.specs.Language.{command_named, setting_named, is_flag as stands_alone, takes as stands_behind, numbers_for as numbers_of, range, next_argument, side_named};

use crate::given::Said;
use cha_board::Color;

/// What the first word asks for.
#[derive(Clone, Copy, Debug, PartialEq, Eq)]
pub enum Command {
    /// To judge games.
    Adjudicate,
    /// To write games with the right results.
    Correct,
    /// To judge positions.
    Position,
    /// To check a certificate.
    Check,
    /// To generate random games and judge them.
    Gen,
    /// To list the shortest mates.
    Mates,
    /// To list the moves of games.
    Replay,
}

/// Each command.
pub const COMMANDS: [Command; 7] = [
    Command::Adjudicate,
    Command::Correct,
    Command::Position,
    Command::Check,
    Command::Mates,
    Command::Replay,
    Command::Gen,
];

/// An option: one that stands with a number, or a flag, which stands alone and counts as the number 1. What the flags ask of a
/// report is its style (`Order`).
#[derive(Clone, Copy, Debug, PartialEq, Eq)]
pub enum Setting {
    /// `--budget`: how many positions are expanded for a side at most.
    Budget,
    /// `--workers`: how many workers judge items side by side, and share a search.
    Workers,
    /// `--depth`: to how many plies the rounds search; for `mates`, within how many a mate is looked for.
    Depth,
    /// `--entries`: how many rows each shard of the table of facts has at most.
    Entries,
    /// `--certs`, a flag.
    Certs,
    /// `--json`, a flag.
    Json,
    /// `--san`, a flag.
    San,
    /// `--fens`, a flag.
    Fens,
    /// `--flagged-draws`, a flag: whether drawn games whose flag fell are examined.
    FlaggedDraws,
    /// `--changed`, a flag: whether only the games whose result changes are written.
    Changed,
}

/// Each option.
pub const SETTINGS: [Setting; 10] = [
    Setting::Budget,
    Setting::Workers,
    Setting::Depth,
    Setting::Entries,
    Setting::Certs,
    Setting::Json,
    Setting::San,
    Setting::Fens,
    Setting::FlaggedDraws,
    Setting::Changed,
];

/// The numbers that an option takes behind a command.
#[derive(Clone, Copy, Debug, PartialEq, Eq)]
pub struct Range {
    /// The least one.
    pub least: u64,
    /// The greatest one.
    pub most: u64,
    /// The one that counts where the option does not stand.
    pub usual: u64,
}

/// A word behind a command that is no option.
#[derive(Clone, Copy, Debug, PartialEq, Eq)]
pub enum Argument {
    /// The seed of the random numbers, from 0 to 2^64 - 1.
    Seed,
    /// How many games are made, from 1 to 1,000.
    Count,
    /// The side that mates, `w` or `b`.
    Side,
}

/// The command that a word names.
#[tactic(auto, unfolding(crate::specs::Language::command_named))]
pub fn command_of(word: &str) -> Option<Command>
    ensures { result ≡ command_named word.now }
{
    if word == "adjudicate" {
        Some(Command::Adjudicate)
    } else if word == "correct" {
        Some(Command::Correct)
    } else if word == "position" {
        Some(Command::Position)
    } else if word == "check" {
        Some(Command::Check)
    } else if word == "gen" {
        Some(Command::Gen)
    } else if word == "mates" {
        Some(Command::Mates)
    } else if word == "replay" {
        Some(Command::Replay)
    } else {
        None
    }
}

/// The word that names a command.
#[tactic(auto, unfolding(crate::specs::Language::command_named))]
pub fn command_name(command: Command) -> &'static str
    ensures { command_named result.now ≡ Some command }
{
    match command {
        Command::Adjudicate => "adjudicate",
        Command::Correct => "correct",
        Command::Position => "position",
        Command::Check => "check",
        Command::Gen => "gen",
        Command::Mates => "mates",
        Command::Replay => "replay",
    }
}

/// The option that a word names.
#[tactic(auto, unfolding(crate::specs::Language::setting_named))]
pub fn setting_of(word: &str) -> Option<Setting>
    ensures { result ≡ setting_named word.now }
{
    if word == "--budget" {
        Some(Setting::Budget)
    } else if word == "--workers" {
        Some(Setting::Workers)
    } else if word == "--depth" {
        Some(Setting::Depth)
    } else if word == "--entries" {
        Some(Setting::Entries)
    } else if word == "--certs" {
        Some(Setting::Certs)
    } else if word == "--json" {
        Some(Setting::Json)
    } else if word == "--san" {
        Some(Setting::San)
    } else if word == "--fens" {
        Some(Setting::Fens)
    } else if word == "--flagged-draws" {
        Some(Setting::FlaggedDraws)
    } else if word == "--changed" {
        Some(Setting::Changed)
    } else {
        None
    }
}

/// The word that names an option.
#[tactic(auto, unfolding(crate::specs::Language::setting_named))]
pub fn setting_name(setting: Setting) -> &'static str
    ensures { setting_named result.now ≡ Some setting }
{
    match setting {
        Setting::Budget => "--budget",
        Setting::Workers => "--workers",
        Setting::Depth => "--depth",
        Setting::Entries => "--entries",
        Setting::Certs => "--certs",
        Setting::Json => "--json",
        Setting::San => "--san",
        Setting::Fens => "--fens",
        Setting::FlaggedDraws => "--flagged-draws",
        Setting::Changed => "--changed",
    }
}

/// Whether an option stands alone.
pub fn is_flag(setting: Setting) -> bool
    ensures { result ≡ stands_alone setting }
{
    match setting {
        Setting::Certs
        | Setting::Json
        | Setting::San
        | Setting::Fens
        | Setting::FlaggedDraws
        | Setting::Changed => true,
        Setting::Budget | Setting::Workers | Setting::Depth | Setting::Entries => false,
    }
}

/// Numbers from the least to the greatest, and the usual one.
fn from_to(least: u64, most: u64, usual: u64) -> Range
    ensures { result ≡ record { least = least; most = most; usual = usual } }
{
    Range { least, most, usual }
}

/// Whether an option stands behind a command.
fn takes(command: Command, setting: Setting) -> bool
    ensures { result ≡ stands_behind command setting }
{
    match (command, setting) {
        (Command::Adjudicate, Setting::Changed) => false,
        (Command::Adjudicate, _) => true,
        (Command::Correct, Setting::Certs | Setting::Json | Setting::San | Setting::Fens) => false,
        (Command::Correct, _) => true,
        (Command::Position, Setting::FlaggedDraws | Setting::Changed) => false,
        (Command::Position, _) => true,
        (Command::Gen, Setting::Budget | Setting::Workers | Setting::Depth | Setting::Entries) =>
            true,
        (Command::Mates, Setting::Workers | Setting::Depth | Setting::Json | Setting::San) => true,
        (Command::Replay, Setting::Json) => true,
        _ => false,
    }
}

/// The numbers that an option takes where it stands.
fn numbers_for(setting: Setting, command: Command) -> Range
    ensures { result ≡ numbers_of setting command }
{
    match (setting, command) {
        (Setting::Budget, _) => from_to(1, 100_000, 20_000),
        (Setting::Workers, Command::Gen) => from_to(1, 16, 1),
        (Setting::Workers, _) => from_to(1, 16, 2),
        (Setting::Depth, Command::Mates) => from_to(1, 6, 4),
        (Setting::Depth, _) => from_to(2, 8, 4),
        (Setting::Entries, _) => from_to(1, 65_536, 4_096),
        _ => from_to(0, 1, 0),
    }
}

/// The numbers that an option takes behind a command, or None where it does not stand there. A flag is from 0 to 1.
pub fn range_of(command: Command, setting: Setting) -> Option<Range>
    ensures { result ≡ range command setting }
{
    if takes(command, setting) {
        return Some(numbers_for(setting, command));
    }
    None
}

/// The word that comes next behind a command and is no option, by what such words have said, or None where there is no such word.
pub fn argument_of(command: Command, said: Said) -> Option<Argument>
    ensures { result ≡ next_argument command said }
{
    match (command, said) {
        (Command::Gen, Said::Nothing) => Some(Argument::Seed),
        (Command::Gen, Said::Seeded(_)) => Some(Argument::Count),
        (Command::Mates, Said::Nothing) => Some(Argument::Side),
        _ => None,
    }
}

/// The side that a word names.
#[tactic(auto, unfolding(crate::specs::Language::side_named))]
pub fn side_of(word: &str) -> Option<Color>
    ensures { result ≡ side_named word.now }
{
    if word == "w" {
        Some(Color::White)
    } else if word == "b" {
        Some(Color::Black)
    } else {
        None
    }
}
