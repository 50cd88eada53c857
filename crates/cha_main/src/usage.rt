//! What the program says to standard error of the words behind its name.

use cha_board::Color;
use cha_words::{
    Argument, COMMANDS, Command, Expected, Given, Range, SETTINGS, Said, Setting, UsageFault,
    argument_of, command_name, is_flag, open_range, range_of, setting_name,
};
use std::io;

/// The version of the program, which the file VERSION of the repository has too.
const VERSION: &str = "1.0.0";

/// What a command does.
fn about_command(command: Command) -> &'static str {
    match command {
        Command::Adjudicate => "judges games in PGN: a block for each, and a summary",
        Command::Correct => {
            "writes games in PGN with the right results, and the summary to standard error"
        }
        Command::Position => {
            "judges positions in FEN, one on a line: a block for each, and a summary"
        }
        Command::Check => "checks a certificate: one line says whether it is accepted",
        Command::Mates => {
            "lists the shortest mates by a side in positions in FEN: a block for each, and a summary"
        }
        Command::Replay => "prints the moves of games in PGN, and the position after each",
        Command::Gen =>
            "generates random games from a seed, judges them and prints only the summary; reads nothing",
    }
}

/// What an option does.
fn about_setting(setting: Setting) -> &'static str {
    match setting {
        Setting::Budget => "positions that the exploration expands for a side at most",
        Setting::Workers => "threads that judge side by side and share a search",
        Setting::Depth => "plies to which a mate is looked for",
        Setting::Entries => "positions that each of the eight parts of the table of facts keeps",
        Setting::Certs => "prints the certificate of each side that cannot mate",
        Setting::Json => "prints each block and the summary as a line of JSON",
        Setting::San => "prints moves in blocks as players write them, as Nf2#",
        Setting::Fens => "prints, with --json, the position after each move of a line that mates",
        Setting::FlaggedDraws => "examines games that are recorded as drawn though a flag fell",
        Setting::Changed => "writes only the games whose result changes",
    }
}

/// How the usage calls a word that is no option, and what that word may be.
fn about_argument(argument: Argument) -> (&'static str, &'static str) {
    match argument {
        Argument::Seed => ("SEED", "0 to 18446744073709551615"),
        Argument::Count => ("COUNT", "1 to 1000"),
        Argument::Side => ("SIDE", "w or b"),
    }
}

/// What some word says that is this argument.
fn some_said(argument: Argument) -> Said {
    match argument {
        Argument::Seed => Said::Seeded(0),
        Argument::Count => Said::Games(0, 1),
        Argument::Side => Said::Sided(Color::White),
    }
}

/// Writes a command with its further words and its options, a line each.
fn say_command(rt: &HostRuntime, command: Command) -> io::Result<()> {
    eprintln!(rt; "")?;
    eprintln!(rt; "cha {}: {}", command_name(command), about_command(command))?;
    let mut said = Said::Nothing;
    for _ in 0..2 {
        if let Some(argument) = argument_of(command, said) {
            let (name, what) = about_argument(argument);
            eprintln!(rt; "    {name}: {what}")?;
            said = some_said(argument);
        }
    }
    for setting in SETTINGS {
        if let Some(Range { least, most, usual }) = range_of(command, setting) {
            let name = setting_name(setting);
            let about = about_setting(setting);
            if is_flag(setting) {
                eprintln!(rt; "    {name}: {about}")?;
            } else {
                eprintln!(rt; "    {name} N: {least} to {most}, usually {usual}: {about}")?;
            }
        }
    }
    Ok(())
}

/// Writes the whole usage.
fn say_usage(rt: &HostRuntime) -> io::Result<()> {
    eprintln!(rt; "usage: cha COMMAND [WORD ..] [OPTION ..] < INPUT")?;
    for command in COMMANDS {
        say_command(rt, command)?;
    }
    eprintln!(rt; "")?;
    eprintln!(rt;
        "An option comes after its command, at most once, as --name N or --name=N. The manual is cha(1)."
    )
}

/// Writes the version, and what the proofs rest on.
fn say_version(rt: &HostRuntime) -> io::Result<()> {
    eprintln!(rt; "cha {VERSION}")?;
    eprintln!(rt;
        "Every function is proved by the Rattle kit, logic dac8208d650f15bf, where this is the build that 'make' leaves. The proofs rest on the definitions that the contracts cite, on that toolchain and the contracts of the libraries it uses, and on the C library and the compiler behind them."
    )
}

/// Writes the words that are right, behind the program's name.
fn say_words(rt: &HostRuntime, words: &[String]) -> io::Result<()> {
    eprint!(rt; "cha")?;
    for word in words {
        eprint!(rt; " {}", word.as_str())?;
    }
    Ok(())
}

/// Writes a comma in front of what is not the first.
fn separate(rt: &HostRuntime, is_first: bool) -> io::Result<()> {
    if is_first {
        return Ok(());
    }
    eprint!(rt; ", ")
}

/// Writes the next further word of a command, and tells whether there is one.
fn say_argument(rt: &HostRuntime, command: Command, said: Said) -> io::Result<bool> {
    match argument_of(command, said) {
        Some(argument) => {
            let (name, what) = about_argument(argument);
            eprint!(rt; "{name} ({what})")?;
            Ok(true)
        }
        None => Ok(false),
    }
}

/// Writes an option with the numbers that it may be given.
fn say_option(rt: &HostRuntime, setting: Setting, range: Range) -> io::Result<()> {
    let name = setting_name(setting);
    if is_flag(setting) {
        return eprint!(rt; "{name}");
    }
    eprint!(rt; "{name} N ({} to {})", range.least, range.most)
}

/// Writes which words may stand behind words that have given this: the next further word, and the options that did not stand.
fn say_further(rt: &HostRuntime, command: Command, given: Given) -> io::Result<()> {
    let mut is_first = !say_argument(rt, command, given.said)?;
    for setting in SETTINGS {
        if let Some(range) = open_range(command, given, setting) {
            separate(rt, is_first)?;
            say_option(rt, setting, range)?;
            is_first = false;
        }
    }
    if is_first {
        return eprint!(rt; "no word");
    }
    Ok(())
}

/// Writes which words may stand at a place.
fn say_expected(rt: &HostRuntime, expected: Expected) -> io::Result<()> {
    match expected {
        Expected::First => say_commands(rt),
        Expected::Behind(command, progress) => {
            if let Some(setting) = progress.awaited
                && let Some(range) = open_range(command, progress.given, setting)
            {
                return eprint!(rt; "a number from {} to {}", range.least, range.most);
            }
            say_further(rt, command, progress.given)
        }
    }
}

/// Writes the names of the commands.
fn say_commands(rt: &HostRuntime) -> io::Result<()> {
    let mut is_first = true;
    for command in COMMANDS {
        separate(rt, is_first)?;
        eprint!(rt; "{}", command_name(command))?;
        is_first = false;
    }
    Ok(())
}

/// Says what is wrong with words, and which words may stand there; or what they ask for, where they ask for help.
pub fn say_fault(rt: &HostRuntime, words: &[String], fault: UsageFault) -> io::Result<()> {
    let right = words.get(..fault.index).unwrap_or(words);
    match words.get(fault.index) {
        Some(word) => {
            let word = word.as_str();
            if word == "--help" || word == "-h" {
                return say_usage(rt);
            }
            if word == "--version" {
                return say_version(rt);
            }
            eprint!(rt; "{word:?} may not come after '")?;
        }
        None => {
            if right.is_empty() {
                return say_usage(rt);
            }
            eprint!(rt; "a word is missing after '")?;
        }
    }
    say_words(rt, right)?;
    eprint!(rt; "'; expected: ")?;
    say_expected(rt, fault.expected)?;
    eprintln!(rt; "")?;
    eprintln!(rt; "'cha --help' shows all commands and options")
}
