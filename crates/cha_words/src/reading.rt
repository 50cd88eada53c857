//! What the words order, or where they leave the language.

ghost use Rattle.std.specs.Prelude.{◌≡◌, ◌≤◌, ℕ, List, Some, [], map, string_bytes, IfOk, IfErr, IfSome, IsNone, IsSome, ◌↔◌};
ghost use Rattle.cha_limits.specs.Bounds.{Bounds};
ghost use Rattle.cha_words.specs.Language.{order, order_by, order_of};
ghost use Rattle.cha_words.specs.Faults.{IsFault, IsFaultOf};
ghost use Rattle.cha_words.specs.Reading.{Stands, order_with};
ghost use Rattle.cha_words.specs.declared.orders.Order.TheVariants.{GenGames, ListMates};
ghost use Rattle.cha_board.specs.declared.men.Color.{Color as Side};
ghost use Rattle.report_style.specs.declared.styles.Style.{Style};

use crate::chosen::all_numbers;
use crate::faults::{Expected, UsageFault};
use crate::given::{Given, Progress, Said, with_word};
use crate::orders::{Order, made};
use crate::table::{Command, command_of};

/// What the words order, which leave out the program's name, or None where they are not in the language.
///
/// An option with a number is `--name N` in two words or `--name=N` in one, and a flag takes no value. A number is 1 to 20 ASCII digits,
/// leading zeros among them. `range_of` has the options of each command and their numbers, and `argument_of` its further words.
pub fn parse(words: &[String]) -> Option<Order>
    ensures { result ≡ order words.now }
{
    read(words).ok()
}

/// Where words leave the language, or None where they are in it: at the first word with which no words behind it make an order, or
/// behind the last one, where some words would.
pub fn usage_fault(words: &[String]) -> Option<UsageFault>
    ensures refused { IsSome result ↔ IsNone (order words.now) }
    ensures fault { IfSome result (λ f. IsFault (map string_bytes words.now) f) }
{
    read(words).err()
}

/// The law: where games are ordered, there are 1 to 1,000 of them.
pub fn games_are_some()
    ensures { (words : List (List ℕ)) (spend : Bounds) (seed count : ℕ) → order_of words ≡ Some (GenGames spend seed count) → (1 ≤ count) × (count ≤ 1000) }
{}

/// The law: where the shortest mates are ordered, there are 1 to 16 workers, and 1 to 6 plies.
pub fn mates_are_bounded()
    ensures { (words : List (List ℕ)) (side : Side) (workers depth : ℕ) (style : Style) → order_of words ≡ Some (ListMates side workers depth style) → ((1 ≤ workers) × (workers ≤ 16)) × ((1 ≤ depth) × (depth ≤ 6)) }
{}

/// What the words order, or where they leave the language.
fn read(words: &[String]) -> Result<Order, UsageFault>
    ensures order { IfOk result (λ o. order words.now ≡ Some o) }
    ensures fault { IfErr result (λ f. IsFault (map string_bytes words.now) f) }
{
    let [word, behind @ ..] = words else {
        return Err(UsageFault {
            index: 0,
            expected: Expected::First,
        });
    };
    match command_of(word.as_str()) {
        Some(command) => match read_behind(command, behind) {
            Ok(order) => Ok(order),
            Err(fault) => Err(UsageFault {
                index: fault.index + 1,
                expected: fault.expected,
            }),
        },
        None => Err(UsageFault {
            index: 0,
            expected: Expected::First,
        }),
    }
}

/// What a command orders with the words behind it, or where they leave the language, counted behind the command.
fn read_behind(command: Command, words: &[String]) -> Result<Order, UsageFault>
    ensures order { IfOk result (λ o. order_by command (map string_bytes words.now) ≡ Some o) }
    ensures fault { IfErr result (λ f. IsFaultOf (order_by command) (map string_bytes words.now) f.index f.expected) }
{
    let mut progress = Progress {
        given: Given {
            budget: None,
            workers: None,
            depth: None,
            entries: None,
            certs: None,
            json: None,
            san: None,
            fens: None,
            flagged_draws: None,
            changed: None,
            said: Said::Nothing,
        },
        awaited: None,
    };
    let mut index = 0;
    while index < words.len() {
        match with_word(command, progress, words[index].as_str()) {
            Some(next) => progress = next,
            None => {
                return Err(UsageFault {
                    index,
                    expected: Expected::Behind(command, progress),
                });
            }
        }
        index += 1;
    }
    match ended(command, progress) {
        Some(order) => Ok(order),
        None => Err(UsageFault {
            index,
            expected: Expected::Behind(command, progress),
        }),
    }
}

/// What a command orders where no word follows.
fn ended(command: Command, progress: Progress) -> Option<Order>
    requires { Stands command progress }
    ensures { result ≡ order_with command progress [] }
{
    match progress.awaited {
        Some(_) => None,
        None => made(
            command,
            all_numbers(command, progress.given),
            progress.given.said,
        ),
    }
}
