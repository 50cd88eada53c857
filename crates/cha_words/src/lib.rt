//! The language of the words behind the program's name.
//!
//! `table` has the commands, their options and further words, `numbers` reads a number, `given` has what the words behind the command
//! give, `chosen` the numbers of all options, `orders` what can be ordered, `reading` what the words order, and `faults` where they leave
//! the language.
#![tactic(auto)]

mod chosen;
mod faults;
mod given;
mod numbers;
mod orders;
mod reading;
mod table;

pub use faults::{Expected, UsageFault, expected_words_can_stand};
pub use given::{Given, Progress, Said, open_range};
pub use orders::Order;
pub use reading::{games_are_some, mates_are_bounded, parse, usage_fault};
pub use table::{
    Argument, COMMANDS, Command, Range, SETTINGS, Setting, argument_of, command_name, is_flag,
    range_of, setting_name,
};
