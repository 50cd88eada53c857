//! What is wrong with words that order nothing.

ghost use Rattle.cha_words.specs.Faults.{NamesStand, NumbersStand, FurtherStand};

use crate::given::Progress;
use crate::table::Command;

/// What words have to be at a place.
#[derive(Clone, Copy, Debug, PartialEq, Eq)]
pub enum Expected {
    /// The first word, which is a command.
    First,
    /// Words behind this command, and behind others that have given this.
    Behind(Command, Progress),
}

/// Where words leave the language.
#[derive(Clone, Copy, Debug, PartialEq, Eq)]
pub struct UsageFault {
    /// Which word it is that may not stand where it stands, counted from 0; or the number of the words, where one is missing behind them.
    pub index: usize,
    /// What is expected there.
    pub expected: Expected,
}

/// The law of what may stand where words are read so far: an option's name exactly where `open_range` has numbers for the option,
/// where none awaits its number; a number exactly in the range of the option that awaits it; and a word that is no option exactly if
/// it is what `argument_of` names.
pub fn expected_words_can_stand()
    ensures names { NamesStand }
    ensures numbers { NumbersStand }
    ensures further { FurtherStand }
{}
