//! What is counted over outcomes.

ghost use Rattle.std.specs.Prelude.{◌≡◌, []};
ghost use Rattle.cha_outcome.specs.Totals.{totals_of, counted, HasRoom};

use crate::outcomes::Outcome;

/// What is counted over the outcomes of an input.
#[derive(Clone, Copy, Debug, PartialEq, Eq)]
pub struct Totals {
    /// How many items there are.
    pub items: u64,
    /// How many of them are lines that are refused, or games that cannot be read.
    pub refused: u64,
    /// How many are games that have another result than the recorded one.
    pub changed: u64,
    /// How many are positions that are dead.
    pub dead: u64,
    /// How many have a side about which nothing was shown.
    pub undecided: u64,
    /// How many are positions that have a mate.
    pub found: u64,
}

impl Totals {
    /// The totals of no outcomes.
    pub fn new() -> Totals
        ensures { result ≡ totals_of [] }
    {
        Totals {
            items: 0,
            refused: 0,
            changed: 0,
            dead: 0,
            undecided: 0,
            found: 0,
        }
    }

    /// Counts one more outcome.
    pub fn count(&mut self, outcome: &Outcome)
        requires { HasRoom self.old }
        ensures { self.new ≡ counted self.old outcome.now }
    {
        self.items += 1;
        self.refused += u64::from(outcome.is_refused());
        self.changed += u64::from(outcome.is_changed_game());
        self.dead += u64::from(outcome.is_dead_position());
        self.undecided += u64::from(outcome.is_open());
        self.found += u64::from(outcome.has_mates());
    }
}
