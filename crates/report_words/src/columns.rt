//! What the last line of a report counts.

ghost use Rattle.std.specs.Prelude.{◌≡◌};
ghost use Rattle.report_words.specs.Columns.{column_name, column_count};

use cha_outcome::Totals;

/// A number of the last line of a report.
#[derive(Clone, Copy, Debug, PartialEq, Eq)]
pub enum Column {
    /// The games.
    Games,
    /// The games that cannot be read.
    Unreadable,
    /// The games whose result changes.
    Changed,
    /// The items in which a side is undecided.
    Undecided,
    /// The lines that are not blank.
    Positions,
    /// The lines that are no position.
    Refused,
    /// The dead positions.
    Dead,
    /// The positions in which a mate was found.
    Found,
}

impl Column {
    /// Its name.
    #[tactic(auto, unfolding(crate::specs::Columns::column_name))]
    pub fn name(self) -> &'static [u8]
        ensures { result.now ≡ column_name self }
    {
        match self {
            Column::Games => b"games",
            Column::Unreadable => b"unreadable",
            Column::Changed => b"changed",
            Column::Undecided => b"undecided",
            Column::Positions => b"positions",
            Column::Refused => b"refused",
            Column::Dead => b"dead",
            Column::Found => b"found",
        }
    }

    /// Its number, by what was counted.
    pub fn count(self, totals: &Totals) -> u64
        ensures { result ≡ column_count self totals.now }
    {
        match self {
            Column::Games | Column::Positions => totals.items,
            Column::Unreadable | Column::Refused => totals.refused,
            Column::Changed => totals.changed,
            Column::Undecided => totals.undecided,
            Column::Dead => totals.dead,
            Column::Found => totals.found,
        }
    }
}
