//! Results of games.

ghost use Rattle.std.specs.Prelude.{◌≡◌, ◌++◌, OnOk};
ghost use Rattle.pgn_games.specs.Cutting.{mark_text};

use cha_list::{NoMemory, Text};

/// The result with which a game's text ends (PGN standard, 8.2.6).
#[derive(Clone, Copy, Debug, PartialEq, Eq)]
pub enum ResultMark {
    /// `1-0`
    WhiteWins,
    /// `0-1`
    BlackWins,
    /// `1/2-1/2`
    Draw,
    /// `*`, or no result at all.
    Unknown,
}

/// Appends the text of a result.
pub fn put_mark(mark: ResultMark, text: &mut Text) -> Result<(), NoMemory>
    ensures { OnOk result (text.new ≡ text.old ++ mark_text mark) }
{
    match mark {
        ResultMark::WhiteWins => text.append(b"1-0"),
        ResultMark::BlackWins => text.append(b"0-1"),
        ResultMark::Draw => text.append(b"1/2-1/2"),
        ResultMark::Unknown => text.append(b"*"),
    }
}
