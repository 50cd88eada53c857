//! The result of a game.

ghost use Rattle.std.specs.Prelude.{◌≡◌, ◌++◌, OnOk};
ghost use Rattle.flag_report.specs.Games.{cause_text, result_line};

use cha_list::{NoMemory, Text};
use cha_outcome::{Cause, Judgment};
use pgn_games::{ResultMark, put_mark};

/// Appends why a game has its result.
#[tactic(auto, unfolding(crate::specs::Games::cause_text))]
fn put_cause(cause: Cause, text: &mut Text) -> Result<(), NoMemory>
    ensures { OnOk result (text.new ≡ text.old ++ cause_text cause) }
{
    match cause {
        Cause::Mate511 => text.append(b"by 5.1.1"),
        Cause::Stalemate521 => text.append(b"by 5.2.1"),
        Cause::Dead522 => text.append(b"by 5.2.2"),
        Cause::Flag69 => text.append(b"by 6.9"),
        Cause::FlagOfMover69 => text.append(b"by 6.9, flag of the player to move"),
        Cause::Recorded => text.append(b"as recorded"),
        Cause::RecordedUndecided => text.append(b"as recorded, winner undecided"),
    }
}

/// Appends the line with the recorded result, the result of the game, and why.
#[tactic(auto, unfolding(crate::specs::Games::result_line))]
pub fn put_result(recorded: ResultMark, ruling: Judgment, text: &mut Text) -> Result<(), NoMemory>
    ensures { OnOk result (text.new ≡ text.old ++ result_line recorded ruling) }
{
    text.append(b"result: ")?;
    put_mark(recorded, text)?;
    text.append(b" -> ")?;
    put_mark(ruling.mark, text)?;
    text.append(b" ")?;
    put_cause(ruling.cause, text)?;
    text.append(b"\n")?;
    Ok(())
}
