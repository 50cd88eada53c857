//! Tokens that are moved to the game that they belong to.

ghost use Rattle.std.specs.Prelude.{◌≡◌, ◌+◌, ◌-◌, ◌^◌, ◌<◌, ◌++◌, [], length, OnOk};
ghost use Rattle.std.specs.declared.result.Result.TheVariants.{Ok};
ghost use Rattle.std.specs.declared.option.Option.TheVariants.{Some};
ghost use Rattle.pgn_games.specs.declared.token_turns.Place.TheVariants.{Before};
ghost use Rattle.pgn_games.specs.Holding.{first_end, IsScanned};

use crate::summary::Summary;
use crate::token_turns::{Place, Turn, turned};
use cha_list::NoMemory;
use pgn_lex::Placed;

/// Whether the game that is being read is whole.
#[derive(Clone, Copy, Debug, PartialEq, Eq)]
pub enum Wholeness {
    /// It is: its last token is known.
    Whole,
    /// It goes on, or has not begun.
    Open,
}

/// Moves tokens to the game that is being read, up to its last one.
pub fn gather(
    game: &mut Summary,
    behind: &mut Vec<Placed>,
    place: &mut Place,
) -> Result<Wholeness, NoMemory>
    requires scanned { IsScanned game.old place.old }
    requires few { length game.old + length behind.old.items < 2 ^ 64 - 1 }
    ensures same { OnOk result (game.new ++ behind.new.items ≡ game.old ++ behind.old.items) }
    ensures open { result ≡ Ok Wholeness.Open → IsScanned game.new place.new × (behind.new.items ≡ []) }
    ensures whole { result ≡ Ok Wholeness.Whole → first_end Before (game.new ++ behind.new.items) ≡ Some (length game.new) }
{
    while !behind.as_slice().is_empty() {
        match turned(*place, &behind[0].token) {
            Turn::Stays(next) => {
                let token = behind.remove(0);
                game.take(token)?;
                *place = next;
            }
            Turn::Ends => {
                let token = behind.remove(0);
                game.take(token)?;
                return Ok(Wholeness::Whole);
            }
            Turn::Begins => return Ok(Wholeness::Whole),
        }
    }
    Ok(Wholeness::Open)
}

/// The same, where there may be no token: most bytes give none.
#[inline(always)]
pub fn gather_any(
    game: &mut Summary,
    behind: &mut Vec<Placed>,
    place: &mut Place,
) -> Result<Wholeness, NoMemory>
    requires scanned { IsScanned game.old place.old }
    requires few { length game.old + length behind.old.items < 2 ^ 64 - 1 }
    ensures same { OnOk result (game.new ++ behind.new.items ≡ game.old ++ behind.old.items) }
    ensures open { result ≡ Ok Wholeness.Open → IsScanned game.new place.new × (behind.new.items ≡ []) }
    ensures whole { result ≡ Ok Wholeness.Whole → first_end Before (game.new ++ behind.new.items) ≡ Some (length game.new) }
{
    if behind.as_slice().is_empty() {
        return Ok(Wholeness::Open);
    }
    gather(game, behind, place)
}
