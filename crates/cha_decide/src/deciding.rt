//! The verdicts on both sides of a position.

ghost use Rattle.std.specs.Prelude.{◌≡◌, IfOk};
ghost use Rattle.cha_board.specs.declared.men.Color.{Color as Side};
ghost use Rattle.cha_verdict.specs.Verdicts.{is_winnable as can_mate, is_skipped, IsPrintable};
ghost use Rattle.cha_verdict.specs.Sound.{IsTrueOf, IsSound, IsComplete, verdict_on};
ghost use Rattle.root_workers.specs.Worked.{HasWorked};
ghost use Rattle.cha_decide.specs.Shown.{IsExpandedUnshown, Asked, AskedFor};

use crate::sides::examine;
use cha_board::{Color, Position};
use cha_limits::Limits;
use cha_list::NoMemory;
use cha_verdict::{Decision, Verdict, is_winnable};
use root_workers::Crew;
use std::alloc::Global;

/// The verdicts on both sides of a position, by a crew of workers. `first` is examined, and then the other side, unless
/// `first` can mate.
///
/// A side is `Winnable` with legal moves that end in a mate by it: those on the board, which are none, or those that a search
/// finds. It is `Unwinnable` with a certificate, which the check of certificates has accepted, that no series of legal moves
/// ends so (Laws of Chess, Articles 5.2.2 and 6.9): where closed mobility sets exist in which no mate can arise, or where all
/// positions that can be reached were explored. It is `Undecided` where the whole budget of positions was spent.
///
/// Whatever the search does, a side that is examined is winnable where a mate within two plies exists, unwinnable where
/// mobility sets or the men alone (`Reason`) show it, and never undecided where fewer distinct positions than the budget can be
/// reached (this project).
/// The only error is want of memory.
pub fn decide<C: Crew>(
    alloc: Global,
    position: &Position,
    first: Color,
    limits: &Limits,
    crew: &mut C,
) -> Result<Decision, NoMemory>
    requires ready { C.ready crew.old }
    ensures stays_ready { C.ready crew.new }
    ensures sound { IfOk result (λ decision. IsSound position.now first limits.now decision) }
    ensures white_printable { IfOk result (λ decision. IsPrintable decision.white) }
    ensures black_printable { IfOk result (λ decision. IsPrintable decision.black) }

    // What the verdicts cannot miss.
    ensures complete { IfOk result (λ decision. (winner : Side) → IsComplete position.now winner limits.now (verdict_on decision winner)) }

    // Where positions were expanded for a side, nothing shows without a search that it cannot mate in the first one, which is
    // the position itself, nor in one that a capture or a pawn's move led to.
    ensures expanded { IfOk result (λ decision. (winner : Side) → IsExpandedUnshown position.now winner limits.now (verdict_on decision winner)) }

    // Where a verdict comes of a search, the first worker asked its place of facts for the position.
    ensures calls { Asked C.made crew.old crew.new position.now result }

    // Whatever the answer is, the workers did nothing but calls, and know of the calls of all what a crew of their kind knows.
    ensures worked { HasWorked C.made_by C.count C.knows crew.old crew.new }
{
    position.known();
    let examined = examine(alloc, position, first, limits, crew)?;
    let other = examine_other(alloc, position, first.other(), &examined, limits, crew)?;
    match first {
        Color::White => Ok(Decision {
            white: examined,
            black: other,
        }),
        Color::Black => Ok(Decision {
            white: other,
            black: examined,
        }),
    }
}

/// The verdict on the side that is examined second, by that on the first.
fn examine_other<C: Crew>(
    alloc: Global,
    position: &Position,
    side: Color,
    first: &Verdict,
    limits: &Limits,
    crew: &mut C,
) -> Result<Verdict, NoMemory>
    requires ready { C.ready crew.old }
    ensures stays_ready { C.ready crew.new }
    ensures holds { IfOk result (λ verdict. IsTrueOf position.now side limits.now verdict) }
    ensures printable { IfOk result (λ verdict. IsPrintable verdict) }
    ensures skipped { IfOk result (λ verdict. is_skipped verdict ≡ can_mate first.now) }
    ensures expanded { IfOk result (λ verdict. IsExpandedUnshown position.now side limits.now verdict) }
    ensures calls { AskedFor C.made crew.old crew.new position.now side result }
{
    if is_winnable(first) {
        return Ok(Verdict::Skipped);
    }
    examine(alloc, position, side, limits, crew)
}
