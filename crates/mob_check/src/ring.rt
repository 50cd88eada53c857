//! What keeps a king in besides the other king.

ghost use Rattle.std.specs.Prelude.{◌≡◌};
ghost use Rattle.cha_board.specs.SquareSets.{set_of};
ghost use Rattle.mob_law.specs.Threats.{ends_check};
ghost use Rattle.mob_check.specs.MatesInReach.{is_filled, stays_as, stays_on, ring_of_one, check_ends};

use crate::attacks::struck_from;
use crate::scene::{Scene, reach_as};
use crate::single_steps::spread;
use cha_board::{Color, Kind, Square, SquareSet, squares_between};

/// What keeps a king from the squares next to it, besides the other king.
#[derive(Clone, Copy, Debug, PartialEq, Eq)]
pub struct Ring {
    /// The squares that men of the winner attack.
    pub struck: SquareSet,
    /// The squares on which men of the loser may stand in its king's way.
    pub blockers: SquareSet,
    /// How many men of the loser may stand next to its king.
    pub men: u8,
}

/// Whether the loser's own men may fill these squares: they may stand on each of them, and there are at least as many men.
#[tactic(auto, unfolding(crate::specs::MatesInReach::is_filled))]
pub fn fills(ring: &Ring, left: SquareSet) -> bool
    ensures { result ≡ is_filled ring.now left }
{
    left.within(ring.blockers) && left.len() <= ring.men
}

/// What holds the loser's king while the winner's only man, of this kind and on this square, gives check: the squares that are
/// attacked, those that the loser's own men may fill without ending the check, and how many men there are.
#[tactic(auto, unfolding(crate::specs::MatesInReach::ring_of_one))]
pub fn ring_of(
    scene: &Scene,
    seen: SquareSet,
    men: u8,
    king: Square,
    from: Square,
    kind: Kind,
) -> Ring
    ensures { result ≡ ring_of_one scene.now seen men king from kind }
{
    Ring {
        struck: struck_from(scene.winner, seen, king, from, kind),
        blockers: staying(scene, king, from),
        men,
    }
}

/// The squares on which a man of the loser may stand that could not at once end a check from a square.
#[tactic(auto, unfolding(crate::specs::MatesInReach::stays_on))]
fn staying(scene: &Scene, king: Square, from: Square) -> SquareSet
    ensures { result ≡ stays_on scene.now king from }
{
    staying_as(scene, king, from, Kind::Pawn)
        .joined(staying_as(scene, king, from, Kind::Knight))
        .joined(staying_as(scene, king, from, Kind::Bishop))
        .joined(staying_as(scene, king, from, Kind::Rook))
        .joined(staying_as(scene, king, from, Kind::Queen))
        .joined(staying_as(scene, king, from, Kind::King))
}

/// The squares on which it may stand so as a kind.
fn staying_as(scene: &Scene, king: Square, from: Square, kind: Kind) -> SquareSet
    ensures { result ≡ set_of (λ n. stays_as scene.now king from n kind) }
{
    reach_as(&scene.losers, kind).minus(enders(scene.winner.other(), king, from, kind))
}

/// The squares from which a man of a side, as a kind, could at once end a check from a square to its king.
fn enders(side: Color, king: Square, from: Square, kind: Kind) -> SquareSet
    ensures { result ≡ set_of (ends_check side king from kind) }
{
    spread(side.other(), kind, ends(king, from, kind))
}

/// Where a man of a kind ends a check from a square: there, where it takes, or between, if it is no pawn.
fn ends(king: Square, from: Square, kind: Kind) -> SquareSet
    ensures { result ≡ check_ends kind king from }
{
    if kind.is(Kind::Pawn) {
        SquareSet::single(from)
    } else {
        squares_between(from, king).with(from)
    }
}
