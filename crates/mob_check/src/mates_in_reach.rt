//! Whether mobility sets leave a mate in reach.

ghost use Rattle.std.specs.Prelude.{◌≡◌, ◌↔◌, IsTrue};
ghost use Rattle.mob_law.specs.Threats.{HasNoMate};
ghost use Rattle.mob_sets.specs.Rows.{sets_of};
ghost use Rattle.mob_check.specs.MatesInReach.{left_squares, shuts_from, may_shut, ring_of_one, mates_with_all, mates_as, mates_from, mates_with_one, mates_among, may_mate_on, may_mate};
ghost use Rattle.mob_check.specs.MatesInReach.{men_near as men_near_king};

use crate::attacks::{check_as, some_check, struck};
use crate::groups::origins_on;
use crate::near::{is_near, squares_near};
use crate::ring::{Ring, fills, ring_of};
use crate::scene::{Scene, somewhere};
use cha_board::{Color, Kind, Position, Square, SquareSet};
use mob_sets::{SetRow, Sets};

/// Whether mobility sets have no mate for a winner (this project): wherever the two kings may stand, either no man of the
/// winner may give check, or the loser's king cannot be kept from some square next to it, or its own men are too few for the
/// squares on which they would have to stand. Where the winner has one man beside its king, that man has to give check and
/// keep the king in from one square, and no man that could at once end that check stands in its king's way. It takes no
/// memory.
pub fn no_mate(position: &Position, winner: Color, sets: &Sets) -> bool
    ensures { IsTrue result ↔ HasNoMate position.now (sets_of sets.now) winner }
{
    position.known();
    !some_mate(position, sets.rows(), &Scene::of(position, sets, winner))
}

/// Whether a mate is in reach.
#[tactic(auto, unfolding(crate::specs::MatesInReach::may_mate))]
fn some_mate(position: &Position, rows: &[SetRow], scene: &Scene) -> bool
    ensures { result ≡ may_mate position.now rows.now scene.now }
{
    if somewhere(&scene.men).bits() == 0 {
        return false;
    }
    for index in 0..64 {
        if mate_on(position, rows, scene, Square::at(index)) {
            return true;
        }
    }
    false
}

/// Whether a mate of the king on a square is in reach.
#[tactic(auto, unfolding(crate::specs::MatesInReach::may_mate_on))]
fn mate_on(position: &Position, rows: &[SetRow], scene: &Scene, king: Square) -> bool
    ensures { result ≡ may_mate_on position.now rows.now scene.now king }
{
    if !scene.loser_king.has(king) {
        return false;
    }
    let men = men_near(position, rows, scene.winner, king);
    mate_among(scene, scene.fixed.without(king), men, king)
}

/// How many men of the winner's opponent may stand next to a king of theirs.
#[tactic(auto, unfolding(crate::specs::MatesInReach::men_near))]
fn men_near(position: &Position, rows: &[SetRow], winner: Color, king: Square) -> u8
    ensures { result ≡ men_near_king position.now rows.now winner king }
{
    origins_on(position, rows, winner.other(), squares_near(king)).len()
}

/// Whether a mate is in reach with so many men of the loser's next to its king.
#[tactic(auto, unfolding(crate::specs::MatesInReach::mates_among))]
fn mate_among(scene: &Scene, seen: SquareSet, men: u8, king: Square) -> bool
    ensures { result ≡ mates_among scene.now seen men king }
{
    if scene.one_man {
        mate_with_one(scene, seen, men, king)
    } else {
        mate_with_all(scene, seen, men, king)
    }
}

/// Whether one man of the winner may give check while its men and its king keep the other king in.
#[tactic(auto, unfolding(crate::specs::MatesInReach::mates_with_all))]
fn mate_with_all(scene: &Scene, seen: SquareSet, men: u8, king: Square) -> bool
    ensures { result ≡ mates_with_all scene.now seen men king }
{
    if !some_check(scene, king) {
        return false;
    }
    let ring = Ring {
        struck: struck(scene, seen, king),
        blockers: scene.loser_men,
        men,
    };
    some_shut(scene, &ring, king)
}

/// Whether the only man of the winner may give check while it and its king keep the other king in.
#[tactic(auto, unfolding(crate::specs::MatesInReach::mates_with_one), using(crate::proofs::Unreached::no_mate_from))]
fn mate_with_one(scene: &Scene, seen: SquareSet, men: u8, king: Square) -> bool
    ensures { result ≡ mates_with_one scene.now seen men king }
{
    let reached = somewhere(&scene.men);
    for index in 0..64 {
        let from = Square::at(index);
        if reached.has(from) && mate_from(scene, seen, men, king, from) {
            return true;
        }
    }
    false
}

/// The same from a square.
#[tactic(auto, unfolding(crate::specs::MatesInReach::mates_from))]
fn mate_from(scene: &Scene, seen: SquareSet, men: u8, king: Square, from: Square) -> bool
    ensures { result ≡ mates_from scene.now seen men king from }
{
    mate_as(scene, seen, men, king, from, Kind::Pawn)
        || mate_as(scene, seen, men, king, from, Kind::Knight)
        || mate_as(scene, seen, men, king, from, Kind::Bishop)
        || mate_as(scene, seen, men, king, from, Kind::Rook)
        || mate_as(scene, seen, men, king, from, Kind::Queen)
        || mate_as(scene, seen, men, king, from, Kind::King)
}

/// The same from a square, as a kind.
// Most squares are out of reach as most kinds, which costs a test of one bit where no call is made for it.
#[inline(always)]
#[tactic(auto, unfolding(crate::specs::MatesInReach::mates_as))]
fn mate_as(scene: &Scene, seen: SquareSet, men: u8, king: Square, from: Square, kind: Kind) -> bool
    ensures { result ≡ mates_as scene.now seen men king from kind }
{
    check_as(scene, king, from, kind) && shut_by(scene, seen, men, king, from, kind)
}

/// Whether the winner's king may stand so that, with its only man on a square as a kind, it keeps the other king in.
#[inline(never)]
fn shut_by(scene: &Scene, seen: SquareSet, men: u8, king: Square, from: Square, kind: Kind) -> bool
    ensures { result ≡ may_shut scene.now (ring_of_one scene.now seen men king from kind) king }
{
    some_shut(scene, &ring_of(scene, seen, men, king, from, kind), king)
}

/// Whether the winner's king may stand so that with a ring it keeps the other king in.
#[tactic(auto, unfolding(crate::specs::MatesInReach::may_shut))]
fn some_shut(scene: &Scene, ring: &Ring, king: Square) -> bool
    ensures { result ≡ may_shut scene.now ring.now king }
{
    for index in 0..64 {
        if shut_from(scene, ring, king, Square::at(index)) {
            return true;
        }
    }
    false
}

/// Whether the winner's king may stand on a square and does so there.
#[tactic(auto, unfolding(crate::specs::MatesInReach::shuts_from))]
fn shut_from(scene: &Scene, ring: &Ring, king: Square, winner_king: Square) -> bool
    ensures { result ≡ shuts_from scene.now ring.now king winner_king }
{
    scene.winner_king.has(winner_king)
        && winner_king.index() != king.index()
        && !is_near(king, winner_king)
        && fills(ring, left_to(ring.struck, king, winner_king))
}

/// The squares next to a king that are left to it.
fn left_to(struck: SquareSet, king: Square, winner_king: Square) -> SquareSet
    ensures { result ≡ left_squares struck king winner_king }
{
    squares_near(king).minus(struck.joined(squares_near(winner_king)))
}
