//! What men in reach may attack: the king on a square, and the squares next to it.

ghost use Rattle.std.specs.Prelude.{◌≡◌};
ghost use Rattle.std.specs.List.{list_any};
ghost use Rattle.cha_board.specs.SquareSets.{set_of};
ghost use Rattle.cha_board.specs.Aims.{aims_over};
ghost use Rattle.mob_sets.specs.Rows.{kinds};
ghost use Rattle.mob_check.specs.MatesInReach.{checks_as, checks_from, has_check, struck_by, strikes_as, struck as struck_set};

use crate::near::squares_near;
use crate::scene::{Scene, reach_as, somewhere};
use cha_board::{Color, Kind, Square, SquareSet, aims};

/// Whether a man of the winner may give check to the king on a square.
#[tactic(auto, unfolding(crate::specs::MatesInReach::has_check), using(crate::proofs::Unreached::no_check_from))]
pub fn some_check(scene: &Scene, king: Square) -> bool
    ensures { result ≡ has_check scene.now king }
{
    let men = somewhere(&scene.men);
    for index in 0..64 {
        let from = Square::at(index);
        if men.has(from) && check_from(scene, king, from) {
            return true;
        }
    }
    false
}

/// Whether a man of the winner may give check from a square.
#[tactic(auto, unfolding(crate::specs::MatesInReach::checks_from))]
fn check_from(scene: &Scene, king: Square, from: Square) -> bool
    ensures { result ≡ checks_from scene.now king from }
{
    check_as(scene, king, from, Kind::Pawn)
        || check_as(scene, king, from, Kind::Knight)
        || check_as(scene, king, from, Kind::Bishop)
        || check_as(scene, king, from, Kind::Rook)
        || check_as(scene, king, from, Kind::Queen)
        || check_as(scene, king, from, Kind::King)
}

/// Whether a man of the winner may give check from a square, as a kind.
#[tactic(auto, unfolding(crate::specs::MatesInReach::checks_as))]
pub fn check_as(scene: &Scene, king: Square, from: Square, kind: Kind) -> bool
    ensures { result ≡ checks_as scene.now king from kind }
{
    reach_as(&scene.men, kind).has(from) && hits(scene, king, from, kind)
}

/// Whether a man of the winner, as a kind on a square, attacks the king over the fixed men.
fn hits(scene: &Scene, king: Square, from: Square, kind: Kind) -> bool
    ensures { result ≡ aims_over scene.now.winner kind from scene.now.fixed king }
{
    aims(scene.winner, kind, from, scene.fixed).has(king)
}

/// The squares next to the king that some man of the winner may attack; `seen` has the fixed squares without the king's, which
/// is not in the way of what attacks the squares behind it.
// In most sets a few men attack them all.
pub fn struck(scene: &Scene, seen: SquareSet, king: Square) -> SquareSet
    ensures { result ≡ struck_set scene.now seen king }
{
    let men = somewhere(&scene.men).without(king);
    let near = squares_near(king);
    let mut squares = SquareSet::empty();
    for index in 0..64 {
        if near.within(squares) {
            return squares;
        }
        let from = Square::at(index);
        if men.has(from) {
            squares = squares.joined(struck_somehow(scene, seen, king, from));
        }
    }
    squares
}

/// The squares next to the king that a man of the winner may attack from a square.
fn struck_somehow(scene: &Scene, seen: SquareSet, king: Square, from: Square) -> SquareSet
    ensures { result ≡ set_of (λ n. list_any (strikes_as scene.now seen king n from) kinds) }
{
    struck_as(scene, seen, king, from, Kind::Pawn)
        .joined(struck_as(scene, seen, king, from, Kind::Knight))
        .joined(struck_as(scene, seen, king, from, Kind::Bishop))
        .joined(struck_as(scene, seen, king, from, Kind::Rook))
        .joined(struck_as(scene, seen, king, from, Kind::Queen))
        .joined(struck_as(scene, seen, king, from, Kind::King))
}

/// The squares next to the king that a man of the winner may attack from a square, as a kind.
fn struck_as(scene: &Scene, seen: SquareSet, king: Square, from: Square, kind: Kind) -> SquareSet
    ensures { result ≡ set_of (λ n. strikes_as scene.now seen king n from kind) }
{
    if reach_as(&scene.men, kind).has(from) {
        struck_from(scene.winner, seen, king, from, kind)
    } else {
        SquareSet::empty()
    }
}

/// The squares next to the king that a man attacks.
pub fn struck_from(
    side: Color,
    seen: SquareSet,
    king: Square,
    from: Square,
    kind: Kind,
) -> SquareSet
    ensures { result ≡ struck_by side seen king from kind }
{
    squares_near(king).common(aims(side, kind, from, seen))
}
