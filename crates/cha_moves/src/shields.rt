//! What checks the king of the side to move, and which of its men shield it (Laws of Chess, Articles 3.9.1 and 3.9.2).

ghost use Rattle.std.specs.Prelude.{ℕ, ◌≡◌, ◌<◌, ◌&&◌, true};
ghost use Rattle.cha_board.specs.Men.{is_man};
ghost use Rattle.cha_board.specs.Squares.{aims_at};
ghost use Rattle.cha_board.specs.Board.{man_at};
ghost use Rattle.cha_board.specs.SquareSets.{set_of, has_square};
ghost use Rattle.cha_moves.specs.Shields.{aims_as, AreShields};

use cha_board::{Color, Kind, Position, Square, SquareSet, aims_alone, squares_between};

/// What the king of the side to move asks of its men.
#[derive(Clone, Copy, Debug, PartialEq, Eq)]
pub struct Shields {
    /// The squares onto which a man has to go to end every check: all squares where there is no check.
    pub answers: SquareSet,
    /// The squares of the men, of either colour, that alone stand between the king and a man of the other side that aims at
    /// it over them: without another man the king is attacked by no more men than now.
    pub screens: SquareSet,
}

/// The squares of the men of a side and a kind that aim at a square, over whatever squares.
fn aimers_of(position: &Position, by: Color, kind: Kind, at: Square) -> SquareSet
    ensures { result ≡ set_of (λ u. is_man by kind (man_at position.now.men u) && aims_at by kind u at) }
{
    let _at = at.index();
    let men = position.men(by, kind);
    men.common(aims_alone(by.other(), kind, at))
}

/// The squares of the men of a side that aim at a square, over whatever squares.
pub fn aimers(position: &Position, by: Color, at: Square) -> SquareSet
    ensures { result ≡ set_of (λ u. aims_as by at u (man_at position.now.men u)) }
{
    aimers_of(position, by, Kind::Pawn, at)
        .joined(aimers_of(position, by, Kind::Knight, at))
        .joined(aimers_of(position, by, Kind::King, at))
        .joined(aimers_of(position, by, Kind::Bishop, at))
        .joined(aimers_of(position, by, Kind::Rook, at))
        .joined(aimers_of(position, by, Kind::Queen, at))
}

/// The set itself where it has at most one square; otherwise the empty set.
pub fn lone(set: SquareSet) -> SquareSet
    ensures { (s : ℕ) → has_square set s ≡ true → ((y : ℕ) → y < 64 → has_square set y ≡ true → y ≡ s) → has_square result s ≡ true }
{
    match set.first() {
        None => set,
        Some(first) => {
            if set.without(first).is_empty() {
                set
            } else {
                SquareSet::empty()
            }
        }
    }
}

/// The squares that end every check, and those of the men that shield the king.
pub fn shields_of(position: &Position) -> Shields
    ensures { AreShields position.now result.answers result.screens }
{
    position.known();
    let side = position.side();
    let king = position.king(side);
    let occupied = position.occupied();
    let mut answers = SquareSet::from_bits(u64::MAX);
    let mut screens = SquareSet::empty();
    for by in aimers(position, side.other(), king) {
        let line = squares_between(king, by);
        let way = line.common(occupied);
        if way.is_empty() {
            answers = answers.common(line.with(by));
        } else {
            screens = screens.joined(lone(way));
        }
    }
    Shields { answers, screens }
}
