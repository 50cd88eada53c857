//! Distances and lines of squares, and what a man aims at on an empty board (Laws of Chess, Articles 3.2 to 3.8).

ghost use Rattle.std.specs.Prelude.{◌≡◌, ◌<◌};
ghost use Rattle.cha_board.specs.Squares.{files_apart, ranks_apart, steps_apart, is_straight, is_diagonal, is_line, is_rank_ahead};
ghost use Rattle.cha_board.specs.Squares.{aims_at as aims_at_square};

use crate::men::{Color, Kind};
use crate::squares::Square;

/// How many files two squares are apart, from 0 to 7.
#[tactic(auto, unfolding(crate::specs::Squares::files_apart))]
pub fn files_between(s: Square, t: Square) -> u8
    ensures value { result ≡ files_apart s t }
    ensures bound { result < 8 }
{
    s.file().abs_diff(t.file())
}

/// How many ranks two squares are apart, from 0 to 7.
#[tactic(auto, unfolding(crate::specs::Squares::ranks_apart))]
fn ranks_between(s: Square, t: Square) -> u8
    ensures value { result ≡ ranks_apart s t }
    ensures bound { result < 8 }
{
    s.rank().abs_diff(t.rank())
}

/// How many steps of a king two squares are apart, from 0 to 7.
#[tactic(auto, unfolding(crate::specs::Squares::steps_apart))]
pub fn steps_between(s: Square, t: Square) -> u8
    ensures value { result ≡ steps_apart s t }
    ensures bound { result < 8 }
{
    files_between(s, t).max(ranks_between(s, t))
}

/// Whether two squares are different squares of one file or one rank.
#[tactic(auto, unfolding(crate::specs::Squares::is_straight))]
fn straight(s: Square, t: Square) -> bool
    ensures { result ≡ is_straight s t }
{
    s.index() != t.index() && (files_between(s, t) == 0 || ranks_between(s, t) == 0)
}

/// Whether two squares are different squares of one diagonal.
#[tactic(auto, unfolding(crate::specs::Squares::is_diagonal))]
fn diagonal(s: Square, t: Square) -> bool
    ensures { result ≡ is_diagonal s t }
{
    s.index() != t.index() && files_between(s, t) == ranks_between(s, t)
}

/// Whether two squares are different squares of one line.
#[tactic(auto, unfolding(crate::specs::Squares::is_line))]
fn in_line(s: Square, t: Square) -> bool
    ensures { result ≡ is_line s t }
{
    straight(s, t) || diagonal(s, t)
}

/// Whether the second square is one rank ahead of the first, as a side sees it.
#[tactic(auto, unfolding(crate::specs::Squares::is_rank_ahead))]
fn rank_ahead(side: Color, s: Square, t: Square) -> bool
    ensures { result ≡ is_rank_ahead side s t }
{
    match side {
        Color::White => t.rank() == s.rank() + 1,
        Color::Black => s.rank() == t.rank() + 1,
    }
}

/// Whether a man aims at a square, on an empty board. A pawn aims at the squares onto which it captures.
#[tactic(auto, unfolding(crate::specs::Squares::aims_at))]
pub fn aims_at(side: Color, kind: Kind, s: Square, t: Square) -> bool
    ensures { result ≡ aims_at_square side kind s t }
{
    match kind {
        Kind::Pawn => rank_ahead(side, s, t) && files_between(s, t) == 1,
        Kind::Knight => files_between(s, t) * ranks_between(s, t) == 2,
        Kind::Bishop => diagonal(s, t),
        Kind::Rook => straight(s, t),
        Kind::Queen => in_line(s, t),
        Kind::King => steps_between(s, t) == 1,
    }
}
