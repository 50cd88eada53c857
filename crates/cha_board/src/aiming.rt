//! What men aim at over squares of which some are occupied (Laws of Chess, Articles 3.1 to 3.8).

ghost use Rattle.std.specs.Prelude.{◌≡◌, ◌<◌};
ghost use Rattle.cha_board.specs.declared.men.Color.TheVariants.{White};
ghost use Rattle.cha_board.specs.declared.men.Kind.TheVariants.{Bishop, Rook};
ghost use Rattle.cha_board.specs.Squares.{lies_between};
ghost use Rattle.cha_board.specs.Squares.{aims_at as aims_at_square};
ghost use Rattle.cha_board.specs.SquareSets.{set_of};
ghost use Rattle.cha_board.specs.Aims.{aimed, seen_up, seen_down};
ghost use Rattle.cha_board.specs.Rays.{rays_between};

use crate::leaps::{BISHOP, BLACK_PAWN, KING, KNIGHT, ROOK, WHITE_PAWN};
use crate::men::{Color, Kind};
use crate::rays::{EAST, NORTH, NORTH_EAST, NORTH_WEST, SOUTH, SOUTH_EAST, SOUTH_WEST, WEST};
use crate::sets::SquareSet;
use crate::squares::Square;

/// The squares strictly between two squares, as bits: those of a ray from each, where the two rays are opposite.
#[tactic(auto, unfolding(crate::specs::Rays::rays_between))]
fn between_rays(s: usize, t: usize) -> u64
    requires s { s < 64 }
    requires t { t < 64 }
    ensures { result ≡ rays_between s t }
{
    (NORTH[s] & SOUTH[t])
        | (SOUTH[s] & NORTH[t])
        | (EAST[s] & WEST[t])
        | (WEST[s] & EAST[t])
        | (NORTH_EAST[s] & SOUTH_WEST[t])
        | (SOUTH_WEST[s] & NORTH_EAST[t])
        | (NORTH_WEST[s] & SOUTH_EAST[t])
        | (SOUTH_EAST[s] & NORTH_WEST[t])
}

/// The squares strictly between two squares of one line; none between other squares.
pub fn squares_between(s: Square, t: Square) -> SquareSet
    ensures { result ≡ set_of (lies_between s t) }
{
    SquareSet::from_bits(between_rays(usize::from(s.index()), usize::from(t.index())))
}

/// The squares at which a man aims on an empty board. A pawn aims at the squares onto which it captures.
pub fn aims_alone(of: Color, kind: Kind, from: Square) -> SquareSet
    ensures { result ≡ set_of (aims_at_square of kind from) }
{
    let at = usize::from(from.index());
    match kind {
        Kind::Pawn => match of {
            Color::White => SquareSet::from_bits(WHITE_PAWN[at]),
            Color::Black => SquareSet::from_bits(BLACK_PAWN[at]),
        },
        Kind::Knight => SquareSet::from_bits(KNIGHT[at]),
        Kind::Bishop => SquareSet::from_bits(BISHOP[at]),
        Kind::Rook => SquareSet::from_bits(ROOK[at]),
        Kind::Queen => SquareSet::from_bits(ROOK[at]).joined(SquareSet::from_bits(BISHOP[at])),
        Kind::King => SquareSet::from_bits(KING[at]),
    }
}

/// The squares of a ray up to the first occupied one, where the ray goes up in the order of squares.
fn seen_upwards(ray: SquareSet, occupied: SquareSet) -> SquareSet
    ensures { result ≡ seen_up ray occupied }
{
    let stops = ray.common(occupied).bits() | (1 << 63);
    ray.common(SquareSet::from_bits(u64::MAX >> (63 - stops.trailing_zeros())))
}

/// The squares of a ray down to the first occupied one, where the ray goes down in the order of squares.
fn seen_downwards(ray: SquareSet, occupied: SquareSet) -> SquareSet
    ensures { result ≡ seen_down ray occupied }
{
    let stops = ray.common(occupied).bits() | 1;
    ray.common(SquareSet::from_bits(u64::MAX << (63 - stops.leading_zeros())))
}

/// The squares at which a rook aims, where these squares are occupied.
fn rook_aims(from: Square, occupied: SquareSet) -> SquareSet
    ensures { result ≡ aimed White Rook from occupied }
{
    let at = usize::from(from.index());
    let north = seen_upwards(SquareSet::from_bits(NORTH[at]), occupied);
    let east = seen_upwards(SquareSet::from_bits(EAST[at]), occupied);
    let south = seen_downwards(SquareSet::from_bits(SOUTH[at]), occupied);
    let west = seen_downwards(SquareSet::from_bits(WEST[at]), occupied);
    north.joined(east).joined(south.joined(west))
}

/// The squares at which a bishop aims, where these squares are occupied.
fn bishop_aims(from: Square, occupied: SquareSet) -> SquareSet
    ensures { result ≡ aimed White Bishop from occupied }
{
    let at = usize::from(from.index());
    let north_east = seen_upwards(SquareSet::from_bits(NORTH_EAST[at]), occupied);
    let north_west = seen_upwards(SquareSet::from_bits(NORTH_WEST[at]), occupied);
    let south_east = seen_downwards(SquareSet::from_bits(SOUTH_EAST[at]), occupied);
    let south_west = seen_downwards(SquareSet::from_bits(SOUTH_WEST[at]), occupied);
    north_east
        .joined(north_west)
        .joined(south_east.joined(south_west))
}

/// The squares at which a man aims, where these squares are occupied. A pawn aims at the squares onto which it captures.
///
/// A white rook on a1 over a4 and c1 aims at a2, a3, a4, b1 and c1.
pub fn aims(of: Color, kind: Kind, from: Square, occupied: SquareSet) -> SquareSet
    ensures { result ≡ aimed of kind from occupied }
{
    match kind {
        Kind::Bishop => bishop_aims(from, occupied),
        Kind::Rook => rook_aims(from, occupied),
        Kind::Queen => rook_aims(from, occupied).joined(bishop_aims(from, occupied)),
        Kind::Pawn => aims_alone(of, Kind::Pawn, from),
        Kind::Knight => aims_alone(of, Kind::Knight, from),
        Kind::King => aims_alone(of, Kind::King, from),
    }
}
