//! How far the two kings are from where they stand in a mate in a corner, for all four corners at once.
//!
//! A number has a byte for each corner: the last one for a1, and then those for h1, a8 and h8.

ghost use Rattle.std.specs.Prelude.{◌<◌};

use crate::army::Army;
use cha_board::Square;

/// What the loser's king counts on each square, from a1 to h8: two for each king's step to the corner.
#[rattlefmt::skip]
static LOSERS: [u32; 64] = [
    0x0e0e0e00, 0x0e0e0c02, 0x0e0e0a04, 0x0e0e0806, 0x0e0e0608, 0x0e0e040a, 0x0e0e020c, 0x0e0e000e,
    0x0e0c0e02, 0x0c0c0c02, 0x0c0c0a04, 0x0c0c0806, 0x0c0c0608, 0x0c0c040a, 0x0c0c020c, 0x0c0e020e,
    0x0e0a0e04, 0x0c0a0c04, 0x0a0a0a04, 0x0a0a0806, 0x0a0a0608, 0x0a0a040a, 0x0a0c040c, 0x0a0e040e,
    0x0e080e06, 0x0c080c06, 0x0a080a06, 0x08080806, 0x08080608, 0x080a060a, 0x080c060c, 0x080e060e,
    0x0e060e08, 0x0c060c08, 0x0a060a08, 0x08060808, 0x06080808, 0x060a080a, 0x060c080c, 0x060e080e,
    0x0e040e0a, 0x0c040c0a, 0x0a040a0a, 0x08060a0a, 0x06080a0a, 0x040a0a0a, 0x040c0a0c, 0x040e0a0e,
    0x0e020e0c, 0x0c020c0c, 0x0a040c0c, 0x08060c0c, 0x06080c0c, 0x040a0c0c, 0x020c0c0c, 0x020e0c0e,
    0x0e000e0e, 0x0c020e0e, 0x0a040e0e, 0x08060e0e, 0x06080e0e, 0x040a0e0e, 0x020c0e0e, 0x000e0e0e,
];

/// What the winner's king counts: three for each king's step that it is nearer to the corner than two steps, or farther.
#[rattlefmt::skip]
static WINNERS: [u32; 64] = [
    0x0f0f0f06, 0x0f0f0c03, 0x0f0f0900, 0x0f0f0603, 0x0f0f0306, 0x0f0f0009, 0x0f0f030c, 0x0f0f060f,
    0x0f0c0f03, 0x0c0c0c03, 0x0c0c0900, 0x0c0c0603, 0x0c0c0306, 0x0c0c0009, 0x0c0c030c, 0x0c0f030f,
    0x0f090f00, 0x0c090c00, 0x09090900, 0x09090603, 0x09090306, 0x09090009, 0x090c000c, 0x090f000f,
    0x0f060f03, 0x0c060c03, 0x09060903, 0x06060603, 0x06060306, 0x06090309, 0x060c030c, 0x060f030f,
    0x0f030f06, 0x0c030c06, 0x09030906, 0x06030606, 0x03060606, 0x03090609, 0x030c060c, 0x030f060f,
    0x0f000f09, 0x0c000c09, 0x09000909, 0x06030909, 0x03060909, 0x00090909, 0x000c090c, 0x000f090f,
    0x0f030f0c, 0x0c030c0c, 0x09000c0c, 0x06030c0c, 0x03060c0c, 0x00090c0c, 0x030c0c0c, 0x030f0c0f,
    0x0f060f0f, 0x0c030f0f, 0x09000f0f, 0x06030f0f, 0x03060f0f, 0x00090f0f, 0x030c0f0f, 0x060f0f0f,
];

/// What both kings count for each corner.
fn both(own: &Army, other: &Army) -> u32 {
    let loser = LOSERS[usize::from(other.king.index())];
    let winner = WINNERS[usize::from(own.king.index())];
    loser.wrapping_add(winner)
}

/// How far the kings are from where they stand in a mate in a corner.
pub fn kings_away(own: &Army, other: &Army, corner: Square) -> u32
    ensures { result < 256 }
{
    let east = corner.index() % 2;
    let north = corner.index() / 32;
    (both(own, other) >> (8 * (east + 2 * north))) % 256
}

/// How far the kings are from where they stand in a mate in some corner.
pub fn kings_from_corners(own: &Army, other: &Army) -> u32 {
    let all = both(own, other);
    let first = (all % 256).min((all >> 8) % 256);
    let last = ((all >> 16) % 256).min(all >> 24);
    first.min(last)
}
