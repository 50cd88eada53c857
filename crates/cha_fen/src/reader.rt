//! A position read from its text.

ghost use Rattle.std.specs.Prelude.{◌≡◌};
ghost use Rattle.cha_fen.specs.Placement.{placement_of};
ghost use Rattle.cha_fen.specs.Fen.{side_of, rights_of, target_of, parts_if, position_of, fen};

use crate::details::{clocks, rights_named, side_named, target_named};
use crate::faults::{FenFault, of_build};
use crate::fields::next_field;
use crate::placement::men_placed;
use cha_board::Position;

/// The position of these fields.
fn read_fields(
    placement: &[u8],
    side: &[u8],
    rights: &[u8],
    target: &[u8],
) -> Result<Position, FenFault>
    ensures { result ≡ position_of (parts_if (placement_of placement.now) (side_of side.now) (rights_of rights.now) (target_of target.now)) }
{
    let Some(men) = men_placed(placement) else {
        return Err(FenFault::Shape);
    };
    let Some(side) = side_named(side) else {
        return Err(FenFault::Shape);
    };
    let Some(rights) = rights_named(rights) else {
        return Err(FenFault::Shape);
    };
    let Some(target) = target_named(target) else {
        return Err(FenFault::Shape);
    };
    match Position::build(&men, side, rights, target) {
        Ok(position) => Ok(position),
        Err(fault) => Err(of_build(fault)),
    }
}

/// The position of a text in FEN, or the first fault (PGN standard, 16.1). It takes no memory.
///
/// Four, five or six fields stand between blanks, and the clocks of the last two are not kept. A right to castle whose king
/// or rook is not at home is dropped, and so is a target over which no pawn can just have passed.
///
/// `4k3/8/8/8/8/8/4P3/4K3 w - - 5 39` is a pawn on e2 between two kings on e1 and e8, with White to move.
#[tactic(auto, unfolding(crate::specs::Fen::fen, crate::specs::Fen::parts_of))]
pub fn read(bytes: &[u8]) -> Result<Position, FenFault>
    ensures { result ≡ fen bytes.now }
{
    let Some((placement, bytes)) = next_field(bytes) else {
        return Err(FenFault::Shape);
    };
    let Some((side, bytes)) = next_field(bytes) else {
        return Err(FenFault::Shape);
    };
    let Some((rights, bytes)) = next_field(bytes) else {
        return Err(FenFault::Shape);
    };
    let Some((target, bytes)) = next_field(bytes) else {
        return Err(FenFault::Shape);
    };
    if !clocks(bytes) {
        return Err(FenFault::Shape);
    }
    read_fields(placement, side, rights, target)
}
