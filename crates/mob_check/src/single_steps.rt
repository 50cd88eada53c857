//! Steps of one square and jumps, of all the men of a set at once.

ghost use Rattle.std.specs.Prelude.{◌≡◌};
ghost use Rattle.cha_board.specs.declared.men.Color.{Color as Side};
ghost use Rattle.cha_board.specs.declared.men.Kind.TheVariants.{Pawn, Knight, Bishop, Rook};
ghost use Rattle.mob_check.specs.SingleSteps.{spread_of};

use cha_board::{Color, Kind, SquareSet};

/// The squares at which men of a kind on some squares aim by one step or a jump.
pub fn spread(side: Color, kind: Kind, from: SquareSet) -> SquareSet
    ensures { result ≡ spread_of side kind from }
{
    match kind {
        Kind::Pawn => pawn_captures(side, from),
        Kind::Knight => knight_jumps(from),
        Kind::Bishop => diagonal_steps(from),
        Kind::Rook => straight_steps(from),
        Kind::Queen => from.king_steps(),
        Kind::King => from.king_steps(),
    }
}

/// The squares onto which pawns of a side capture.
fn pawn_captures(side: Color, from: SquareSet) -> SquareSet
    ensures { result ≡ spread_of side Pawn from }
{
    // The number of a set tells that it has 64 truth values.
    let _number = from.bits();
    let beside = from.east().joined(from.west());
    beside.ahead(side)
}

/// The squares to which knights jump.
fn knight_jumps(from: SquareSet) -> SquareSet
    ensures { (c : Side) → result ≡ spread_of c Knight from }
{
    // The number of a set tells that it has 64 truth values.
    let _number = from.bits();
    let near = from.east().joined(from.west());
    let far = from.east().east().joined(from.west().west());
    let high = near.north().north().joined(near.south().south());
    let wide = far.north().joined(far.south());
    high.joined(wide)
}

/// The squares one step away on diagonals.
fn diagonal_steps(from: SquareSet) -> SquareSet
    ensures { (c : Side) → result ≡ spread_of c Bishop from }
{
    // The number of a set tells that it has 64 truth values.
    let _number = from.bits();
    let beside = from.east().joined(from.west());
    beside.north().joined(beside.south())
}

/// The squares one step away on files and ranks.
fn straight_steps(from: SquareSet) -> SquareSet
    ensures { (c : Side) → result ≡ spread_of c Rook from }
{
    // The number of a set tells that it has 64 truth values.
    let _number = from.bits();
    let beside = from.east().joined(from.west());
    from.north().joined(from.south()).joined(beside)
}
