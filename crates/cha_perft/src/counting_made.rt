//! The plain count of lines of legal moves, which makes every move of every line: the yardstick of the other count. The
//! moves are visited by the sets of squares to which men go, and no list is made.

ghost use Rattle.std.specs.Prelude.{ℕ, ◌≡◌, false, ◌<◌, ◌+◌, Some, filter, Contains, IsTrue};
ghost use Rattle.std.specs.List.{flat_map};
ghost use Rattle.cha_board.specs.Men.{is_man};
ghost use Rattle.cha_board.specs.Board.{man_at, is_home};
ghost use Rattle.cha_board.specs.SquareSets.{set_of, squares_in};
ghost use Rattle.cha_moves.specs.Moves.{is_legal_in, moves_from, rights_after, after as position_after, legal as legal_moves};
ghost use Rattle.cha_moves.specs.Ways.{is_promoted, is_quiet, legal_between};
ghost use Rattle.cha_moves.specs.Shields.{AreShields, goes_legally};
ghost use Rattle.cha_perft.specs.Counts.{lines_from, lines_with, Tells};

use cha_board::{Color, Kind, Man, Position, Rights, Square, SquareSet};
use cha_moves::{
    Move, Shields, after_by, after_quiet, legal_ways_by, promoting, promotion, quiet_squares,
    rights_leaving, shields_of,
};

/// How many lines of `depth` legal moves begin in a position, as they are made one by one, or None where they pass 64
/// bits. It takes no memory.
// It is called for each move that is made, and most lines end here: what goes on has a call of its own, with its registers.
#[cycle(making)]
#[inline(never)]
pub fn count_made(position: &Position, depth: u8) -> Option<u64>
    ensures { Tells result (lines_from depth position.now) }
{
    if depth == 0 {
        return Some(1);
    }
    made_all(position, depth)
}

/// The same where a move is to be made.
#[cycle(making)]
#[inline(never)]
fn made_all(position: &Position, depth: u8) -> Option<u64>
    requires { 0 < depth }
    ensures { Tells result (lines_from depth position.now) }
{
    match position.side() {
        Color::White => made_by_white(position, depth - 1),
        Color::Black => made_by_black(position, depth - 1),
    }
}

/// The lines that begin with a move of White, which is to move, and have `depth` more.
// Each side has a call of its own: two that differ in nothing but the side would be made one again, which asks for it.
#[cycle(making)]
#[inline(never)]
fn made_by_white(position: &Position, depth: u8) -> Option<u64>
    requires { Color.White ≡ position.now.side }
    ensures { Tells result (lines_with depth position.now (legal_moves position.now)) }
{
    let side = Color::White;
    let shields = shields_of(position);
    let total = made_kind(position, &shields, side, Kind::Pawn, depth, 0)?;
    let total = made_kind(position, &shields, side, Kind::Knight, depth, total)?;
    let total = made_kind(position, &shields, side, Kind::Bishop, depth, total)?;
    let total = made_kind(position, &shields, side, Kind::Rook, depth, total)?;
    let total = made_kind(position, &shields, side, Kind::Queen, depth, total)?;
    made_kind(position, &shields, side, Kind::King, depth, total)
}

/// The lines that begin with a move of Black, which is to move, and have `depth` more.
#[cycle(making)]
#[inline(never)]
fn made_by_black(position: &Position, depth: u8) -> Option<u64>
    requires { Color.Black ≡ position.now.side }
    ensures { Tells result (lines_with depth position.now (legal_moves position.now)) }
{
    let side = Color::Black;
    let shields = shields_of(position);
    let total = made_kind(position, &shields, side, Kind::Pawn, depth, 0)?;
    let total = made_kind(position, &shields, side, Kind::Knight, depth, total)?;
    let total = made_kind(position, &shields, side, Kind::Bishop, depth, total)?;
    let total = made_kind(position, &shields, side, Kind::Rook, depth, total)?;
    let total = made_kind(position, &shields, side, Kind::Queen, depth, total)?;
    made_kind(position, &shields, side, Kind::King, depth, total)
}

/// The lines that begin with a move of the men of the side to move and of this kind and have `depth` more, and these before.
#[cycle(making)]
#[inline(always)]
fn made_kind(
    position: &Position,
    shields: &Shields,
    side: Color,
    kind: Kind,
    depth: u8,
    before: u64,
) -> Option<u64>
    requires side { side ≡ position.now.side }
    requires shields { AreShields position.now shields.now.answers shields.now.screens }
    ensures { Tells result (before + lines_with depth position.now (filter (is_legal_in position.now) (flat_map moves_from (squares_in (set_of (λ s. is_man side kind (man_at position.now.men s))))))) }
{
    let mut total = before;
    let mut left = position.men(side, kind);
    while let Some(from) = left.first() {
        let man = Man { color: side, kind };
        let Some(sum) = made_by(position, shields, man, from, depth, total) else {
            return None;
        };
        total = sum;
        left = left.without(from);
    }
    Some(total)
}

/// The lines that begin with a move of a man of the side to move and of this kind from its square and have `depth` more, and these
/// before.
#[cycle(making)]
#[inline(always)]
fn made_by(
    position: &Position,
    shields: &Shields,
    man: Man,
    from: Square,
    depth: u8,
    before: u64,
) -> Option<u64>
    requires side { man.color ≡ position.now.side }
    requires man { man_at position.now.men from ≡ Some man }
    requires shields { AreShields position.now shields.now.answers shields.now.screens }
    ensures { Tells result (before + lines_with depth position.now (filter (is_legal_in position.now) (moves_from from))) }
{
    let leaving = Leaving {
        quiet: quiet_squares(position, man.color, man.kind, from),
        rights: rights_leaving(position, man, from),
    };
    let mut total = before;
    let mut left = legal_ways_by(position, shields, man.color, man.kind, from);
    while let Some(to) = left.first() {
        let lines = made_way(position, man, &leaving, from, to, depth);
        let Some(sum) = both(Some(total), lines) else {
            return None;
        };
        total = sum;
        left = left.without(to);
    }
    Some(total)
}

/// What moves of a man from its square have in common.
#[derive(Clone, Copy)]
struct Leaving {
    /// The squares to which it goes quietly.
    quiet: SquareSet,
    /// The rights after such a move.
    rights: Rights,
}

/// The lines that begin with a move from one square to another, to which the man there goes legally, and have `depth`
/// more.
#[cycle(making)]
#[inline(always)]
fn made_way(
    position: &Position,
    man: Man,
    leaving: &Leaving,
    from: Square,
    to: Square,
    depth: u8,
) -> Option<u64>
    requires side { man.color ≡ position.now.side }
    requires man { man_at position.now.men from ≡ Some man }
    requires quiet { leaving.now.quiet ≡ set_of (is_quiet position.now man.kind from) }
    requires rights { (m : Move) → m.from ≡ from → is_home m.to ≡ false → leaving.now.rights ≡ rights_after position.now.rights m }
    requires way { IsTrue (goes_legally position.now from to) }
    ensures { Tells result (lines_with depth position.now (legal_between position.now from to)) }
{
    // The moves of a way are told of valid positions.
    position.known();
    let _squares = (from.index(), to.index());
    let promotion = None;
    let m = Move {
        from,
        to,
        promotion,
    };
    if leaving.quiet.has(to) {
        let next = after_quiet(position, man.color, man.kind, leaving.rights, m);
        return count_made(&next, depth);
    }
    let last = promoting(man.color, man.kind);
    if last.has(to) {
        made_promoted(position, man, from, to, depth)
    } else {
        made_move(position, man, m, depth)
    }
}

/// The lines that begin with one of the four promotions of a pawn and have `depth` more.
// Few moves promote, and the others are not to make room for this.
#[cycle(making)]
#[inline(never)]
fn made_promoted(position: &Position, man: Man, from: Square, to: Square, depth: u8) -> Option<u64>
    requires side { man.color ≡ position.now.side }
    requires man { man_at position.now.men from ≡ Some man }
    requires last { IsTrue (is_promoted position.now.side man.kind to) }
    requires way { IsTrue (goes_legally position.now from to) }
    ensures { Tells result (lines_with depth position.now (legal_between position.now from to)) }
{
    // The moves of a way are told of valid positions.
    position.known();
    let _squares = (from.index(), to.index());
    let queen = made_move(position, man, promotion(from, to, Kind::Queen), depth);
    let rook = made_move(position, man, promotion(from, to, Kind::Rook), depth);
    let bishop = made_move(position, man, promotion(from, to, Kind::Bishop), depth);
    let knight = made_move(position, man, promotion(from, to, Kind::Knight), depth);
    both(both(queen, rook), both(bishop, knight))
}

/// The lines that begin with a move of this man of the side to move and have `depth` more.
#[cycle(making)]
#[inline(always)]
fn made_move(position: &Position, man: Man, m: Move, depth: u8) -> Option<u64>
    requires side { man.color ≡ position.now.side }
    requires legal { Contains (legal_moves position.now) m }
    requires man { man_at position.now.men m.from ≡ Some man }
    ensures { Tells result (lines_from depth (position_after position.now m)) }
{
    let next = after_by(position, man.color, man.kind, m);
    count_made(&next, depth)
}

/// Two counts together, either of which may pass 64 bits.
#[inline(always)]
fn both(one: Option<u64>, other: Option<u64>) -> Option<u64>
    ensures { (m n : ℕ) → Tells one m → Tells other n → Tells result (m + n) }
{
    let Some(one) = one else {
        return None;
    };
    let Some(other) = other else {
        return None;
    };
    one.checked_add(other)
}
