//! The position after a legal move (Laws of Chess, Article 3.10.1).

ghost use Rattle.std.specs.Prelude.{◌≡◌, ◌≢◌, ◌+◌, false, Some, None, Contains, IsTrue};
ghost use Rattle.cha_board.specs.Men.{same_kind, is_man};
ghost use Rattle.cha_board.specs.Board.{Board, man_at};
ghost use Rattle.cha_board.specs.SquareSets.{set_of};
ghost use Rattle.cha_moves.specs.Moves.{moved, rook_castled, is_en_passant, men_after, rights_after, target_after, legal as legal_moves, after as position_after};
ghost use Rattle.cha_moves.specs.Ways.{is_quiet};

use crate::changes::{men_made, rights_made, target_made};
use crate::chess_move::Move;
use crate::goes::goes_en_passant;
use crate::list::promoting;
use crate::passing::captured_on;
use crate::ways::pawn_steps;
use cha_board::{
    Color, Kind, Man, Position, Rights, Square, SquareSet, Wing, aims_alone, files_between, homes,
};

/// The position after a legal move.
pub fn after(position: &Position, m: Move) -> Position
    requires { Contains (legal_moves position.now) m }
    ensures { result ≡ position_after position.now m }
{
    after_of(position, position.placement().kind_at(m.from), m)
}

/// The position after a legal move of a man of this kind. Whoever visits the moves of one man knows it already.
// Each kind has a call of its own: the sets of the other kinds then lose squares, and none has to be asked. Where the kind is
// known, only its call is left.
#[inline(always)]
pub fn after_of(position: &Position, kind: Kind, m: Move) -> Position
    requires legal { Contains (legal_moves position.now) m }
    requires kind { (man : Man) → man_at position.now.men m.from ≡ Some man → kind ≡ man.kind }
    ensures { result ≡ position_after position.now m }
{
    after_by(position, position.side(), kind, m)
}

/// The position after a legal move of a man of this side, which is to move, and of this kind. Whoever visits the moves of one
/// side knows it already.
#[inline(always)]
pub fn after_by(position: &Position, side: Color, kind: Kind, m: Move) -> Position
    requires side { side ≡ position.now.side }
    requires legal { Contains (legal_moves position.now) m }
    requires kind { (man : Man) → man_at position.now.men m.from ≡ Some man → kind ≡ man.kind }
    ensures { result ≡ position_after position.now m }
{
    match kind {
        Kind::Pawn => after_pawn(position, side, m),
        Kind::Knight => after_piece(position, side, m, Kind::Knight),
        Kind::Bishop => after_piece(position, side, m, Kind::Bishop),
        Kind::Rook => after_piece(position, side, m, Kind::Rook),
        Kind::Queen => after_piece(position, side, m, Kind::Queen),
        Kind::King => after_king(position, side, m),
    }
}

/// The square midway to the one 16 further on in the order of squares, if it leads there.
fn midway(low: Square, high: Square) -> Option<Square>
    ensures far { low + 16 ≡ high → result ≡ Some (low + 8) }
    ensures near { low + 16 ≢ high → result ≡ None }
{
    if low.index() + 16 == high.index() {
        Some(Square::at(low.index() + 8))
    } else {
        None
    }
}

/// The square that a legal move of a pawn of a side passes over: a double step leads 16 squares on, and no other move of a pawn
/// does.
#[inline(always)]
fn passed_by(side: Color, m: Move) -> Option<Square>
    ensures { (q : Board) → side ≡ q.side → Contains (legal_moves q) m → IsTrue (is_man q.side Kind.Pawn (man_at q.men m.from)) → result ≡ target_after q m }
{
    match side {
        Color::White => midway(m.from, m.to),
        Color::Black => midway(m.to, m.from),
    }
}

/// The position after a legal move of a pawn.
#[inline(always)]
fn after_pawn(position: &Position, side: Color, m: Move) -> Position
    requires side { side ≡ position.now.side }
    requires legal { Contains (legal_moves position.now) m }
    requires man { IsTrue (is_man position.now.side Kind.Pawn (man_at position.now.men m.from)) }
    ensures { result ≡ position_after position.now m }
{
    if m.promotion.is_some() {
        after_promotion(position, m)
    } else if goes_en_passant(position, m.from, m.to) {
        after_passing(position, side, m)
    } else {
        after_one(position, side, m, Kind::Pawn, passed_by(side, m))
    }
}

/// The position after a capture en passant.
// What is called for a rare move would leave its position in memory, from where the others had to take theirs.
#[inline(always)]
fn after_passing(position: &Position, side: Color, m: Move) -> Position
    requires side { side ≡ position.now.side }
    requires legal { Contains (legal_moves position.now) m }
    requires man { IsTrue (is_man position.now.side Kind.Pawn (man_at position.now.men m.from)) }
    requires plain { m.promotion ≡ None }
    requires passing { IsTrue (is_en_passant position.now m.from m.to) }
    ensures { result ≡ position_after position.now m }
{
    // The position is valid, and so is what a legal move leaves.
    position.known();
    m.known();
    let color = side;
    let kind = Kind::Pawn;
    let captured = captured_on(color, m.to);
    let men = position
        .placement()
        .moved(m.from, m.to, Man { color, kind })
        .lifted(captured);
    let rights = rights_made(position.rights(), m);
    Position::of_parts(men, color.other(), rights, None)
}

/// The position after a legal move of a man that is neither pawn nor king.
#[inline(always)]
fn after_piece(position: &Position, side: Color, m: Move, kind: Kind) -> Position
    requires side { side ≡ position.now.side }
    requires legal { Contains (legal_moves position.now) m }
    requires man { IsTrue (is_man position.now.side kind (man_at position.now.men m.from)) }
    requires no_pawn { same_kind kind Kind.Pawn ≡ false }
    requires no_king { same_kind kind Kind.King ≡ false }
    ensures { result ≡ position_after position.now m }
{
    after_one(position, side, m, kind, None)
}

/// The position after a legal move of a king, which castles where it goes further than to the next file: on the king's
/// side where it goes up in the order of squares.
#[inline(always)]
fn after_king(position: &Position, side: Color, m: Move) -> Position
    requires side { side ≡ position.now.side }
    requires legal { Contains (legal_moves position.now) m }
    requires man { IsTrue (is_man position.now.side Kind.King (man_at position.now.men m.from)) }
    ensures { result ≡ position_after position.now m }
{
    if files_between(m.from, m.to) <= 1 {
        return after_one(position, side, m, Kind::King, None);
    }
    let wing = if m.from.index() < m.to.index() {
        Wing::Kingside
    } else {
        Wing::Queenside
    };
    after_castling(position, side, m, wing)
}

/// The position after a legal move of a king by which it castles on a wing.
// Whether it may castle is not asked again.
#[inline(always)]
fn after_castling(position: &Position, side: Color, m: Move, wing: Wing) -> Position
    requires side { side ≡ position.now.side }
    requires legal { Contains (legal_moves position.now) m }
    requires men { men_after position.now m ≡ rook_castled (moved position.now.men m.from m.to (Some (record { color = position.now.side; kind = Kind.King }))) position.now.side wing }
    requires target { None ≡ target_after position.now m }
    ensures { result ≡ position_after position.now m }
{
    // The position is valid, and so is what a legal move leaves.
    position.known();
    let color = side;
    let kind = Kind::King;
    let gone = position
        .placement()
        .moved(m.from, m.to, Man { color, kind });
    let kind = Kind::Rook;
    Position::of_parts(
        gone.moved(wing.corner(side), wing.crossing(side), Man { color, kind }),
        color.other(),
        rights_made(position.rights(), m),
        None,
    )
}

/// The position after a legal move by which one man of this kind goes from one square to another and nothing else changes.
#[inline(always)]
fn after_one(
    position: &Position,
    side: Color,
    m: Move,
    kind: Kind,
    target: Option<Square>,
) -> Position
    requires side { side ≡ position.now.side }
    requires legal { Contains (legal_moves position.now) m }
    requires men { men_after position.now m ≡ moved position.now.men m.from m.to (Some (record { color = position.now.side; kind = kind })) }
    requires target { target ≡ target_after position.now m }
    ensures { result ≡ position_after position.now m }
{
    // The position is valid, and so is what a legal move leaves.
    position.known();
    // The rights come before the men, whose sets would else have to wait for them.
    let rights = rights_made(position.rights(), m);
    let color = side;
    let men = position.placement();
    Position::of_parts(
        men.moved(m.from, m.to, Man { color, kind }),
        color.other(),
        rights,
        target,
    )
}

/// The squares to which a man of this side, which is to move, and of this kind goes quietly from its square: it goes alone onto a
/// square on which nobody stands and which is no home of a king or a rook, and it is not promoted.
#[inline(always)]
pub fn quiet_squares(position: &Position, side: Color, kind: Kind, from: Square) -> SquareSet
    requires { side ≡ position.now.side }
    ensures { result ≡ set_of (is_quiet position.now kind from) }
{
    let all = SquareSet::from_bits(u64::MAX);
    let free = all.minus(position.occupied().joined(homes()));
    match kind {
        Kind::Pawn => free
            .common(pawn_steps(position, side, from))
            .minus(promoting(side, Kind::Pawn)),
        Kind::King => free.common(aims_alone(side, Kind::King, from)),
        _ => free,
    }
}

/// The position after a legal move by which a man of this side, which is to move, and of this kind goes quietly. The rights are
/// those after it.
#[inline(always)]
pub fn after_quiet(
    position: &Position,
    side: Color,
    kind: Kind,
    rights: Rights,
    m: Move,
) -> Position
    requires side { side ≡ position.now.side }
    requires legal { Contains (legal_moves position.now) m }
    requires man { man_at position.now.men m.from ≡ Some (record { color = side; kind = kind }) }
    requires quiet { IsTrue (is_quiet position.now kind m.from m.to) }
    requires plain { m.promotion ≡ None }
    requires rights { rights ≡ rights_after position.now.rights m }
    ensures { result ≡ position_after position.now m }
{
    // The position is valid, and so is what a legal move leaves.
    position.known();
    let color = side;
    let men = position
        .placement()
        .stepped(m.from, m.to, Man { color, kind });
    let target = match kind {
        Kind::Pawn => passed_by(side, m),
        _ => None,
    };
    Position::of_parts(men, color.other(), rights, target)
}

/// The position after a legal move by which a pawn is promoted. Such moves are rare, so the men are made as after any move.
#[inline(never)]
fn after_promotion(position: &Position, m: Move) -> Position
    requires { Contains (legal_moves position.now) m }
    ensures { result ≡ position_after position.now m }
{
    position.known();
    Position::of_parts(
        men_made(position, m),
        position.side().other(),
        rights_made(position.rights(), m),
        target_made(position, m),
    )
}
