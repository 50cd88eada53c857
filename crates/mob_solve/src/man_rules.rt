//! The rules for an origin and a kind: what they ask is added.

ghost use Rattle.std.specs.Bool.{OnTrue};
ghost use Rattle.std.specs.Prelude.{◌≡◌, ◌<◌, ℕ, Bool, List, true, false, Some};
ghost use Rattle.cha_board.specs.declared.men.Kind.{Kind as ManKind};
ghost use Rattle.cha_board.specs.declared.men.Kind.TheVariants.{Pawn};
ghost use Rattle.cha_board.specs.Men.{same_kind};
ghost use Rattle.cha_moves.specs.Moves.{is_promotion};
ghost use Rattle.mob_sets.specs.Mobility.{Sets, IsWithin};
ghost use Rattle.mob_solve.specs.Reaching.{sets_in, Grew};
ghost use Rattle.mob_check.specs.Rules.{ends_on, is_freed, AreRules, ManRules};

use crate::filling::filled;
use crate::reach::Reach;
use cha_board::{Color, Kind, Man, Square, SquareSet};
use mob_check::{Ground, ends, freed};

/// Adds what the rules ask for the man of an origin, and answers whether something is new.
// A pawn comes first, so that what it becomes grows at once.
pub fn grow_man(ground: &Ground, reach: &mut Reach, origin: Square, man: Man) -> bool
    ensures change { Grew reach.old reach.new result }
    ensures rules { result ≡ false → ManRules ground.now (sets_in reach.old) origin man }
    ensures inside { (r : Sets) → ManRules ground.now r origin man → IsWithin (sets_in reach.old) r → IsWithin (sets_in reach.new) r }
{
    let begun = reach.join(origin, man.kind, SquareSet::single(origin));
    let pawn = grow_row(ground, reach, origin, man.color, Kind::Pawn);
    let pieces = grow_pieces(ground, reach, origin, man.color);
    begun || pawn || pieces
}

/// Adds what the rules ask for the man of an origin as all kinds but a pawn, and answers whether something is new.
fn grow_pieces(ground: &Ground, reach: &mut Reach, origin: Square, side: Color) -> bool
    ensures change { Grew reach.old reach.new result }
    ensures rules { result ≡ false → (k : ManKind) → same_kind k Pawn ≡ false → AreRules ground.now (sets_in reach.old) origin side k }
    ensures inside { (r : Sets) → ((k : ManKind) → AreRules ground.now r origin side k) → IsWithin (sets_in reach.old) r → IsWithin (sets_in reach.new) r }
{
    let knight = grow_row(ground, reach, origin, side, Kind::Knight);
    let bishop = grow_row(ground, reach, origin, side, Kind::Bishop);
    let rook = grow_row(ground, reach, origin, side, Kind::Rook);
    let queen = grow_row(ground, reach, origin, side, Kind::Queen);
    let king = grow_row(ground, reach, origin, side, Kind::King);
    knight || bishop || rook || queen || king
}

/// Adds what the rules ask for the man of an origin as a kind, and answers whether something is new.
// Most men are on no square as most kinds.
fn grow_row(ground: &Ground, reach: &mut Reach, origin: Square, side: Color, kind: Kind) -> bool
    ensures change { Grew reach.old reach.new result }
    ensures rules { result ≡ false → AreRules ground.now (sets_in reach.old) origin side kind }
    ensures inside { (r : Sets) → AreRules ground.now r origin side kind → IsWithin (sets_in reach.old) r → IsWithin (sets_in reach.new) r }
{
    if reach.row(origin, kind).is_empty() {
        return false;
    }
    grow_filled(ground, reach, origin, side, kind)
}

/// The same, where the man is on some square as the kind.
fn grow_filled(ground: &Ground, reach: &mut Reach, origin: Square, side: Color, kind: Kind) -> bool
    ensures change { Grew reach.old reach.new result }
    ensures rules { result ≡ false → AreRules ground.now (sets_in reach.old) origin side kind }
    ensures inside { (r : Sets) → AreRules ground.now r origin side kind → IsWithin (sets_in reach.old) r → IsWithin (sets_in reach.new) r }
{
    let row = filled(ground, side, kind, reach.row(origin, kind));
    let come = reach.join(origin, kind, row);
    let promoted = promote(ground, reach, origin, side, kind, row);
    let loosened = free(ground, reach, origin, side, kind, row);
    come || promoted || loosened
}

/// Whether the man of a loose origin as a kind can free no more: it is no pawn, and no man of the other side is fixed.
fn frees_none(ground: &Ground, reach: &Reach, origin: Square, side: Color, kind: Kind) -> bool
    ensures { OnTrue result ((row : List Bool) (x : ℕ) → x < 64 → is_freed ground.now origin side kind row x ≡ true → (sets_in reach.now).loose x ≡ true) }
{
    if kind.is(Kind::Pawn) {
        return false;
    }
    if !reach.loose.has(origin) {
        return false;
    }
    let others = ground.side(side.other()).men;
    ground.fixed.common(others).is_empty()
}

/// Makes loose what the man of an origin frees from the squares of a row as a kind, and answers whether something is new.
// Once men are loose, most free no more.
fn free(
    ground: &Ground,
    reach: &mut Reach,
    origin: Square,
    side: Color,
    kind: Kind,
    row: SquareSet,
) -> bool
    ensures change { Grew reach.old reach.new result }
    ensures rules { result ≡ false → (x : ℕ) → x < 64 → is_freed ground.now origin side kind row x ≡ true → (sets_in reach.old).loose x ≡ true }
    ensures inside { (r : Sets) → ((x : ℕ) → x < 64 → is_freed ground.now origin side kind row x ≡ true → r.loose x ≡ true) → IsWithin (sets_in reach.old) r → IsWithin (sets_in reach.new) r }
{
    if frees_none(ground, reach, origin, side, kind) {
        return false;
    }
    reach.loosen(freed(ground, origin, side, kind, row))
}

/// Adds what the man of an origin becomes on the last rank as a pawn, and answers whether something is new.
fn promote(
    ground: &Ground,
    reach: &mut Reach,
    origin: Square,
    side: Color,
    kind: Kind,
    row: SquareSet,
) -> bool
    ensures change { Grew reach.old reach.new result }
    ensures rules { result ≡ false → (j : ManKind) → is_promotion (Some j) ≡ true → (t : ℕ) → t < 64 → ends_on ground.now side kind row t ≡ true → (sets_in reach.old).has origin j t ≡ true }
    ensures inside { (r : Sets) → ((j : ManKind) → is_promotion (Some j) ≡ true → (t : ℕ) → t < 64 → ends_on ground.now side kind row t ≡ true → r.has origin j t ≡ true) → IsWithin (sets_in reach.old) r → IsWithin (sets_in reach.new) r }
{
    if !kind.is(Kind::Pawn) {
        return false;
    }
    let last = ends(ground, side, kind, row);
    let queen = reach.join(origin, Kind::Queen, last);
    let rook = reach.join(origin, Kind::Rook, last);
    let bishop = reach.join(origin, Kind::Bishop, last);
    let knight = reach.join(origin, Kind::Knight, last);
    queen || rook || bishop || knight
}
