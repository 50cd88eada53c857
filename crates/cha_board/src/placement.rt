//! What stands on the squares of the board.

ghost use Rattle.std.specs.Prelude.{◌≡◌, false, not, List, Option, Some, None, replicate, IsTrue, slice_set};
ghost use Rattle.cha_board.specs.declared.men.Man.{Man as AMan};
ghost use Rattle.cha_board.specs.Men.{is_of, is_kind, is_man, is_non_king};
ghost use Rattle.cha_board.specs.Board.{man_at, is_empty, king_of, has_one_king};
ghost use Rattle.cha_board.specs.SquareSets.{set_of, has_square, set_placed};
ghost use Rattle.cha_board.specs.MenSets.{set_changed};
ghost use Rattle.cha_board.specs.Packing.{AreShown};

use crate::men::{Color, Kind, Man, is_of_kind, is_of_side};
use crate::sets::SquareSet;
use crate::squares::Square;
use std::marker::Model;

/// What stands on each of the 64 squares, seen by contracts as a list, from a1 to h8.
///
/// It is kept as the squares of the men of each colour and of the men of each kind.
#[derive(Clone, Copy, Debug, PartialEq, Eq)]
pub struct Men {
    white: SquareSet,
    black: SquareSet,
    pawns: SquareSet,
    knights: SquareSet,
    bishops: SquareSet,
    rooks: SquareSet,
    queens: SquareSet,
    kings: SquareSet,
}

impl Model for Men {
    ghost use Rattle.std.specs.Prelude.{List, Option};
    ghost use Rattle.cha_board.specs.declared.men.Man.{Man};
    ghost use Rattle.cha_board.specs.MenSets.{men_in, sets_of, AreTidy};

    ghost Value = { List (Option Man) };

    ghost view = { men_in };

    ghost invariant = { AreTidy };

    ghost inverse = { sets_of };

    ghost inverse_ok = { λ a h. h.same };
}

impl Men {
    /// No man on any square.
    pub fn nothing() -> Men
        ensures { result ≡ replicate 64 None }
    {
        Men {
            white: SquareSet::empty(),
            black: SquareSet::empty(),
            pawns: SquareSet::empty(),
            knights: SquareSet::empty(),
            bishops: SquareSet::empty(),
            rooks: SquareSet::empty(),
            queens: SquareSet::empty(),
            kings: SquareSet::empty(),
        }
    }

    /// The men that four sets show: the squares of Black's men, and those where the first, the second and the third bit of the
    /// number of a man's kind is 1, as in `Packed`.
    pub(crate) fn of_four(
        black: SquareSet,
        first: SquareSet,
        second: SquareSet,
        third: SquareSet,
    ) -> Men
        requires shown { (men : List (Option AMan)) × AreShown black first second third men }
        ensures { (men : List (Option AMan)) → AreShown black first second third men → result ≡ men }
    {
        Men {
            white: first.joined(second).joined(third).minus(black),
            black,
            pawns: first.minus(second.joined(third)),
            knights: second.minus(first.joined(third)),
            bishops: first.common(second),
            rooks: third.minus(first.joined(second)),
            queens: first.common(third),
            kings: second.common(third),
        }
    }

    /// What stands on each square, from a1 to h8.
    pub fn list(&self) -> [Option<Man>; 64]
        ensures { result ≡ self.now }
    {
        let _men = &self.kings;
        let mut list = [None; 64];
        for index in 0..64 {
            list[usize::from(index)] = self.man(Square::at(index));
        }
        list
    }

    /// What stands on a square.
    pub fn man(&self, at: Square) -> Option<Man>
        ensures { result ≡ man_at self.now at }
    {
        // Most squares are asked for the men on them, so the kinds are asked one after the other.
        if self.white.has(at) {
            Some(Man {
                color: Color::White,
                kind: self.kind_at(at),
            })
        } else if self.black.has(at) {
            Some(Man {
                color: Color::Black,
                kind: self.kind_at(at),
            })
        } else {
            None
        }
    }

    /// The men once this stands on a square, in place of what stood there.
    // To copy the sets costs more than to change them.
    #[inline(always)]
    pub fn put(self, at: Square, found: Option<Man>) -> Men
        ensures { result ≡ slice_set self at found }
    {
        Men {
            white: self.white.placed(at, is_of_side(found, Color::White)),
            black: self.black.placed(at, is_of_side(found, Color::Black)),
            pawns: self.pawns.placed(at, is_of_kind(found, Kind::Pawn)),
            knights: self.knights.placed(at, is_of_kind(found, Kind::Knight)),
            bishops: self.bishops.placed(at, is_of_kind(found, Kind::Bishop)),
            rooks: self.rooks.placed(at, is_of_kind(found, Kind::Rook)),
            queens: self.queens.placed(at, is_of_kind(found, Kind::Queen)),
            kings: self.kings.placed(at, is_of_kind(found, Kind::King)),
        }
    }

    /// The men once nothing stands on a square.
    // To copy the sets costs more than to change them.
    #[inline(always)]
    pub fn lifted(&self, at: Square) -> Men
        ensures { result ≡ slice_set self.now at None }
    {
        Men {
            white: self.white.without(at),
            black: self.black.without(at),
            pawns: self.pawns.without(at),
            knights: self.knights.without(at),
            bishops: self.bishops.without(at),
            rooks: self.rooks.without(at),
            queens: self.queens.without(at),
            kings: self.kings.without(at),
        }
    }

    /// The men once nothing stands on one square, and this man on another, in place of what stood there.
    pub fn moved(&self, from: Square, to: Square, man: Man) -> Men
        ensures { result ≡ slice_set (slice_set self.now from None) to (Some man) }
    {
        let gone = SquareSet::single(from).with(to);
        let onto = SquareSet::single(to);
        Men {
            white: changed(self.white, gone, onto, man.color.is(Color::White)),
            black: changed(self.black, gone, onto, man.color.is(Color::Black)),
            pawns: changed(self.pawns, gone, onto, man.kind.is(Kind::Pawn)),
            knights: changed(self.knights, gone, onto, man.kind.is(Kind::Knight)),
            bishops: changed(self.bishops, gone, onto, man.kind.is(Kind::Bishop)),
            rooks: changed(self.rooks, gone, onto, man.kind.is(Kind::Rook)),
            queens: changed(self.queens, gone, onto, man.kind.is(Kind::Queen)),
            kings: changed(self.kings, gone, onto, man.kind.is(Kind::King)),
        }
    }

    /// The men once this man has gone from its square to another on which nobody stands: the sets of the others stay.
    #[inline(always)]
    pub fn stepped(&self, from: Square, to: Square, man: Man) -> Men
        requires found { man_at self.now from ≡ Some man }
        requires free { IsTrue (is_empty self.now to) }
        ensures { result ≡ slice_set (slice_set self.now from None) to (Some man) }
    {
        Men {
            white: gone_on(self.white, from, to, man.color.is(Color::White)),
            black: gone_on(self.black, from, to, man.color.is(Color::Black)),
            pawns: gone_on(self.pawns, from, to, man.kind.is(Kind::Pawn)),
            knights: gone_on(self.knights, from, to, man.kind.is(Kind::Knight)),
            bishops: gone_on(self.bishops, from, to, man.kind.is(Kind::Bishop)),
            rooks: gone_on(self.rooks, from, to, man.kind.is(Kind::Rook)),
            queens: gone_on(self.queens, from, to, man.kind.is(Kind::Queen)),
            kings: gone_on(self.kings, from, to, man.kind.is(Kind::King)),
        }
    }

    /// The kind of the man on a square on which one stands.
    pub fn kind_at(&self, at: Square) -> Kind
        ensures { (man : Man) → man_at self.now at ≡ Some man → result ≡ man.kind }
    {
        if self.all_of_kind(Kind::Pawn).has(at) {
            Kind::Pawn
        } else if self.all_of_kind(Kind::Knight).has(at) {
            Kind::Knight
        } else if self.all_of_kind(Kind::Bishop).has(at) {
            Kind::Bishop
        } else if self.all_of_kind(Kind::Rook).has(at) {
            Kind::Rook
        } else if self.all_of_kind(Kind::Queen).has(at) {
            Kind::Queen
        } else {
            Kind::King
        }
    }

    /// The squares on which men of this side stand.
    pub fn of_side(&self, color: Color) -> SquareSet
        ensures { result ≡ set_of (λ s. is_of color (man_at self.now s)) }
    {
        match color {
            Color::White => self.white,
            Color::Black => self.black,
        }
    }

    /// The squares on which men of this kind stand, of either side.
    pub fn all_of_kind(&self, kind: Kind) -> SquareSet
        ensures { result ≡ set_of (λ s. is_kind kind (man_at self.now s)) }
    {
        match kind {
            Kind::Pawn => self.pawns,
            Kind::Knight => self.knights,
            Kind::Bishop => self.bishops,
            Kind::Rook => self.rooks,
            Kind::Queen => self.queens,
            Kind::King => self.kings,
        }
    }

    /// The squares on which men of this side and this kind stand.
    pub fn of_kind(&self, color: Color, kind: Kind) -> SquareSet
        ensures { result ≡ set_of (λ s. is_man color kind (man_at self.now s)) }
    {
        self.of_side(color).common(self.all_of_kind(kind))
    }

    /// The squares on which men of this side other than kings stand.
    pub fn non_kings(&self, color: Color) -> SquareSet
        ensures { result ≡ set_of (λ s. is_non_king color (man_at self.now s)) }
    {
        self.of_side(color).minus(self.all_of_kind(Kind::King))
    }

    /// The squares on which a man stands.
    pub fn occupied(&self) -> SquareSet
        ensures { result ≡ set_of (λ s. not (is_empty self.now s)) }
    {
        self.of_side(Color::White)
            .joined(self.of_side(Color::Black))
    }

    /// Whether a side has exactly one king.
    #[tactic(auto, unfolding(crate::specs::Board::has_one_king))]
    pub(crate) fn one_king(&self, of: Color) -> bool
        ensures { result ≡ has_one_king self.now of }
    {
        let _men = &self.kings;
        self.of_kind(of, Kind::King).len() == 1
    }

    /// Where the king of a side stands that has one.
    pub fn king(&self, of: Color) -> Square
        requires { IsTrue (has_one_king self.now of) }
        ensures { result ≡ king_of self.now of }
    {
        let _men = &self.kings;
        match self.of_kind(of, Kind::King).first() {
            Some(at) => at,
            None => unreachable!(),
        }
    }
}

/// A set without the squares that are gone, and perhaps with others.
fn changed(set: SquareSet, gone: SquareSet, onto: SquareSet, inside: bool) -> SquareSet
    ensures { result ≡ set_changed set gone onto inside }
{
    let left = set.minus(gone);
    if inside { left.joined(onto) } else { left }
}

/// A set in which one square gives way to another, where that is so. Where it is not, neither is in the set.
fn gone_on(set: SquareSet, from: Square, to: Square, so: bool) -> SquareSet
    ensures { (so ≡ false → has_square set from ≡ false) → (so ≡ false → has_square set to ≡ false) → result ≡ set_placed (set_placed set from false) to so }
{
    let _bits = set.bits();
    if so { set.without(from).with(to) } else { set }
}
