//! The kinds of men with which a side cannot mate.

ghost use Rattle.std.specs.Prelude.{◌≡◌, ◌≢◌, ◌↔◌, Some, IsTrue};
ghost use Rattle.cha_board.specs.declared.men.Kind.TheVariants.{Pawn, King};
ghost use Rattle.mob_small.specs.Small.{IsMateFree};
ghost use Rattle.mob_small.specs.MateFreeKinds.{is_free};

use cha_board::{Color, Kind};

/// Whether there is no mate for a winner by a king and one man of the kind `own` against a king and, or not, one man of the
/// kind `other`, with the loser to move and nobody to castle: no placement of these men is a mate (Laws of Chess, Article
/// 5.1.1). It takes no memory.
///
/// A knight or a bishop never mates a king alone. A knight does not mate beside a queen either, which captures it, nor a
/// bishop beside a queen or a rook, which captures it or steps in between. With each other two kinds there is a mate.
pub fn mate_free(winner: Color, own: Kind, other: Option<Kind>) -> bool
    requires own_no_pawn { own ≢ Pawn }
    requires own_no_king { own ≢ King }
    requires other_no_pawn { other ≢ Some Pawn }
    requires other_no_king { other ≢ Some King }
    ensures { IsTrue result ↔ IsMateFree winner own other }
{
    never_mates(own, other)
}

/// Whether two kinds are in the table of those that do not mate.
#[tactic(auto, unfolding(crate::specs::MateFreeKinds::is_free))]
fn never_mates(own: Kind, other: Option<Kind>) -> bool
    ensures { result ≡ is_free own other }
{
    match own {
        Kind::Knight => match other {
            None => true,
            Some(kind) => kind.is(Kind::Queen),
        },
        Kind::Bishop => match other {
            None => true,
            Some(kind) => kind.is(Kind::Queen) || kind.is(Kind::Rook),
        },
        Kind::Pawn => false,
        Kind::Rook => false,
        Kind::Queen => false,
        Kind::King => false,
    }
}
