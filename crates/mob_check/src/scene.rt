//! What a search for a mate looks at, once for all squares of the two kings.

ghost use Rattle.std.specs.Prelude.{◌≡◌};
ghost use Rattle.cha_board.specs.SquareSets.{set_of};
ghost use Rattle.mob_law.specs.Reach.{is_fixed};
ghost use Rattle.mob_sets.specs.Rows.{sets_of};
ghost use Rattle.mob_check.specs.Grounds.{has_own};
ghost use Rattle.mob_check.specs.Scenes.{squares_as, all_in_reach, reach_nowhere, reach_with, reach_by_kind, has_at_most_one, scene_of};

use crate::groups::{Group, is_own, squares_of};
use cha_board::{Color, Kind, Position, SquareSet};
use mob_sets::{SetRow, Sets};

/// A set of squares for each kind of man: where men of a side other than its king are in reach, by what they may be there.
#[derive(Debug, Drop)]
pub struct ByKind {
    pub pawns: SquareSet,
    pub knights: SquareSet,
    pub bishops: SquareSet,
    pub rooks: SquareSet,
    pub queens: SquareSet,
    pub kings: SquareSet,
}

/// What mobility sets say of a side that might mate, and of its opponent.
#[derive(Debug, Drop)]
pub struct Scene {
    /// The squares with a fixed man.
    pub fixed: SquareSet,
    /// The side that might mate.
    pub winner: Color,
    /// Whether the winner has at most one man beside its king.
    pub one_man: bool,
    /// Where the winner's other men are in reach.
    pub men: ByKind,
    /// Where the winner's king is in reach.
    pub winner_king: SquareSet,
    /// Where the loser's king is in reach.
    pub loser_king: SquareSet,
    /// Where the loser's other men are in reach.
    pub loser_men: SquareSet,
    /// Where they are, by what they may be there.
    pub losers: ByKind,
}

impl ByKind {
    /// No man is in reach anywhere.
    fn nowhere() -> ByKind
        ensures { result ≡ reach_nowhere }
    {
        let none = SquareSet::empty();
        ByKind {
            pawns: none,
            knights: none,
            bishops: none,
            rooks: none,
            queens: none,
            kings: none,
        }
    }

    /// Adds squares on which a man is in reach as a kind.
    fn join(&mut self, kind: Kind, squares: SquareSet)
        ensures { self.new ≡ reach_with self.old kind squares }
    {
        match kind {
            Kind::Pawn => self.pawns = self.pawns.joined(squares),
            Kind::Knight => self.knights = self.knights.joined(squares),
            Kind::Bishop => self.bishops = self.bishops.joined(squares),
            Kind::Rook => self.rooks = self.rooks.joined(squares),
            Kind::Queen => self.queens = self.queens.joined(squares),
            Kind::King => self.kings = self.kings.joined(squares),
        }
    }
}

/// The squares on which men are in reach as a kind.
pub fn reach_as(reach: &ByKind, kind: Kind) -> SquareSet
    ensures { result ≡ squares_as reach.now kind }
{
    match kind {
        Kind::Pawn => reach.pawns,
        Kind::Knight => reach.knights,
        Kind::Bishop => reach.bishops,
        Kind::Rook => reach.rooks,
        Kind::Queen => reach.queens,
        Kind::King => reach.kings,
    }
}

/// The squares on which some man is in reach, whatever it may be there.
#[tactic(auto, unfolding(crate::specs::Scenes::all_in_reach))]
pub fn somewhere(reach: &ByKind) -> SquareSet
    ensures { result ≡ all_in_reach reach.now }
{
    reach
        .pawns
        .joined(reach.knights)
        .joined(reach.bishops)
        .joined(reach.rooks)
        .joined(reach.queens)
        .joined(reach.kings)
}

impl Scene {
    /// What mobility sets of a position say of a winner.
    #[tactic(auto, unfolding(crate::specs::Scenes::scene_of))]
    pub fn of(position: &Position, sets: &Sets, winner: Color) -> Scene
        ensures { result ≡ scene_of position.now sets.now winner }
    {
        let rows = sets.rows();
        let loser = winner.other();
        Scene {
            fixed: fixed_squares(position, sets),
            winner,
            one_man: one_man(position, winner),
            men: reach_kinds(position, rows, winner),
            winner_king: squares_of(position, rows, Group::KingOf(winner)),
            loser_king: squares_of(position, rows, Group::KingOf(loser)),
            loser_men: squares_of(position, rows, Group::MenOf(loser)),
            losers: reach_kinds(position, rows, loser),
        }
    }
}

/// The squares with a fixed man.
fn fixed_squares(position: &Position, sets: &Sets) -> SquareSet
    ensures { result ≡ set_of (is_fixed position.now (sets_of sets.now)) }
{
    position.occupied().minus(sets.loose())
}

/// Whether a side has at most one man beside its king.
#[tactic(auto, unfolding(crate::specs::Scenes::has_at_most_one, crate::specs::Grounds::has_own))]
fn one_man(position: &Position, side: Color) -> bool
    ensures { result ≡ has_at_most_one (set_of (has_own position.now side)) }
{
    position.non_kings(side).len() < 2
}

/// Where the men of a side other than its king are in reach.
fn reach_kinds(position: &Position, rows: &[SetRow], side: Color) -> ByKind
    ensures { result ≡ reach_by_kind position.now rows.now side }
{
    let mut reach = ByKind::nowhere();
    for row in rows {
        if is_own(position, side, *row) {
            reach.join(row.kind, row.squares);
        }
    }
    reach
}
