//! Ranks and colours of squares, sets of squares moved by one square, where what leaves the board is gone, and steps of kings.

ghost use Rattle.std.specs.Prelude.{◌≡◌, ◌<◌, ◌==◌};
ghost use Rattle.cha_board.specs.Men.{same_color};
ghost use Rattle.cha_board.specs.Squares.{rank_of, color_of_square};
ghost use Rattle.cha_board.specs.SquareSets.{set_of};
ghost use Rattle.cha_board.specs.Shifts.{is_above, is_below, is_right_of, is_left_of, is_ahead, is_king_step};

use crate::men::Color;
use crate::sets::SquareSet;

impl SquareSet {
    /// The squares of a rank, from 0 for the first rank to 7 for the eighth.
    pub fn of_rank(rank: u8) -> SquareSet
        requires { rank < 8 }
        ensures { result ≡ set_of (λ t. rank_of t == rank) }
    {
        SquareSet::from_bits(0xff << (rank * 8))
    }

    /// The squares of a colour, a1 among the black ones (Laws of Chess, Article 2.1).
    pub fn of_color(color: Color) -> SquareSet
        ensures { result ≡ set_of (λ t. same_color (color_of_square t) color) }
    {
        match color {
            Color::White => SquareSet::from_bits(0x55aa_55aa_55aa_55aa),
            Color::Black => SquareSet::from_bits(0xaa55_aa55_aa55_aa55),
        }
    }

    /// The set moved up the board by one rank.
    pub fn north(self) -> SquareSet
        ensures { result ≡ set_of (is_above self) }
    {
        SquareSet::from_bits(self.bits() << 8)
    }

    /// The set moved down by one rank.
    pub fn south(self) -> SquareSet
        ensures { result ≡ set_of (is_below self) }
    {
        SquareSet::from_bits(self.bits() >> 8)
    }

    /// The set moved to the right by one file.
    pub fn east(self) -> SquareSet
        ensures { result ≡ set_of (is_right_of self) }
    {
        let all_but_a = SquareSet::from_bits(0xfefe_fefe_fefe_fefe);
        SquareSet::from_bits(self.bits() << 1).common(all_but_a)
    }

    /// The set moved to the left by one file.
    pub fn west(self) -> SquareSet
        ensures { result ≡ set_of (is_left_of self) }
    {
        let all_but_h = SquareSet::from_bits(0x7f7f_7f7f_7f7f_7f7f);
        SquareSet::from_bits(self.bits() >> 1).common(all_but_h)
    }

    /// The set moved ahead by one rank, as a side sees it.
    pub fn ahead(self, side: Color) -> SquareSet
        ensures { result ≡ set_of (is_ahead side self) }
    {
        match side {
            Color::White => self.north(),
            Color::Black => self.south(),
        }
    }

    /// The squares one step of a king away from a square of the set.
    pub fn king_steps(self) -> SquareSet
        ensures { result ≡ set_of (is_king_step self) }
    {
        // The number of a set tells that it has 64 truth values.
        let _number = self.bits();
        let beside = self.east().joined(self.west());
        let row = beside.joined(self);
        beside.joined(row.north()).joined(row.south())
    }
}
