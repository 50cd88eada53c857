//! What men of a side attack, seen from the square outwards (Laws of Chess, Articles 3.1 and 3.9.1).

ghost use Rattle.std.specs.Prelude.{◌≡◌, IsTrue};
ghost use Rattle.cha_board.specs.Board.{attacked, has_one_king};
ghost use Rattle.cha_board.specs.Board.{in_check as in_check_among};
ghost use Rattle.cha_board.specs.Aims.{struck_by, struck_somehow};

use crate::aiming::{aims, aims_alone};
use crate::men::{Color, Kind};
use crate::placement::Men;
use crate::squares::Square;

impl Men {
    /// Whether some man of a side and a kind attacks a square.
    ///
    /// They are the men at which one like them, but of the other side, aims from that square.
    fn strikes(&self, by: Color, kind: Kind, at: Square) -> bool
        ensures { result ≡ struck_by self.now by kind at }
    {
        let men = self.of_kind(by, kind);
        !aims_alone(by.other(), kind, at).common(men).is_empty()
            && !aims(by.other(), kind, at, self.occupied())
                .common(men)
                .is_empty()
    }

    /// Whether men of a side of some kind attack a square.
    #[tactic(auto, unfolding(crate::specs::Aims::struck_somehow))]
    fn strikes_somehow(&self, by: Color, at: Square) -> bool
        ensures { result ≡ struck_somehow self.now by at }
    {
        self.strikes(by, Kind::Pawn, at)
            || self.strikes(by, Kind::Knight, at)
            || self.strikes(by, Kind::King, at)
            || self.strikes(by, Kind::Bishop, at)
            || self.strikes(by, Kind::Rook, at)
            || self.strikes(by, Kind::Queen, at)
    }

    /// Whether a side attacks a square.
    pub fn attacks(&self, by: Color, at: Square) -> bool
        ensures { result ≡ attacked self.now by at }
    {
        self.strikes_somehow(by, at)
    }

    /// Whether the king of a side that has one is attacked.
    #[tactic(auto, unfolding(crate::specs::Board::in_check))]
    pub fn in_check(&self, of: Color) -> bool
        requires { IsTrue (has_one_king self.now of) }
        ensures { result ≡ in_check_among self.now of }
    {
        self.attacks(of.other(), self.king(of))
    }
}
