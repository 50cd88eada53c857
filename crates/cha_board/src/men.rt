//! Colours, kinds of men, and men (Laws of Chess, Articles 2.2 and 2.3).

ghost use Rattle.std.specs.Prelude.{◌≡◌};
ghost use Rattle.cha_board.specs.Men.{other_color, same_color, same_kind, is_of, is_kind, is_man};

/// The colour of a man, and the side that plays with it.
#[derive(Clone, Copy, Debug, PartialEq, Eq, PartialOrd, Ord, Hash)]
pub enum Color {
    White,
    Black,
}

impl Color {
    /// The other side.
    pub fn other(self) -> Color
        ensures { result ≡ other_color self }
    {
        match self {
            Color::White => Color::Black,
            Color::Black => Color::White,
        }
    }

    /// Whether two sides are one.
    pub fn is(self, other: Color) -> bool
        ensures { result ≡ same_color self other }
    {
        match self {
            Color::White => matches!(other, Color::White),
            Color::Black => matches!(other, Color::Black),
        }
    }
}

/// The kind of a man.
#[derive(Clone, Copy, Debug, PartialEq, Eq, PartialOrd, Ord, Hash)]
pub enum Kind {
    Pawn,
    Knight,
    Bishop,
    Rook,
    Queen,
    King,
}

impl Kind {
    /// Whether two kinds are one.
    pub fn is(self, other: Kind) -> bool
        ensures { result ≡ same_kind self other }
    {
        match self {
            Kind::Pawn => matches!(other, Kind::Pawn),
            Kind::Knight => matches!(other, Kind::Knight),
            Kind::Bishop => matches!(other, Kind::Bishop),
            Kind::Rook => matches!(other, Kind::Rook),
            Kind::Queen => matches!(other, Kind::Queen),
            Kind::King => matches!(other, Kind::King),
        }
    }
}

/// A man: a pawn or a piece of a side.
#[derive(Clone, Copy, Debug, PartialEq, Eq, PartialOrd, Ord, Hash)]
pub struct Man {
    pub color: Color,
    pub kind: Kind,
}

/// Whether what stands on a square is a man of this side.
pub(crate) fn is_of_side(found: Option<Man>, color: Color) -> bool
    ensures { result ≡ is_of color found }
{
    match found {
        None => false,
        Some(man) => man.color.is(color),
    }
}

/// Whether what stands on a square is a man of this kind.
pub(crate) fn is_of_kind(found: Option<Man>, kind: Kind) -> bool
    ensures { result ≡ is_kind kind found }
{
    match found {
        None => false,
        Some(man) => man.kind.is(kind),
    }
}

/// Whether what stands on a square is a man of this side and this kind.
pub fn is_man_of(found: Option<Man>, color: Color, kind: Kind) -> bool
    ensures { result ≡ is_man color kind found }
{
    match found {
        None => false,
        Some(man) => man.color.is(color) && man.kind.is(kind),
    }
}
