//! How a report is printed.

ghost use Rattle.std.specs.Prelude.{◌≡◌};
ghost use Rattle.report_style.specs.Asked.{style_asked};

/// How moves are written.
#[derive(Clone, Copy, Debug, PartialEq, Eq)]
pub enum Notation {
    /// By the squares that they leave and enter, as `g4f2`.
    Coordinates,
    /// As words (PGN standard, 8.2.3), as `Nf2#`.
    San,
}

/// How blocks are printed.
#[derive(Clone, Copy, Debug, PartialEq, Eq)]
pub struct BlockForm {
    /// Whether the certificates of sides that cannot mate are printed.
    pub certs: bool,
    /// How moves are written.
    pub notation: Notation,
}

/// What the verdicts in a report in JSON have on demand. Moves are in both notations.
#[derive(Clone, Copy, Debug, PartialEq, Eq)]
pub struct Extras {
    /// Whether the certificate of a side that cannot mate is printed.
    pub certs: bool,
    /// Whether the position after each move of a line that mates is printed.
    pub fens: bool,
}

/// How a report is printed.
#[derive(Clone, Copy, Debug, PartialEq, Eq)]
pub enum Style {
    /// A block of lines for each outcome, and a last line.
    Blocks(BlockForm),
    /// A line in JSON for each outcome, and a last line in JSON.
    Json(Extras),
    /// The last line of the blocks alone.
    SummaryAlone,
}

/// What the options ask of a report.
#[derive(Clone, Copy, Debug, PartialEq, Eq)]
pub struct Asked {
    /// The certificates of sides that cannot mate.
    pub certs: bool,
    /// JSON.
    pub json: bool,
    /// Moves as words.
    pub san: bool,
    /// The position after each move of a line that mates.
    pub fens: bool,
}

impl Style {
    /// The style that is asked for. What does not bear on it has no effect.
    pub fn of(asked: Asked) -> Style
        ensures { result ≡ style_asked asked }
    {
        let certs = asked.certs;
        if asked.json {
            return Style::Json(Extras {
                certs,
                fens: asked.fens,
            });
        }
        let notation = if asked.san {
            Notation::San
        } else {
            Notation::Coordinates
        };
        Style::Blocks(BlockForm { certs, notation })
    }
}
