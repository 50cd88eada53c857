//! What can be ordered.

ghost use Rattle.std.specs.Prelude.{◌≡◌};
ghost use Rattle.cha_words.specs.Language.{bounds, limits_in, made as made_by, style as style_by};
ghost use Rattle.cha_words.specs.Reading.{AreIn, IsSaid, IsSearch};

use crate::chosen::Numbers;
use crate::given::Said;
use crate::table::Command;
use cha_board::Color;
use cha_limits::Limits;
use report_style::{Asked, Style};

/// What the words order.
#[derive(Clone, Copy, Debug, PartialEq, Eq)]
pub enum Order {
    /// `adjudicate`: judge each game of the input, which is in PGN.
    AdjudicateGames {
        /// What a search may spend on a side.
        limits: Limits,
        /// Whether drawn games whose flag fell are examined.
        flagged_draws: bool,
        /// How the report is printed.
        style: Style,
    },
    /// `correct`: write the input, which is in PGN, with the right results.
    CorrectGames {
        /// What a search may spend on a side.
        limits: Limits,
        /// Whether drawn games whose flag fell are examined.
        flagged_draws: bool,
        /// Whether only the games whose result changes are written.
        changed: bool,
    },
    /// `position`: judge each line of the input as a position in FEN.
    JudgePositions {
        /// What a search may spend on a side.
        limits: Limits,
        /// How the report is printed.
        style: Style,
    },
    /// `check`: check the certificate whose text the input is.
    CheckCert,
    /// `gen`: generate random games and judge them.
    GenGames {
        /// What a search may spend on a side.
        limits: Limits,
        /// The seed of the random numbers by which moves are chosen.
        seed: u64,
        /// How many games are made, from 1 to 1,000.
        count: u32,
    },
    /// `mates`: list the shortest mates of each line of the input, which is a position in FEN.
    ListMates {
        /// The side that mates.
        side: Color,
        /// How many workers share the root moves, from 1 to 16.
        workers: u32,
        /// Within how many plies mates are looked for, from 1 to 6.
        depth: u8,
        /// How the report is printed.
        style: Style,
    },
    /// `replay`: list the moves of each game of the input, which is in PGN.
    ReplayGames {
        /// How they are printed.
        style: Style,
    },
}

impl Order {
    /// What a search for verdicts may spend on a side, of an order that needs one.
    pub fn limits(&self) -> Option<Limits>
        ensures { result ≡ limits_in self.now }
    {
        match self {
            Order::AdjudicateGames { limits, .. }
            | Order::CorrectGames { limits, .. }
            | Order::JudgePositions { limits, .. }
            | Order::GenGames { limits, .. } => Some(*limits),
            _ => None,
        }
    }
}

/// What a command orders, by the numbers of its options and what its further words say, or None where these are not complete.
pub fn made(command: Command, numbers: Numbers, said: Said) -> Option<Order>
    requires ranges { AreIn command numbers }
    requires said { IsSaid command said }
    ensures { result ≡ made_by command numbers said }
{
    let flagged_draws = numbers.flagged_draws == 1;
    let style = style(numbers);
    match (command, said) {
        (Command::Adjudicate, Said::Nothing) => Some(Order::AdjudicateGames {
            limits: limits(command, numbers),
            flagged_draws,
            style,
        }),
        (Command::Correct, Said::Nothing) => Some(Order::CorrectGames {
            limits: limits(command, numbers),
            flagged_draws,
            changed: numbers.changed == 1,
        }),
        (Command::Position, Said::Nothing) => Some(Order::JudgePositions {
            limits: limits(command, numbers),
            style,
        }),
        (Command::Check, Said::Nothing) => Some(Order::CheckCert),
        (Command::Gen, Said::Games(seed, count)) => Some(Order::GenGames {
            limits: limits(command, numbers),
            seed,
            count: count as u32,
        }),
        (Command::Mates, Said::Sided(side)) => Some(Order::ListMates {
            side,
            workers: numbers.workers as u32,
            depth: numbers.depth as u8,
            style,
        }),
        (Command::Replay, Said::Nothing) => Some(Order::ReplayGames { style }),
        _ => None,
    }
}

/// How the report is printed.
fn style(numbers: Numbers) -> Style
    ensures { result ≡ style_by numbers }
{
    Style::of(Asked {
        certs: numbers.certs == 1,
        json: numbers.json == 1,
        san: numbers.san == 1,
        fens: numbers.fens == 1,
    })
}

/// What a search of verdicts may spend.
fn limits(command: Command, numbers: Numbers) -> Limits
    requires ranges { AreIn command numbers }
    requires search { IsSearch command }
    ensures { result ≡ bounds numbers }
{
    Limits::new(
        numbers.budget as u32,
        numbers.depth as u8,
        numbers.workers as u32,
        numbers.entries as u32,
    )
}
