//! The result that the Laws of Chess give a game.

ghost use Rattle.std.specs.Prelude.{◌≡◌, Option, false};
ghost use Rattle.cha_moves.specs.Standings.{standing_of};
ghost use Rattle.pgn_games.specs.Wins.{win_of};
ghost use Rattle.cha_outcome.specs.declared.questions.FlaggedDraws.{FlaggedDraws as DrawRule};
ghost use Rattle.cha_outcome.specs.Rulings.{winner_ruling_of, flag_ruling_of, drawn_ruling_of, running_ruling_of, ruling_of, claimant_by, claim_of as claim_by, fallen_flag as flag_of, first_by, is_changed, with_recorded, was_dead as was_dead_before, judgment_of as judgment_from};
ghost use Rattle.cha_outcome.specs.declared.items.PlayedGame.{PlayedGame as Played};
ghost use Rattle.cha_outcome.specs.declared.questions.FlaggedDraws.TheVariants.{Stand};
ghost use Rattle.cha_verdict.specs.declared.decisions.Decision.{Decision as DecisionOf};
ghost use Rattle.cha_verdict.specs.declared.scans.Scan.{Scan as ScanOf};

use crate::items::PlayedGame;
use crate::questions::FlaggedDraws;
use cha_board::Color;
use cha_moves::Standing;
use cha_verdict::{Decision, Scan, Verdict, are_dead, is_undecided, is_unwinnable, is_winnable};
use pgn_games::ResultMark;

/// Why a game has its result.
#[derive(Clone, Copy, Debug, PartialEq, Eq)]
pub enum Cause {
    /// A side is checkmated (Laws of Chess, Article 5.1.1).
    Mate511,
    /// A side is stalemated (Laws of Chess, Article 5.2.1).
    Stalemate521,
    /// Neither side can mate (Laws of Chess, Article 5.2.2).
    Dead522,
    /// A flag fell, and the other player cannot mate (Laws of Chess, Article 6.9).
    Flag69,
    /// A draw was recorded, the flag of the player to move fell, and the other can mate (Laws of Chess, Article 6.9).
    FlagOfMover69,
    /// Nothing speaks against the recorded result.
    Recorded,
    /// The result is as recorded, and whether its winner can mate was not shown.
    RecordedUndecided,
}

/// The result of a game, and why it is so.
#[derive(Clone, Copy, Debug, PartialEq, Eq)]
pub struct Judgment {
    /// The result.
    pub mark: ResultMark,
    /// Why the game has it.
    pub cause: Cause,
}

/// What the text of a game says of its end.
#[derive(Clone, Copy, Debug, PartialEq, Eq)]
pub struct Claim {
    /// The recorded result.
    pub recorded: ResultMark,
    /// Whether the game was lost on time.
    pub forfeit: bool,
    /// Who wins though a draw is recorded, if that player can mate: a flag fell, and it was not that player's.
    pub claimant: Option<Color>,
}

/// A draw, since neither side can mate.
const DEAD: Judgment = Judgment {
    mark: ResultMark::Draw,
    cause: Cause::Dead522,
};

/// The result in which a side wins.
fn win(winner: Color) -> ResultMark
    ensures { result ≡ win_of winner }
{
    match winner {
        Color::White => ResultMark::WhiteWins,
        Color::Black => ResultMark::BlackWins,
    }
}

/// The result of a game that the board does not end, whose recorded winner has this verdict.
#[tactic(auto, unfolding(crate::specs::Rulings::winner_ruling_of))]
fn winner_ruling(recorded: ResultMark, forfeit: bool, winner: &Verdict) -> Judgment
    ensures { result ≡ winner_ruling_of recorded forfeit winner.now }
{
    if forfeit && is_unwinnable(winner) {
        return Judgment {
            mark: ResultMark::Draw,
            cause: Cause::Flag69,
        };
    }
    let cause = if is_undecided(winner) {
        Cause::RecordedUndecided
    } else {
        Cause::Recorded
    };
    Judgment {
        mark: recorded,
        cause,
    }
}

/// The result of a drawn game whose flag fell, by the verdict on the player whose flag it was not.
#[tactic(auto, unfolding(crate::specs::Rulings::flag_ruling_of))]
fn flag_ruling(claimant: Color, verdict: &Verdict) -> Judgment
    ensures { result ≡ flag_ruling_of claimant verdict.now }
{
    if is_winnable(verdict) {
        return Judgment {
            mark: win(claimant),
            cause: Cause::FlagOfMover69,
        };
    }
    let cause = if is_unwinnable(verdict) {
        Cause::Flag69
    } else {
        Cause::RecordedUndecided
    };
    Judgment {
        mark: ResultMark::Draw,
        cause,
    }
}

/// The result of a game that is recorded as drawn and that the board does not end.
fn drawn_ruling(claimant: Option<Color>, white: &Verdict, black: &Verdict) -> Judgment
    ensures { result ≡ drawn_ruling_of claimant white.now black.now }
{
    match claimant {
        Some(Color::White) => flag_ruling(Color::White, white),
        Some(Color::Black) => flag_ruling(Color::Black, black),
        None => Judgment {
            mark: ResultMark::Draw,
            cause: Cause::Recorded,
        },
    }
}

/// The result of a game that the board does not end.
#[tactic(auto, unfolding(crate::specs::Rulings::running_ruling_of))]
fn running_ruling(claim: Claim, white: &Verdict, black: &Verdict) -> Judgment
    ensures { result ≡ running_ruling_of claim white.now black.now }
{
    if are_dead(white, black) {
        return DEAD;
    }
    let recorded = claim.recorded;
    match recorded {
        ResultMark::WhiteWins => winner_ruling(recorded, claim.forfeit, white),
        ResultMark::BlackWins => winner_ruling(recorded, claim.forfeit, black),
        ResultMark::Draw => drawn_ruling(claim.claimant, white, black),
        ResultMark::Unknown => Judgment {
            mark: recorded,
            cause: Cause::Recorded,
        },
    }
}

/// The result of a game. `state` says how its final position stands, `claim` what its text says of its end, `white` and `black` who can
/// mate in the final position, and `earlier` whether a position before it was dead, where the game ended. The first row that fits counts:
///
/// | where | result | cause |
/// |---|---|---|
/// | a side is checkmated | the other side wins | `Mate511` |
/// | neither side could mate before the final position | a draw | `Dead522` |
/// | a side is stalemated | a draw | `Stalemate521` |
/// | neither side can mate | a draw | `Dead522` |
/// | a side lost on time, and the recorded winner cannot mate | a draw | `Flag69` |
/// | nothing was shown about the recorded winner | as recorded | `RecordedUndecided` |
/// | a draw with a claimant, who can mate | the claimant wins | `FlagOfMover69` |
/// | a draw with a claimant, who cannot mate | a draw | `Flag69` |
/// | a draw with a claimant, of whom nothing was shown | a draw | `RecordedUndecided` |
/// | in all other cases | as recorded | `Recorded` |
#[tactic(auto, unfolding(crate::specs::Rulings::ruling_of))]
pub fn ruling(
    state: Standing,
    claim: Claim,
    white: &Verdict,
    black: &Verdict,
    earlier: bool,
) -> Judgment
    ensures { result ≡ ruling_of state claim white.now black.now earlier }
{
    match state {
        Standing::Mate(winner) => Judgment {
            mark: win(winner),
            cause: Cause::Mate511,
        },
        _ if earlier => DEAD,
        Standing::Stalemate => Judgment {
            mark: ResultMark::Draw,
            cause: Cause::Stalemate521,
        },
        Standing::Running => running_ruling(claim, white, black),
    }
}

/// Who wins a game that is recorded as drawn though a flag fell, if that player can mate.
fn claimant(
    draws: FlaggedDraws,
    flag_fell: bool,
    recorded: ResultMark,
    mover: Color,
) -> Option<Color>
    ensures { result ≡ claimant_by draws flag_fell recorded mover }
{
    match draws {
        FlaggedDraws::Stand => None,
        FlaggedDraws::Examined => match recorded {
            ResultMark::Draw => { if flag_fell { Some(mover.other()) } else { None } }
            ResultMark::WhiteWins | ResultMark::BlackWins | ResultMark::Unknown => None,
        },
    }
}

/// What the text of a game says of its end.
pub fn claim_of(draws: FlaggedDraws, game: &PlayedGame) -> Claim
    ensures { result ≡ claim_by draws game.now }
{
    Claim {
        recorded: game.recorded,
        forfeit: game.forfeit,
        claimant: claimant(draws, game.flag_fell, game.recorded, game.last.side()),
    }
}

/// Whose flag fell: in a game that was lost on time the loser's; in a drawn game that was examined for a flag that of the player to move.
/// None in all other games.
#[tactic(auto, unfolding(crate::specs::Rulings::fallen_flag))]
pub fn fallen_flag(game: &PlayedGame, cause: Cause) -> Option<Color>
    ensures { result ≡ flag_of game.now cause }
{
    match (game.recorded, cause) {
        (ResultMark::WhiteWins, _) if game.forfeit => Some(Color::Black),
        (ResultMark::BlackWins, _) if game.forfeit => Some(Color::White),
        (ResultMark::Draw, Cause::Flag69 | Cause::FlagOfMover69 | Cause::RecordedUndecided) => {
            Some(game.last.side())
        }
        _ => None,
    }
}

/// The side that is examined first: the recorded winner, or the claimant of a draw, and White where there is none.
#[tactic(auto, unfolding(crate::specs::Rulings::first_by))]
pub fn first_examined(claim: Claim) -> Color
    ensures { result ≡ first_by claim }
{
    match claim.recorded {
        ResultMark::BlackWins => Color::Black,
        ResultMark::Draw => claim.claimant.unwrap_or(Color::White),
        ResultMark::WhiteWins | ResultMark::Unknown => Color::White,
    }
}

/// Whether the result of a game is not the recorded one.
#[tactic(auto, unfolding(crate::specs::Rulings::is_changed))]
pub fn changes_result(recorded: ResultMark, ruling: Judgment) -> bool
    ensures { result ≡ is_changed recorded ruling.mark }
{
    ruling.mark != recorded
}

/// A game whose recorded result is the one that was found for it keeps that, by the same verdicts, where drawn games stand.
pub fn found_results_stay()
    ensures { (game : Played) (d : DecisionOf) (scan : Option ScanOf) → is_changed (judgment_from Stand game d scan).mark (judgment_from Stand (with_recorded (judgment_from Stand game d scan).mark game) d scan).mark ≡ false }
{}

/// Whether a game was dead before its last position.
fn was_dead(game: &PlayedGame, scan: &Option<Scan>) -> bool
    ensures { result ≡ was_dead_before game.now.positions scan.now }
{
    match scan {
        Some(scan) => (scan.ply as usize) + 1 < game.positions.items().len(),
        None => false,
    }
}

/// The ruling on a game, by how its final position stands, the end that its text claims, the verdicts, and from where on it was dead,
/// if it was.
pub fn judgment_of(
    game: &PlayedGame,
    claim: Claim,
    standing: Standing,
    decision: &Decision,
    scan: &Option<Scan>,
) -> Judgment
    requires { standing ≡ standing_of game.now.last }
    ensures { (draws : DrawRule) → claim ≡ claim_by draws game.now → result ≡ judgment_from draws game.now decision.now scan.now }
{
    ruling(
        standing,
        claim,
        &decision.white,
        &decision.black,
        was_dead(game, scan),
    )
}
