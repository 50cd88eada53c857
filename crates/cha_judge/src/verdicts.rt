//! Whether the sides can still mate.

ghost use Rattle.std.specs.Prelude.{◌≡◌, IfOk, IfErr};
ghost use Rattle.cha_outcome.specs.declared.questions.FlaggedDraws.{FlaggedDraws as DrawRule};
ghost use Rattle.cha_outcome.specs.declared.questions.Question.TheVariants.{Verdicts};
ghost use Rattle.cha_fact.specs.Entries.{MadeSome};
ghost use Rattle.cha_outcome.specs.declared.items.Item.TheVariants.{Position as OfPosition, Played};
ghost use Rattle.cha_outcome.specs.Outcomes.{Answers, HasSoundVerdicts, IsPrintableOutcome};
ghost use Rattle.cha_outcome.specs.PlayedOut.{IsPlayedOut};
ghost use Rattle.cha_outcome.specs.declared.outcomes.Outcome.TheVariants.{JudgedGame};

use crate::judges::Judge;
use cha_board::{Color, Position};
use cha_decide::{decide, scan_back};
use cha_limits::Limits;
use cha_list::NoMemory;
use cha_moves::state;
use cha_outcome::{
    FlaggedDraws, Item, Judgment, Outcome, PlayedGame, PositionStatus, Question, claim_of,
    first_examined, judgment_of, status_of,
};
use cha_verdict::{Decision, Scan};
use root_workers::Crew;
use std::alloc::Global;

/// The judge that decides whether each side can still mate, in a position or in the final position of a game, and from where on
/// a game was dead.
#[derive(Drop)]
pub struct VerdictsJudge<'a, C: Crew> {
    /// What a search may spend on a side.
    pub limits: Limits,
    /// What becomes of drawn games whose flag fell.
    pub draws: FlaggedDraws,
    /// The workers who search.
    pub crew: &'a mut C,
}

impl<'a, C: Crew> Judge for VerdictsJudge<'a, C> {
    ghost use Rattle.std.specs.Prelude.{◌≡◌, refl};
    ghost use Rattle.std.proofs.Common.{◌∙◌};
    ghost use Rattle.cha_fact.specs.Entries.{MadeSome};
    ghost use Rattle.cha_decide.proofs.Backwards.{made_none, made_both};
    ghost use Rattle.cha_outcome.specs.declared.questions.Question.TheVariants.{Verdicts};

    ghost ready = { λ s. C.ready s.crew.now };

    ghost worked = { λ old new. (new.crew.ghost_name ≡ old.crew.ghost_name) × MadeSome C.made old.crew.now new.crew.now };

    ghost none_worked = { λ s. (refl, made_none C.made s.crew.now (C.none_made s.crew.now)) };

    ghost both_worked = { λ a b c one two. (two.0 ∙ one.0, made_both C.made C.both_made a.crew.now b.crew.now c.crew.now one.1 two.1) };

    ghost question = { λ s. Verdicts s.limits s.draws };

    fn question(&self) -> Question {
        Question::Verdicts(self.limits, self.draws)
    }

    fn judge(&mut self, alloc: Global, item: Item) -> Result<Outcome, Item> {
        match item {
            Item::Position { line, position } => {
                judge_position(alloc, line, position, &self.limits, self.crew)
            }
            Item::Played(game) => judge_game(alloc, game, &self.limits, self.draws, self.crew),
            Item::RefusedLine { line, fault } => Ok(Outcome::RefusedLine { line, fault }),
            Item::UnreadableGame { span, why } => Ok(Outcome::UnreadableGame { span, why }),
            Item::Replayed(_) => unreachable!(),
        }
    }
}

/// Decides a position, White first.
fn judge_position<C: Crew>(
    alloc: Global,
    line: u64,
    position: Position,
    limits: &Limits,
    crew: &mut C,
) -> Result<Outcome, Item>
    requires ready { C.ready crew.old }
    ensures stays_ready { C.ready crew.new }
    ensures calls { MadeSome C.made crew.old crew.new }
    ensures answers { IfOk result (λ outcome. (draws : DrawRule) → Answers (Verdicts limits.now draws) (OfPosition line position) outcome) }
    ensures printable { IfOk result IsPrintableOutcome }
    ensures back { IfErr result (λ back. back ≡ OfPosition line position) }
{
    position.known();
    let Ok(decision) = decide(alloc, &position, Color::White, limits, crew) else {
        return Err(Item::Position { line, position });
    };
    let standing = state(&position);
    let status = status_of(standing, &decision.white, &decision.black);
    Ok(Outcome::JudgedPosition {
        line,
        position,
        decision,
        status,
    })
}

/// What is decided about a game.
#[derive(Drop)]
struct DecidedGame {
    decision: Decision,
    scan: Option<Scan>,
    status: PositionStatus,
    judgment: Judgment,
}

/// Decides the final position of a game, the recorded winner first, and from where on the game was dead, if it was.
fn decide_game<C: Crew>(
    alloc: Global,
    game: &PlayedGame,
    limits: &Limits,
    draws: FlaggedDraws,
    crew: &mut C,
) -> Result<DecidedGame, NoMemory>
    requires played { IsPlayedOut game.now }
    requires ready { C.ready crew.old }
    ensures stays_ready { C.ready crew.new }
    ensures calls { MadeSome C.made crew.old crew.new }
    ensures sound { IfOk result (λ found. HasSoundVerdicts limits.now draws (JudgedGame game.now found.decision found.scan found.status found.judgment)) }
    ensures printable { IfOk result (λ found. IsPrintableOutcome (JudgedGame game.now found.decision found.scan found.status found.judgment)) }
{
    game.last.known();
    let claim = claim_of(draws, game);
    let first = first_examined(claim);
    let decision = decide(alloc, &game.last, first, limits, crew)?;
    let scan = scan_back(
        alloc,
        game.positions.items(),
        first,
        &decision,
        limits,
        crew,
    )?;
    let standing = state(&game.last);
    let status = status_of(standing, &decision.white, &decision.black);
    let judgment = judgment_of(game, claim, standing, &decision, &scan);
    Ok(DecidedGame {
        decision,
        scan,
        status,
        judgment,
    })
}

/// Judges a game.
fn judge_game<C: Crew>(
    alloc: Global,
    game: PlayedGame,
    limits: &Limits,
    draws: FlaggedDraws,
    crew: &mut C,
) -> Result<Outcome, Item>
    requires played { IsPlayedOut game }
    requires ready { C.ready crew.old }
    ensures stays_ready { C.ready crew.new }
    ensures calls { MadeSome C.made crew.old crew.new }
    ensures answers { IfOk result (Answers (Verdicts limits.now draws) (Played game)) }
    ensures printable { IfOk result IsPrintableOutcome }
    ensures back { IfErr result (λ back. back ≡ Played game) }
{
    let Ok(found) = decide_game(alloc, &game, limits, draws, crew) else {
        return Err(Item::Played(game));
    };
    Ok(Outcome::JudgedGame {
        game,
        decision: found.decision,
        scan: found.scan,
        status: found.status,
        judgment: found.judgment,
    })
}
