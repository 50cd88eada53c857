//! Sound verdicts in the words of chess, and in those of a report.

ghost use Rattle.std.specs.Prelude.{ℕ};
ghost use Rattle.cha_board.specs.declared.men.Color.{Color};
ghost use Rattle.cha_board.specs.Board.{Board};
ghost use Rattle.cha_limits.specs.Bounds.{Bounds};
ghost use Rattle.cha_verdict.specs.declared.decisions.Decision.{Decision};
ghost use Rattle.cha_verdict.specs.Sound.{IsSound};
ghost use Rattle.cha_outcome.specs.declared.outcomes.Outcome.{Outcome};
ghost use Rattle.cha_outcome.specs.declared.questions.FlaggedDraws.{FlaggedDraws};
ghost use Rattle.cha_outcome.specs.Outcomes.{HasSoundVerdicts};
ghost use Rattle.true_blocks.specs.Means.{Means};
ghost use Rattle.true_blocks.specs.Shown.{ShowsTruth};

/// The law: a sound decision means what it says. A side that is winnable has a line of legal moves that ends in a mate by it, for one that
/// is unwinnable there is none, and where a side is undecided the whole budget was spent without a mate.
pub fn sound_decisions_mean()
    ensures { (q : Board) (first : Color) (limits : Bounds) (d : Decision) → IsSound q first limits d → Means q limits d }
{}

/// The law of one block: what stands behind the FEN that the block of a sound outcome shows is true of the position that this FEN is.
/// Whoever sees the position need not believe how its game was read.
pub fn a_block_is_true_of_its_fen()
    ensures { (limits : Bounds) (draws : FlaggedDraws) (number : ℕ) (o : Outcome) → HasSoundVerdicts limits draws o → ShowsTruth limits number o }
{}
