//! The same call where there is no runtime.

ghost use Rattle.std.specs.Prelude.{◌≡◌, ◌≤◌, ◌↔◌, ◌⊎◌, ℕ, List, [], ◌∷◌, Option, false, length, map, codes, string_bytes, IsNone, IsSome, IfSome, Some};
ghost use Rattle.cha_board.specs.declared.men.Color.{Color as Side};
ghost use Rattle.cha_board.specs.Board.{Board, IsValid};
ghost use Rattle.cha_outside.specs.Faults.{Rose};
ghost use Rattle.cha_outside.specs.Gathering.{Took};
ghost use Rattle.cha_limits.specs.Bounds.{Bounds};
ghost use Rattle.cha_verdict.specs.Sound.{IsSound, IsComplete, verdict_on};
ghost use Rattle.cha_verdict.specs.declared.decisions.Decision.{Decision};
ghost use Rattle.cha_verdict.specs.declared.scans.Scan.{Scan as ScanOf};
ghost use Rattle.cha_outcome.specs.declared.items.PlayedGame.{PlayedGame as Played};
ghost use Rattle.cha_outcome.specs.declared.outcomes.Outcome.{Outcome as OutcomeOf};
ghost use Rattle.cha_outcome.specs.declared.questions.FlaggedDraws.{FlaggedDraws as DrawRule};
ghost use Rattle.cha_outcome.specs.declared.questions.FlaggedDraws.TheVariants.{Stand};
ghost use Rattle.cha_outcome.specs.declared.questions.Question.TheVariants.{Verdicts};
ghost use Rattle.cha_outcome.specs.Rulings.{is_changed, judgment_of, with_recorded};
ghost use Rattle.cha_words.specs.declared.orders.Order.TheVariants.{CheckCert, GenGames};
ghost use Rattle.cha_words.specs.Language.{order, limits_in};
ghost use Rattle.adjudicate.specs.CertFindings.{IsTextOf, IsUnwinnableAtFirst};
ghost use Rattle.adjudicate.specs.Corrections.{noted, HasAll, HasSameGames};
ghost use Rattle.flag_report.specs.declared.styles.Subject.TheVariants.{Games, Positions};
ghost use Rattle.true_blocks.specs.Shown.{ShowsOnlyTruth};
ghost use Rattle.adjudicate.specs.Jobs.{on_kept_games};
ghost use Rattle.side_by_side.specs.declared.cuts.Purpose.TheVariants.{Judged};
ghost use Rattle.item_batches.specs.Items.{game_items, position_items};
ghost use Rattle.adjudicate.specs.Orders.{IsRun};
ghost use Rattle.adjudicate.specs.Runs.{outside, Grew};
ghost use Rattle.adjudicate.specs.Truth.{usual, ReportsTruth};

use crate::commands::{carry_out, carry_out_plain};
use crate::correcting::corrected_games_stay;
use crate::endings::Status;
use cha_limits::Limits;
use cha_outcome::found_results_stay;
use cha_outside::{MOST_BYTES, Sink, Source};
use cha_verdict::sound_is_complete;
use cha_words::{Order, games_are_some, mates_are_bounded, parse};
use helpmate_list::OneByOne;
use root_workers::Alone;
use shard_table::Shard;
use std::alloc::Global;

/// Does what the words order, as `run` does, without a runtime: it starts no thread, waits for none and takes no lock. So it
/// can stand in a library. How many workers the words ask for changes nothing.
pub fn run_alone<S: Source, K: Sink, N: Sink>(
    alloc: Global,
    words: &[String],
    source: &mut S,
    sink: &mut K,
    notes: &mut N,
) -> Status
    // The words are not in the language, and then nothing was read or written.
    ensures usage { (result ≡ Status.Usage) ↔ IsNone (order words.now) }
    ensures untouched { result ≡ Status.Usage → (source.new ≡ source.old) × (sink.new ≡ sink.old) × (notes.new ≡ notes.old) }

    // What the words order was done, status by status: on Done the whole input was read, and its report was written.
    ensures run { IfSome (order words.now) (λ o. IsRun o result (outside (S.left source.old) (S.faults source.old) (K.written sink.old) (K.faults sink.old)) (outside (S.left source.new) (S.faults source.new) (K.written sink.new) (K.faults sink.new)) (noted (N.written notes.old) (N.faults notes.old)) (noted (N.written notes.new) (N.faults notes.new))) }

    // The words `adjudicate` alone, and `position` alone: on Done, what was written says of each item what is true of it in chess.
    ensures games { map string_bytes words.now ≡ codes "adjudicate" ∷ [] → result ≡ Status.Done → ReportsTruth (game_items Judged) Games (S.left source.old) (S.left source.new) (K.written sink.old) (K.written sink.new) }
    ensures positions { map string_bytes words.now ≡ codes "position" ∷ [] → result ≡ Status.Done → ReportsTruth position_items Positions (S.left source.old) (S.left source.new) (K.written sink.old) (K.written sink.new) }

    // However their input was read, each block is true of the position whose FEN it shows.
    ensures shown { (map string_bytes words.now ≡ codes "adjudicate" ∷ []) ⊎ (map string_bytes words.now ≡ codes "position" ∷ []) → result ≡ Status.Done → Grew (K.written sink.old) (K.written sink.new) (ShowsOnlyTruth usual) }

    // What the verdicts of a report cannot miss.
    ensures misses_nothing { (q : Board) (first : Side) (limits : Bounds) (d : Decision) → IsValid q → IsSound q first limits d → (winner : Side) → IsComplete q winner limits (verdict_on d winner) }

    // Where games are written with other results, they stay the same games, and where drawn games stand, a game that was written so has
    // the result that is found for it by the same verdicts.
    ensures same_games { (limits : Bounds) (draws : DrawRule) (bytes : List ℕ) (os : List OutcomeOf) → HasAll (on_kept_games (Verdicts limits draws)) bytes os → HasSameGames bytes os }
    ensures corrects_once { (game : Played) (d : Decision) (scan : Option ScanOf) → is_changed (judgment_of Stand game d scan).mark (judgment_of Stand (with_recorded (judgment_of Stand game d scan).mark game) d scan).mark ≡ false }

    // Where a certificate was accepted, its text was read, and no series of legal moves from the position of its first node
    // mates for its side.
    ensures law { result ≡ Status.Done → order words.now ≡ Some CheckCert → Took (S.left source.old) (S.left source.new) (IsTextOf IsUnwinnableAtFirst) }

    // With words of the language, an input that is not too long and nothing that fails, the report is written or memory
    // was refused.
    ensures complete { IsSome (order words.now) → (bytes : List ℕ) → S.left source.old ≡ Some bytes → length bytes ≤ MOST_BYTES
        → ¬ Rose (S.faults source.old) (S.faults source.new) → ¬ Rose (K.faults sink.old) (K.faults sink.new) → ¬ Rose (N.faults notes.old) (N.faults notes.new)
        → (result ≡ Status.Done) ⊎ ((result ≡ Status.NotAccepted) ⊎ (result ≡ Status.NoMemory)) }
{
    sound_is_complete();
    corrected_games_stay();
    found_results_stay();
    games_are_some();
    mates_are_bounded();
    match parse(words) {
        Some(order) => match order.limits() {
            Some(limits) => by_itself(alloc, &order, &limits, source, sink, notes),
            None => carry_out_plain(alloc, &order, &OneByOne, source, sink)
        },
        None => Status::Usage,
    }
}

/// Does what an order asks for with one worker, which has facts of its own.
fn by_itself<S: Source, K: Sink, N: Sink>(
    alloc: Global,
    order: &Order,
    limits: &Limits,
    source: &mut S,
    sink: &mut K,
    notes: &mut N,
) -> Status
    requires searches { IsSome (limits_in order.now) }
    requires some { (spend : Bounds) (seed count : ℕ) → order.now ≡ GenGames spend seed count → (1 ≤ count) × (count ≤ 1000) }
    ensures { IsRun order.now result (outside (S.left source.old) (S.faults source.old) (K.written sink.old) (K.faults sink.old)) (outside (S.left source.new) (S.faults source.new) (K.written sink.new) (K.faults sink.new)) (noted (N.written notes.old) (N.faults notes.old)) (noted (N.written notes.new) (N.faults notes.new)) }
{
    let Ok(mut shard) = Shard::new(alloc, limits.entries()) else {
        return Status::NoMemory;
    };
    let mut alone = Alone::new(alloc, &mut shard);
    carry_out(alloc, order, &OneByOne, &mut alone, source, sink, notes)
}
