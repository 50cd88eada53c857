//! The work on one item that needs no crew.

ghost use Rattle.std.specs.Prelude.{◌≡◌, None, IfOk, IfErr};
ghost use Rattle.cha_outcome.specs.Outcomes.{CanBeAsked};
ghost use Rattle.side_by_side.specs.Progresses.{IsOf, IsAsked, GoesOn};

use crate::progress::Progress;
use cha_fen::FenFault;
use cha_judge::{Judge, MatesJudge, PliesJudge, VerdictsJudge};
use cha_outcome::{Item, Outcome, Question};
use helpmate_list::OneByOne;
use root_workers::Nobody;
use std::alloc::Global;
use std::mem;

/// Within how many plies one thread lists the mates of a position. A deeper list is left to a crew, which shares the root moves of each
/// position: there a single position may take longer than all others together.
const MOST_PLIES_ALONE: u8 = 4;

/// The progress where a judge gave an outcome, or gave the item back.
fn progress_of(judged: Result<Outcome, Item>) -> Progress
    ensures judged { IfOk judged (λ outcome. result ≡ Progress.Judged outcome None) }
    ensures back { IfErr judged (λ item. result ≡ Progress.Read item) }
{
    match judged {
        Ok(outcome) => Progress::Judged { outcome, cut: None },
        Err(item) => Progress::Read(item),
    }
}

/// Judges an item as far as that needs no crew.
fn judged_alone(alloc: Global, question: &Question, item: Item) -> Progress
    requires { CanBeAsked question.now item }
    ensures { IsOf question.now item result }
{
    match *question {
        Question::Verdicts(limits, draws) => {
            let mut crew = Nobody::new(alloc);
            let mut judge = VerdictsJudge {
                limits,
                draws,
                crew: &mut crew,
            };
            progress_of(judge.judge(alloc, item))
        }
        Question::Mates { side, depth } => {
            if depth > MOST_PLIES_ALONE {
                return Progress::Read(item);
            }
            let mut judge = MatesJudge {
                side,
                depth,
                workers: 1,
                hands: &OneByOne,
            };
            progress_of(judge.judge(alloc, item))
        }
        Question::Plies => progress_of(PliesJudge.judge(alloc, item)),
    }
}

/// Reads an item that is only cut, and judges it as far as that needs no crew.
pub fn advance(alloc: Global, question: &Question, progress: &mut Progress)
    requires { IsAsked question.now progress.old }
    ensures { GoesOn question.now progress.old progress.new }
{
    let Progress::Cut(cut) = &*progress else {
        return;
    };
    let Ok(item) = cut.item(alloc) else {
        return;
    };
    let judged = judged_alone(alloc, question, item);
    let before = mem::replace(progress, Progress::Read(nothing()));
    *progress = with_cut(judged, before);
}

/// An item that takes no memory.
fn nothing() -> Item {
    Item::RefusedLine {
        line: 0,
        fault: FenFault::Shape,
    }
}

/// What is judged, and what it was cut as.
fn with_cut(judged: Progress, before: Progress) -> Progress
    ensures { (question : Question) (item : Item) → IsOf question item judged → IsOf question item result }
{
    match (judged, before) {
        (Progress::Judged { outcome, cut: None }, Progress::Cut(cut)) => Progress::Judged {
            outcome,
            cut: Some(cut),
        },
        (judged, _) => judged,
    }
}
