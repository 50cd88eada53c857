//! How far the work on one item has come.

ghost use Rattle.std.specs.Prelude.{◌≡◌, IfOk};
ghost use Rattle.cha_outcome.specs.Outcomes.{Answers, CanBeAsked, IsPrintableOutcome};
ghost use Rattle.side_by_side.specs.Progresses.{IsOf, IsAsked};

use crate::cuts::Cut;
use cha_judge::Judge;
use cha_list::NoMemory;
use cha_outcome::{Item, Outcome};
use std::alloc::Global;

/// How far the work on one item has come.
#[derive(Drop)]
pub enum Progress {
    /// It is cut from its text.
    Cut(Cut),
    /// It is read.
    Read(Item),
    /// It is judged. What it was cut as goes with the outcome, so that its memory is given back where it was taken: threads that give
    /// back what another one took wait for one another at the heap.
    Judged { outcome: Outcome, cut: Option<Cut> },
}

/// What a judge finds about an item.
fn judged<J: Judge>(alloc: Global, judge: &mut J, item: Item) -> Result<Outcome, NoMemory>
    requires ready { J.ready judge.old }
    requires asked { CanBeAsked (J.question judge.old) item }
    ensures stays_ready { J.ready judge.new }
    ensures worked { J.worked judge.old judge.new }
    ensures same_question { J.question judge.new ≡ J.question judge.old }
    ensures answers { IfOk result (Answers (J.question judge.old) item) }
    ensures printable { IfOk result IsPrintableOutcome }
{
    match judge.judge(alloc, item) {
        Ok(outcome) => Ok(outcome),
        Err(_) => Err(NoMemory),
    }
}

/// Does what is left to do on an item. The only error is want of memory.
pub fn finish<J: Judge>(
    alloc: Global,
    judge: &mut J,
    progress: Progress,
) -> Result<Outcome, NoMemory>
    requires ready { J.ready judge.old }
    requires about { IsAsked (J.question judge.old) progress }
    ensures stays_ready { J.ready judge.new }
    ensures worked { J.worked judge.old judge.new }
    ensures same_question { J.question judge.new ≡ J.question judge.old }
    ensures answers { (item : Item) → IsOf (J.question judge.old) item progress → IfOk result (Answers (J.question judge.old) item) }
    ensures printable { IfOk result IsPrintableOutcome }
{
    match progress {
        Progress::Cut(cut) => {
            let item = cut.item(alloc)?;
            judged(alloc, judge, item)
        }
        Progress::Read(item) => judged(alloc, judge, item),
        Progress::Judged { outcome, cut: _ } => Ok(outcome),
    }
}
