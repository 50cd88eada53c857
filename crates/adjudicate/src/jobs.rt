//! The jobs that orders are: where their items come from.

ghost use Rattle.std.specs.Prelude.{◌≡◌, ◌≤◌, ℕ, List, Option, Some};
ghost use Rattle.adjudicate.specs.Jobs.{job_on, on_made};
ghost use Rattle.side_by_side.specs.declared.cuts.Purpose.TheVariants.{Judged};
ghost use Rattle.side_by_side.specs.declared.cuts.ItemKind.TheVariants.{Games};
ghost use Rattle.side_by_side.specs.Cuts.{IsAskedOf};
ghost use Rattle.adjudicate.specs.Report.{demand_by};
ghost use Rattle.adjudicate.specs.Runs.{IsRunOf, outside};
ghost use Rattle.adjudicate.specs.Steps.{made_status};

use crate::endings::Status;
use crate::reports::{Form, write_report};
use cha_judge::Judge;
use cha_list::NoMemory;
use cha_outside::{Bytes, Sink, Source};
use flag_report::Subject;
use item_batches::Batches;
use random_games::games_text;
use report_style::Style;
use side_by_side::{Hands, ItemKind, Purpose};
use std::alloc::Global;

/// Writes the report on the items of a source, each as soon as it has come.
pub fn report<H: Hands, J: Judge, S: Source, K: Sink>(
    alloc: Global,
    kind: ItemKind,
    form: Form,
    hands: &H,
    judge: &mut J,
    source: &mut S,
    sink: &mut K,
) -> Status
    requires hands { H.ready hands.now }
    requires ready { J.ready judge.old }
    requires asked { IsAskedOf kind (J.question judge.old) }
    ensures stays_ready { J.ready judge.new }
    ensures worked { J.worked judge.old judge.new }
    ensures run { IsRunOf (demand_by (Some (job_on kind (J.question judge.old) form.style form.subject))) result (outside (S.left source.old) (S.faults source.old) (K.written sink.old) (K.faults sink.old)) (outside (S.left source.new) (S.faults source.new) (K.written sink.new) (K.faults sink.new)) }
{
    let Ok(mut items) = Batches::new(alloc, hands, kind, judge.question()) else {
        return Status::NoMemory;
    };
    let status = write_report(alloc, form, &mut items, judge, source, sink);
    items.end();
    status
}

/// Makes so many games of a seed, and writes the summary of the report on them alone. Nothing is read.
pub fn report_made<H: Hands, J: Judge, K: Sink>(
    alloc: Global,
    seed: u64,
    count: u32,
    hands: &H,
    judge: &mut J,
    sink: &mut K,
) -> Status
    requires count { (1 ≤ count) × (count ≤ 1000) }
    requires hands { H.ready hands.now }
    requires ready { J.ready judge.old }
    requires asked { IsAskedOf (Games Judged) (J.question judge.old) }
    ensures stays_ready { J.ready judge.new }
    ensures worked { J.worked judge.old judge.new }
    ensures run { (left : Option (List ℕ)) (faults : ℕ) → IsRunOf (demand_by (Some (on_made (J.question judge.old) seed count))) result (outside left faults (K.written sink.old) (K.faults sink.old)) (outside left faults (K.written sink.new) (K.faults sink.new)) }
{
    let Ok(text) = games_text(alloc, seed, count) else {
        return Status::NoMemory;
    };
    let mut made = Bytes::new(text.into_vec());
    let form = Form {
        style: Style::SummaryAlone,
        subject: Subject::Games,
    };
    let games = ItemKind::Games(Purpose::Judged);
    of_made(report(alloc, games, form, hands, judge, &mut made, sink))
}

/// How a run over games that were made ended, by how the run over their text did. A text in memory never fails, and one that is too
/// long cannot be kept.
fn of_made(status: Status) -> Status
    ensures { result ≡ made_status status }
{
    match status {
        Status::ReadFault | Status::TooLong => Status::NoMemory,
        other => other,
    }
}
