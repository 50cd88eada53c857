//! The one loop over the items of an input.

ghost use Rattle.std.specs.Prelude.{◌≡◌, ◌≢◌, ◌≤◌, ◌+◌, ◌⊎◌, ℕ, List, [], Option, Some, true, false, length, take, IfOk, OnErr};
ghost use Rattle.std.specs.Io.KnownBytes.{Appends, Consumes, IsAtEnd};
ghost use Rattle.cha_outside.specs.Faults.{Rose};
ghost use Rattle.cha_outside.specs.Writing.{Takes, WriteCause};
ghost use Rattle.cha_outcome.specs.Outcomes.{IsPrintableOutcome};
ghost use Rattle.cha_outcome.specs.Totals.{counted, HasRoom};
ghost use Rattle.report_words.specs.LegalLines.{HasLegalLines};
ghost use Rattle.flag_report.specs.Styles.{block, summary as summary_of};
ghost use Rattle.adjudicate.specs.Jobs.{job_on};
ghost use Rattle.adjudicate.specs.Report.{demand_by};
ghost use Rattle.item_batches.specs.Items.{most_bytes};
ghost use Rattle.adjudicate.specs.Runs.{IsRunOf, outside};

use crate::endings::Status;
use crate::writing::put;
use cha_judge::Judge;
use cha_list::{NoMemory, Text};
use cha_outcome::{Outcome, Totals};
use cha_outside::{Sink, Source, Wrote};
use flag_report::{Subject, put as put_outcome, put_summary};
use item_batches::Batches;
use report_style::Style;
use side_by_side::{Hands, finish};
use std::alloc::Global;
use std::mem;

/// The form of a report.
#[derive(Clone, Copy, Debug, PartialEq, Eq)]
pub struct Form {
    /// How it is printed.
    pub style: Style,
    /// What it is about.
    pub subject: Subject,
}

/// Judges each item, and writes what is printed of its outcome, and at the end the summary. No item was given yet; the source may have
/// given bytes before.
pub fn write_report<H: Hands, J: Judge, S: Source, K: Sink>(
    alloc: Global,
    form: Form,
    items: &mut Batches<H>,
    judge: &mut J,
    source: &mut S,
    sink: &mut K,
) -> Status
    requires ready { J.ready judge.old }
    requires asked { items.old.question ≡ J.question judge.old }
    requires goes_on { items.old.failed ≡ false }
    requires first { items.old.given ≡ 0 }
    requires few { length items.old.taken ≤ most_bytes }
    requires ended { items.old.ended ≡ true → IsAtEnd (S.left source.old) }
    ensures stays_ready { J.ready judge.new }
    ensures worked { J.worked judge.old judge.new }
    ensures run { (left : Option (List ℕ)) (faults : ℕ) → Consumes left (S.left source.old) items.old.taken → faults ≤ S.faults source.old → IsRunOf (demand_by (Some (job_on items.old.kind (J.question judge.old) form.style form.subject))) result (outside left faults (K.written sink.old) (K.faults sink.old)) (outside (S.left source.new) (S.faults source.new) (K.written sink.new) (K.faults sink.new)) }
{
    let mut totals = Totals::new();
    let mut text = Text::new(alloc);
    loop {
        let found = match items.next(alloc, source) {
            Ok(found) => found,
            Err(end) => return Status::from(end),
        };
        let Some(progress) = found else {
            return end_report(alloc, form, items.is_closed(), &totals, sink);
        };
        let Ok(outcome) = finish(alloc, judge, progress) else {
            return Status::NoMemory;
        };
        let Ok(wrote) = write_outcome(alloc, form.style, &mut totals, outcome, &mut text, sink)
        else {
            return Status::NoMemory;
        };
        match wrote {
            Wrote::All => {}
            Wrote::Failed(_) => return Status::WriteFault,
        }
    }
}

/// Empties a text, which keeps its room.
fn empty(alloc: Global, text: &mut Text)
    ensures { text.new ≡ [] }
{
    let mut room = mem::replace(text, Text::new(alloc)).into_vec();
    room.clear();
    *text = Text::from_vec(room);
}

/// Counts an outcome, and writes what is printed of it under its number, by way of a text whose room serves again: where threads judge,
/// a text that grows often waits for them at the heap.
fn write_outcome<K: Sink>(
    alloc: Global,
    style: Style,
    totals: &mut Totals,
    outcome: Outcome,
    text: &mut Text,
    sink: &mut K,
) -> Result<Wrote, NoMemory>
    requires printable { IsPrintableOutcome outcome }
    requires legal { HasLegalLines outcome }
    requires room { HasRoom totals.old }
    ensures counted { totals.new ≡ counted totals.old outcome }
    ensures bytes { IfOk result (λ wrote. Takes (K.written sink.old) (K.written sink.new) wrote (block style (totals.old.items + 1) outcome)) }
    ensures some { IfOk result (λ wrote. wrote ≢ Wrote.All → block style (totals.old.items + 1) outcome ≢ []) }
    ensures cause { IfOk result (λ wrote. WriteCause (K.faults sink.old) (K.faults sink.new) wrote) }
    ensures untouched { OnErr result (sink.new ≡ sink.old) }
{
    totals.count(&outcome);
    empty(alloc, text);
    put_outcome(alloc, style, totals.items, &outcome, text)?;
    Ok(put(sink, text.items()))
}

/// Writes the end of a report; `closed` says whether its text is closed.
fn end_report<K: Sink>(
    alloc: Global,
    form: Form,
    closed: bool,
    totals: &Totals,
    sink: &mut K,
) -> Status
    ensures whole { result ≡ Status.Done → Appends (K.written sink.old) (K.written sink.new) (summary_of form.style form.subject closed totals.now) }
    ensures cut { result ≡ Status.WriteFault → (n : ℕ) × Appends (K.written sink.old) (K.written sink.new) (take n (summary_of form.style form.subject closed totals.now)) }
    ensures no_memory { result ≡ Status.NoMemory → (K.written sink.new ≡ K.written sink.old) }
    ensures cause { result ≡ Status.WriteFault → Rose (K.faults sink.old) (K.faults sink.new) }
    ensures either { (result ≡ Status.Done) ⊎ ((result ≡ Status.WriteFault) ⊎ (result ≡ Status.NoMemory)) }
    ensures later { K.faults sink.old ≤ K.faults sink.new }
{
    let mut text = Text::new(alloc);
    let Ok(()) = put_summary(alloc, form.style, form.subject, closed, totals, &mut text) else {
        return Status::NoMemory;
    };
    match put(sink, text.items()) {
        Wrote::All => Status::Done,
        Wrote::Failed(_) => Status::WriteFault,
    }
}
