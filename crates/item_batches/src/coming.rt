//! When more is read: where no item is queued.

ghost use Rattle.std.specs.Prelude.{◌≡◌, ◌≤◌, ◌<◌, ◌+◌, ◌↔◌, [], ◌∷◌, ◌++◌, true, false, length, take, All, OnOk, OnErr};
ghost use Rattle.std.specs.declared.result.Result.TheVariants.{Ok, Err};
ghost use Rattle.std.specs.Io.KnownBytes.{IsAtEnd};
ghost use Rattle.cha_outside.specs.Faults.{Rose};
ghost use Rattle.cha_outside.specs.Gathering.{Gathers};
ghost use Rattle.cha_outcome.specs.declared.questions.Question.{Question};
ghost use Rattle.side_by_side.specs.declared.progress.Progress.TheVariants.{Cut as OnlyCut};
ghost use Rattle.side_by_side.specs.Parts.{items_of};
ghost use Rattle.item_batches.specs.Readers.{kind_of, taken_by, written_by, has_ended, items_by, settled_by, CanGoOn};
ghost use Rattle.item_batches.specs.Batches.{items_queued, given_from, IsQueued};
ghost use Rattle.item_batches.specs.Items.{TookAsNeeded, most_bytes};

use crate::queue::{FIRST_ITEMS, Queue};
use crate::readers::ItemReader;
use cha_list::NoMemory;
use cha_outside::{ReadEnd, Source};
use side_by_side::{Cut, Progress};

/// Whether no item is queued.
#[tactic(auto, using(crate::proofs::Batching::some_item, crate::proofs::Batching::no_item))]
fn is_empty(queue: &Queue) -> bool
    requires { All (λ part. 1 ≤ length (items_of part)) queue.now.begun.items }
    ensures none { result ≡ true → items_queued queue.now ≡ [] }
    ensures some { result ≡ false → 1 ≤ length (items_queued queue.now) }
{
    if !queue.worked.is_empty() {
        return false;
    }
    if !queue.begun.is_empty() {
        return false;
    }
    queue.cut.is_empty()
}

/// Puts an item that has come behind those that are cut.
fn put_first(first: Cut, cut: &mut Vec<Progress>) -> Result<(), NoMemory>
    ensures ok { OnOk result (cut.new.items ≡ cut.old.items ++ OnlyCut first ∷ []) }
    ensures err { OnErr result (cut.new.items ≡ cut.old.items) }
{
    match cut.push(Progress::Cut(first)) {
        Ok(()) => Ok(()),
        Err(_) => Err(NoMemory),
    }
}

/// Sees that an item is queued, and answers whether one is: it reads only where none is, and no further piece than an item needs. None is
/// where all items were given. After an error nothing is queued.
pub fn await_item<S: Source>(
    queue: &mut Queue,
    reader: &mut ItemReader,
    source: &mut S,
) -> Result<bool, ReadEnd>
    requires goes_on { CanGoOn reader.old }
    requires parts { All (λ part. 1 ≤ length (items_of part)) queue.old.begun.items }
    ensures kind { kind_of reader.new ≡ kind_of reader.old }
    ensures written { written_by reader.new ≡ written_by reader.old }
    ensures bytes { Gathers (S.left source.old) (S.left source.new) (taken_by reader.old) (taken_by reader.new) }
    ensures begun { queue.new.begun ≡ queue.old.begun }
    ensures number { OnOk result (given_from reader.new queue.new ≡ given_from reader.old queue.old) }
    ensures some { result ≡ Ok true → 1 ≤ length (items_queued queue.new) }
    ensures none { result ≡ Ok false → (has_ended reader.new ≡ true) × (length (items_by (kind_of reader.old) (taken_by reader.new)) ≤ given_from reader.old queue.old) }
    ensures refused { OnErr result (items_queued queue.new ≡ []) }
    ensures queued { (question : Question) → IsQueued reader.old question (items_queued queue.old) false → OnOk result (IsQueued reader.new question (items_queued queue.new) false) }
    ensures still { has_ended reader.old ≡ true → taken_by reader.new ≡ taken_by reader.old }
    ensures still_ended { has_ended reader.old ≡ true → has_ended reader.new ≡ true }
    ensures first { take (given_from reader.old queue.old) (items_by (kind_of reader.old) (taken_by reader.new)) ≡ take (given_from reader.old queue.old) (items_by (kind_of reader.old) (taken_by reader.old)) }
    ensures end { (has_ended reader.old ≡ true → IsAtEnd (S.left source.old)) → has_ended reader.new ≡ true → IsAtEnd (S.left source.new) }
    ensures read_fault { result ≡ Err ReadEnd.ReadFault → Rose (S.faults source.old) (S.faults source.new) }
    ensures settled { result ≡ Err ReadEnd.ReadFault → settled_by (kind_of reader.old) (taken_by reader.new) ≤ given_from reader.old queue.old }
    ensures at_hand { given_from reader.old queue.old < settled_by (kind_of reader.old) (taken_by reader.old) → source.new ≡ source.old }
    ensures no_more { (question : Question) → IsQueued reader.old question (items_queued queue.old) false → TookAsNeeded (settled_by (kind_of reader.old)) (taken_by reader.new) (given_from reader.old queue.old) }
    ensures too_long { (result ≡ Err ReadEnd.TooLong) ↔ (most_bytes < length (taken_by reader.new)) }
    ensures few { length (taken_by reader.new) ≤ most_bytes + 4096 }
    ensures later { S.faults source.old ≤ S.faults source.new }
{
    if !is_empty(queue) {
        return Ok(true);
    }
    queue.most = FIRST_ITEMS;
    match reader.next(source) {
        Ok(Some(first)) => match put_first(first, &mut queue.cut) {
            Ok(()) => Ok(true),
            Err(_) => Err(ReadEnd::NoMemory),
        },
        Ok(None) => Ok(false),
        Err(end) => Err(end),
    }
}
