//! What is queued: items on which nobody works any more, parts that were begun, and items that are only cut.

ghost use Rattle.std.specs.Prelude.{◌≡◌, ◌≤◌, ◌<◌, ◌+◌, ◌-◌, List, [], ◌++◌, true, false, length, IfOk, OnOk, OnErr};
ghost use Rattle.item_batches.specs.Readers.{kind_of, taken_by, written_by, given_by, has_ended, items_by, CanGoOn};
ghost use Rattle.cha_outcome.specs.declared.questions.Question.{Question as Asked};
ghost use Rattle.side_by_side.specs.declared.progress.Progress.{Progress};
ghost use Rattle.side_by_side.specs.Progresses.{AreAsked};
ghost use Rattle.side_by_side.specs.Parts.{AreMine, AreAbout};
ghost use Rattle.item_batches.specs.Batches.{IsWorkAt, items_queued, given_from, IsQueued};

use crate::readers::ItemReader;
use cha_list::NoMemory;
use cha_outcome::Question;
use side_by_side::{Hands, Part, Progress};
use std::alloc::Global;
use std::collections::VecDeque;
use std::mem;

/// How many items the first part has at most that is begun after a read. Each next one may have twice as many, up to what the hands
/// take, so that all threads soon have work, and few threads begin where much has come.
pub const FIRST_ITEMS: usize = 8;

/// How many items a part has at most where threads work: so many that threads seldom begin and end, and so few that all are at work soon
/// after a piece of a file was read.
const MOST_ITEMS: usize = 128;

/// How many times as many parts may be begun as are worked on at a time: the work on some has ended, but not on one before them.
const AHEAD: usize = 4;

/// How many parts may be begun, whatever the hands take: so many bound the memory.
const MOST_BEGUN: usize = 32;

/// What is queued: items on which nobody works any more, behind them parts that were begun, and behind these items that are only cut, for
/// the next part, which may have so many.
#[derive(Drop)]
pub struct Queue {
    pub worked: VecDeque<Progress>,
    pub begun: VecDeque<Part>,
    pub cut: Vec<Progress>,
    pub most: usize,
}

/// A queue of no items. It takes no memory.
pub fn nothing_queued(alloc: Global) -> Queue
    ensures { (result.worked.items ≡ []) × (result.begun.items ≡ []) × (result.cut.items ≡ []) }
{
    Queue {
        worked: VecDeque::new(alloc),
        begun: VecDeque::new(alloc),
        cut: Vec::new(alloc),
        most: FIRST_ITEMS,
    }
}

/// Ends the work on parts.
pub fn end_all<H: Hands>(hands: &H, begun: VecDeque<Part>)
    requires ready { H.ready hands.now }
    requires mine { AreMine H.mine begun.items }
{
    for part in begun {
        drop(hands.end(part));
    }
}

/// Cuts items that are whole in what was taken, and puts them behind others, at most so many in all.
fn cut_ready(
    most: usize,
    cut: Vec<Progress>,
    reader: &mut ItemReader,
) -> Result<Vec<Progress>, NoMemory>
    requires goes_on { CanGoOn reader.old }
    ensures kind { kind_of reader.new ≡ kind_of reader.old }
    ensures same { (taken_by reader.new ≡ taken_by reader.old) × (has_ended reader.new ≡ has_ended reader.old) }
    ensures written { written_by reader.new ≡ written_by reader.old }
    ensures goes_on { OnOk result (CanGoOn reader.new) }
    ensures count { IfOk result (λ more. given_by reader.new + length cut.items ≡ given_by reader.old + length more.items) }
    ensures longer { IfOk result (λ more. length cut.items ≤ length more.items) }
    ensures queued { (question : Asked) (front : List Progress) → IsQueued reader.old question (front ++ cut.items) false → IfOk result (λ more. IsQueued reader.new question (front ++ more.items) false) }
{
    let mut more = cut;
    while more.len() < most {
        let Some(cut) = reader.ready()? else {
            break;
        };
        let Ok(()) = more.push(Progress::Cut(cut)) else {
            return Err(NoMemory);
        };
    }
    Ok(more)
}

/// Cuts more items that are whole in what was taken, until there are so many for the next part.
fn cut_more(
    alloc: Global,
    most: usize,
    queue: &mut Queue,
    reader: &mut ItemReader,
) -> Result<(), NoMemory>
    requires goes_on { CanGoOn reader.old }
    ensures kind { kind_of reader.new ≡ kind_of reader.old }
    ensures same { (taken_by reader.new ≡ taken_by reader.old) × (has_ended reader.new ≡ has_ended reader.old) }
    ensures written { written_by reader.new ≡ written_by reader.old }
    ensures others { (queue.new.worked ≡ queue.old.worked) × (queue.new.begun ≡ queue.old.begun) }
    ensures goes_on { OnOk result (CanGoOn reader.new) }
    ensures count { OnOk result (given_by reader.new + length queue.old.cut.items ≡ given_by reader.old + length queue.new.cut.items) }
    ensures longer { OnOk result (length queue.old.cut.items ≤ length queue.new.cut.items) }
    ensures queued { (question : Asked) (front : List Progress) → IsQueued reader.old question (front ++ queue.old.cut.items) false → OnOk result (IsQueued reader.new question (front ++ queue.new.cut.items) false) }
{
    let cut = mem::replace(&mut queue.cut, Vec::new(alloc));
    queue.cut = cut_ready(most, cut, reader)?;
    Ok(())
}

/// Begins the work on what is cut.
fn begin_cut<H: Hands>(
    alloc: Global,
    hands: &H,
    question: &Question,
    queue: &mut Queue,
) -> Result<(), NoMemory>
    requires ready { H.ready hands.now }
    requires some { 1 ≤ length queue.old.cut.items }
    requires asked { AreAsked question.now queue.old.cut.items }
    requires mine { AreMine H.mine queue.old.begun.items }
    requires about { AreAbout question.now queue.old.begun.items }
    ensures mine { AreMine H.mine queue.new.begun.items }
    ensures about { AreAbout question.now queue.new.begun.items }
    ensures worked { queue.new.worked ≡ queue.old.worked }
    ensures longer { OnOk result (length queue.new.begun.items ≡ length queue.old.begun.items + 1) }
    ensures size { OnOk result (length (items_queued queue.new) ≡ length (items_queued queue.old)) }
    ensures queued { (reader : ItemReader) → IsQueued reader question.now (items_queued queue.old) false → OnOk result (IsQueued reader question.now (items_queued queue.new) false) }
{
    let cut = mem::replace(&mut queue.cut, Vec::new(alloc));
    queue.most = queue.most.saturating_mul(2);
    match queue.begun.push_back(hands.begin(alloc, question, cut)) {
        Ok(()) => Ok(()),
        Err(refused) => {
            drop(hands.end(refused.value));
            Err(NoMemory)
        }
    }
}

/// Whether the hands, which work on so many parts at a time, take a further one behind these, of which fewer than `most` may be begun.
fn are_free(parts: usize, most: usize, begun: &VecDeque<Part>) -> bool
    ensures { result ≡ true → length begun.now.items < most }
{
    let mut open: usize = 0;
    for part in begun.iter() {
        if !part.has_ended() {
            open = open.saturating_add(1);
        }
    }
    begun.len() < most && open < parts
}

/// Begins as many parts as the hands take, and cuts items for the next one. Some item is queued, and on none the work has ended.
fn fill<H: Hands>(
    alloc: Global,
    hands: &H,
    question: &Question,
    queue: &mut Queue,
    reader: &mut ItemReader,
) -> Result<(), NoMemory>
    requires ready { H.ready hands.now }
    requires mine { AreMine H.mine queue.old.begun.items }
    requires about { AreAbout question.now queue.old.begun.items }
    requires queued { IsQueued reader.old question.now (items_queued queue.old) false }
    requires some { 1 ≤ length (items_queued queue.old) }
    requires none { queue.old.worked.items ≡ [] }
    ensures kind { kind_of reader.new ≡ kind_of reader.old }
    ensures same { (taken_by reader.new ≡ taken_by reader.old) × (has_ended reader.new ≡ has_ended reader.old) }
    ensures written { written_by reader.new ≡ written_by reader.old }
    ensures mine { AreMine H.mine queue.new.begun.items }
    ensures about { AreAbout question.now queue.new.begun.items }
    ensures none { queue.new.worked.items ≡ [] }
    ensures count { OnOk result (given_by reader.new + length (items_queued queue.old) ≡ given_by reader.old + length (items_queued queue.new)) }
    ensures some { OnOk result (1 ≤ length queue.new.begun.items) }
    ensures queued { OnOk result (IsQueued reader.new question.now (items_queued queue.new) false) }
{
    let parts = hands.most_parts();
    let ahead = if parts <= 1 { 0 } else { MOST_ITEMS };
    let most = parts.saturating_mul(AHEAD).min(MOST_BEGUN);
    while queue.begun.is_empty() || are_free(parts, most, &queue.begun) {
        cut_more(alloc, ahead.max(1).min(queue.most), queue, reader)?;
        if queue.cut.is_empty() {
            return Ok(());
        }
        begin_cut(alloc, hands, question, queue)?;
    }
    cut_more(alloc, ahead.min(queue.most), queue, reader)
}

/// Ends the work on the first part.
fn end_first<H: Hands>(hands: &H, queue: &mut Queue)
    requires ready { H.ready hands.now }
    requires mine { AreMine H.mine queue.old.begun.items }
    requires some { 1 ≤ length queue.old.begun.items }
    requires none { queue.old.worked.items ≡ [] }
    ensures mine { AreMine H.mine queue.new.begun.items }
    ensures about { (question : Asked) → AreAbout question queue.old.begun.items → AreAbout question queue.new.begun.items }
    ensures cut { queue.new.cut ≡ queue.old.cut }
    ensures some { 1 ≤ length queue.new.worked.items }
    ensures size { length (items_queued queue.new) ≡ length (items_queued queue.old) }
    ensures queued { (question : Asked) (reader : ItemReader) → AreAbout question queue.old.begun.items → IsQueued reader question (items_queued queue.old) false → IsQueued reader question (items_queued queue.new) false }
{
    if let Some(part) = queue.begun.pop_front() {
        queue.worked = VecDeque::from(hands.end(part));
    }
}

/// Works on what is queued and on what is whole behind it, until the work on the first part has ended, where the work on no item has. Some
/// item is queued.
fn work_on<H: Hands>(
    alloc: Global,
    hands: &H,
    question: &Question,
    queue: &mut Queue,
    reader: &mut ItemReader,
) -> Result<(), NoMemory>
    requires ready { H.ready hands.now }
    requires mine { AreMine H.mine queue.old.begun.items }
    requires about { AreAbout question.now queue.old.begun.items }
    requires queued { IsQueued reader.old question.now (items_queued queue.old) false }
    requires some { 1 ≤ length (items_queued queue.old) }
    ensures kind { kind_of reader.new ≡ kind_of reader.old }
    ensures same { (taken_by reader.new ≡ taken_by reader.old) × (has_ended reader.new ≡ has_ended reader.old) }
    ensures written { written_by reader.new ≡ written_by reader.old }
    ensures mine { AreMine H.mine queue.new.begun.items }
    ensures about { AreAbout question.now queue.new.begun.items }
    ensures some { OnOk result (1 ≤ length queue.new.worked.items) }
    ensures count { OnOk result (given_by reader.new + length (items_queued queue.old) ≡ given_by reader.old + length (items_queued queue.new)) }
    ensures queued { OnOk result (IsQueued reader.new question.now (items_queued queue.new) false) }
{
    if !queue.worked.is_empty() {
        return Ok(());
    }
    fill(alloc, hands, question, queue, reader)?;
    end_first(hands, queue);
    if queue.cut.is_empty() {
        return Ok(());
    }
    begin_cut(alloc, hands, question, queue)
}

/// The work on the first item, where some item is queued. Where memory is refused, nothing is queued any more.
pub fn take_first<H: Hands>(
    alloc: Global,
    hands: &H,
    question: &Question,
    queue: &mut Queue,
    reader: &mut ItemReader,
) -> Result<Progress, NoMemory>
    requires ready { H.ready hands.now }
    requires mine { AreMine H.mine queue.old.begun.items }
    requires about { AreAbout question.now queue.old.begun.items }
    requires queued { IsQueued reader.old question.now (items_queued queue.old) false }
    requires some { 1 ≤ length (items_queued queue.old) }
    ensures kind { kind_of reader.new ≡ kind_of reader.old }
    ensures same { (taken_by reader.new ≡ taken_by reader.old) × (has_ended reader.new ≡ has_ended reader.old) }
    ensures written { written_by reader.new ≡ written_by reader.old }
    ensures mine { AreMine H.mine queue.new.begun.items }
    ensures about { AreAbout question.now queue.new.begun.items }
    ensures work { IfOk result (IsWorkAt question.now (items_by (kind_of reader.old) (taken_by reader.old)) (given_from reader.old queue.old)) }
    ensures count { OnOk result (given_by reader.new + length (items_queued queue.old) ≡ given_by reader.old + length (items_queued queue.new) + 1) }
    ensures queued { OnOk result (IsQueued reader.new question.now (items_queued queue.new) false) }
    ensures refused { OnErr result (items_queued queue.new ≡ []) }
{
    let Ok(()) = work_on(alloc, hands, question, queue, reader) else {
        let left = mem::replace(queue, nothing_queued(alloc));
        end_all(hands, left.begun);
        return Err(NoMemory);
    };
    match queue.worked.pop_front() {
        Some(progress) => Ok(progress),
        None => unreachable!(),
    }
}
