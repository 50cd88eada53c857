//! Parts of an input, whose items are worked on together.

ghost use Rattle.std.specs.Prelude.{◌≡◌, length};
ghost use Rattle.side_by_side.specs.Progresses.{AreAsked, AllGoOn};

use crate::ahead::advance;
use crate::progress::Progress;
use cha_outcome::Question;
use std::alloc::Global;
use std::mem::ManuallyDrop;
use std::snapshot::Snapshot;
use std::sync::Arc;
use std::sync::atomic::{AtomicBool, Ordering};
use std::thread::{Promise, PromisedHandle};

/// What a thread promises that works on items: the work on each goes on.
#[derive(Drop)]
pub struct GoOn {
    /// What is asked about each.
    pub question: Question,
    /// The items, as they were given to it.
    pub items: Snapshot<Vec<Progress>>,
}

impl Promise<Vec<Progress>> for GoOn {
    ghost use Rattle.std.specs.Prelude.{◌≡◌, length};
    ghost use Rattle.side_by_side.specs.Progresses.{AllGoOn};

    ghost kept_by = { λ p worked. (length worked.items ≡ length p.items.value.items) × AllGoOn p.question p.items.value.items worked.items };
}

/// The work of a thread. Where memory was there for it, the thread tells when this has ended.
#[derive(Drop)]
pub struct PartTask {
    /// What it promises.
    pub handle: PromisedHandle<Vec<Progress>, GoOn>,
    /// Whether it has told that its work has ended.
    pub told: Option<Arc<AtomicBool, Global>>,
}

/// Items that stand behind one another and are worked on together.
#[derive(Drop)]
pub enum Part {
    /// Nobody works on them.
    Here(Vec<Progress>),
    /// A thread works on them. It is joined where the part is ended, and never left to itself.
    There(ManuallyDrop<PartTask>),
}

impl Part {
    /// Whether the work on it is known to have ended. Nobody waits for the answer.
    pub fn has_ended(&self) -> bool {
        match self {
            Part::Here(_) => false,
            Part::There(task) => match &task.told {
                Some(told) => told.load(Ordering::SeqCst),
                None => false,
            },
        }
    }
}

/// What a thread tells by that its work has ended: for the thread, and for who asks. None where memory was refused.
pub fn bell(
    alloc: Global,
) -> (
    Option<Arc<AtomicBool, Global>>,
    Option<Arc<AtomicBool, Global>>,
) {
    let Ok(told) = Arc::new(alloc, AtomicBool::new(false)) else {
        return (None, None);
    };
    match Arc::try_clone(&told) {
        Ok(theirs) => (Some(theirs), Some(told)),
        Err(_) => (None, None),
    }
}

/// Reads and judges each item, as far as that needs no crew, and tells that this has ended.
pub fn advance_all(
    alloc: Global,
    question: Question,
    items: Vec<Progress>,
    told: Option<Arc<AtomicBool, Global>>,
) -> Vec<Progress>
    requires about { AreAsked question items.items }
    ensures size { length result.items ≡ length items.items }
    ensures same { AllGoOn question items.items result.items }
{
    let mut worked = items;
    for progress in worked.iter_mut() {
        advance(alloc, &question, progress);
    }
    if let Some(told) = &told {
        told.store(true, Ordering::SeqCst);
    }
    worked
}
