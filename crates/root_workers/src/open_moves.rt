//! Which root moves of a round are still to be searched.

ghost use Rattle.std.specs.Prelude.{◌<◌};

use std::alloc::Global;
use std::sync::atomic::{AtomicBool, Ordering};

/// Which root moves of a round are still to be searched, as its workers tell one another while they search. Nothing that is
/// answered stands on it: it says to workers that are done where they can help.
#[derive(Drop)]
pub struct OpenMoves {
    closed: Vec<AtomicBool>,
}

impl OpenMoves {
    /// None is open. It takes no memory.
    pub(crate) fn none(alloc: Global) -> OpenMoves {
        OpenMoves {
            closed: Vec::new(alloc),
        }
    }

    /// So many moves, all of them open; none where memory is refused.
    pub(crate) fn all(alloc: Global, count: usize) -> OpenMoves {
        let Ok(mut closed) = Vec::with_capacity(alloc, count) else {
            return OpenMoves::none(alloc);
        };
        for _ in 0..count {
            let Ok(()) = closed.push(AtomicBool::new(false)) else {
                return OpenMoves::none(alloc);
            };
        }
        OpenMoves { closed }
    }

    /// Whether there are no moves with which anybody could help.
    pub(crate) fn is_none(&self) -> bool {
        self.closed.is_empty()
    }

    /// Whether the move with a number is open.
    pub(crate) fn is_open(&self, index: usize) -> bool {
        match self.closed.get(index) {
            Some(closed) => !closed.load(Ordering::SeqCst),
            None => false,
        }
    }

    /// The move with a number is no longer to be searched.
    pub(crate) fn close(&self, index: usize) {
        match self.closed.get(index) {
            Some(closed) => closed.store(true, Ordering::SeqCst),
            None => {}
        }
    }

    /// Nor are the moves of the worker with a number among `count` workers, whose part of the round has ended.
    pub(crate) fn close_part(&self, number: u32, count: u32)
        requires { 0 < count }
    {
        for index in 0..self.closed.len() {
            if index % count as usize == number as usize {
                self.close(index);
            }
        }
    }
}
