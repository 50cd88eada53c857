//! Threads that keep the processors busy while a test runs.

use std::alloc::{AllocError, Global};
use std::sync::Arc;
use std::sync::atomic::{AtomicBool, Ordering};
use std::thread;
use std::thread::{JoinHandle, Threads};

/// Threads that count until they are told to end.
#[derive(Drop)]
pub struct Busy {
    told: Arc<AtomicBool, Global>,
    threads: Vec<JoinHandle<u64>>,
}

/// Counts until it is told to end.
fn count(told: &AtomicBool) -> u64 {
    for steps in 0..u64::MAX {
        if told.load(Ordering::SeqCst) {
            return steps;
        }
    }
    u64::MAX
}

/// How many processors there are, where that is known, else 4.
fn processors(rt: &impl Threads) -> usize {
    match thread::available_parallelism(rt) {
        Ok(count) => count.get(),
        Err(_) => 4,
    }
}

impl Busy {
    /// Starts a thread for each processor.
    pub fn start(rt: &impl Threads, alloc: Global) -> Result<Busy, AllocError> {
        let told = Arc::new(alloc, AtomicBool::new(false))?;
        let mut threads = Vec::new(alloc);
        for _ in 0..processors(rt) {
            let theirs = Arc::try_clone(&told)?;
            threads.push(thread::spawn(rt, move || count(&theirs))?)?;
        }
        Ok(Busy { told, threads })
    }

    /// Tells the threads to end, waits for them, and answers whether one was busy.
    pub fn end(self, rt: &impl Threads) -> bool {
        let Busy { told, threads } = self;
        told.store(true, Ordering::SeqCst);
        let mut one = false;
        for child in threads {
            if 0 < child.join(rt) {
                one = true;
            }
        }
        one
    }
}
