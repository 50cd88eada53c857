//! The word `all` behind `--workers`.

use std::alloc::Global;
use std::io;
use std::thread::{self, Threads};

/// The most workers that a run takes.
const MOST_WORKERS: usize = 16;

/// How many workers `all` means: one for each processor that the program may use, at most 16; two where the system does not tell.
fn all_workers(rt: &impl Threads) -> usize {
    match thread::available_parallelism(rt) {
        Ok(count) => count.get().min(MOST_WORKERS),
        Err(_) => 2,
    }
}

/// The words, with a number in place of `all` behind `--workers`. The only error is want of memory.
pub fn with_numbers(
    rt: &impl Threads,
    alloc: Global,
    words: Vec<String>,
) -> io::Result<Vec<String>> {
    let mut numbered = Vec::new(alloc);
    let mut behind = false;
    for word in words {
        let next = if behind && word.as_str() == "all" {
            format!(in alloc; "{}", all_workers(rt))?
        } else if word.as_str() == "--workers=all" {
            format!(in alloc; "--workers={}", all_workers(rt))?
        } else {
            word
        };
        behind = next.as_str() == "--workers";
        numbered.push(next)?;
    }
    Ok(numbered)
}
