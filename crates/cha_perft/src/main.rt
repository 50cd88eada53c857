//! Counts lines of legal moves, to compare with published numbers.
//!
//! Each line of standard input is a position in FEN, a semicolon and a depth, as `4k3/8/8/8/8/8/8/4K2R w K -;2`. For each
//! the program prints how many lines of 1, 2, .. moves up to that depth begin in the position. The depth is 0 to 255. A
//! depth of 0 asks for the lines of no move: there is one in each position, so that `1` is printed.
//!
//! With no word it counts the last moves of lines and does not make them; with the word `made` it makes every move of every line.
//!
//! It ends at the first line that it cannot answer. The status is 0 where all are answered, 1 where the words, the bytes
//! or a line are not of this form or a count was not made or printed, and 2 where the input could not be read. For 1 and 2
//! a line on standard error says what is wrong.
#![tactic(auto)]

mod counting;
mod counting_made;
mod questions;

use cha_outside::{MOST_BYTES, ReadEnd, ReadFrom, read_all};
use questions::{Manner, answer, manner_of, said_of};
use std::alloc::Global;
use std::env;
use std::process::ExitCode;

/// The manner of counting that the program's words name. None says that they name none.
fn manner(rt: &HostRuntime, alloc: Global) -> Option<Manner> {
    let words = env::args(rt)
        .ok()?
        .skip(1)
        .collect::<Vec<String>>(alloc)
        .ok()?;
    manner_of(words.as_slice())
}

/// What is said of an input that was not read to its end.
fn said_of_input(end: ReadEnd) -> &'static str {
    match end {
        ReadEnd::ReadFault => "cannot read the input",
        ReadEnd::TooLong => "the input is longer than 268435456 bytes",
        ReadEnd::NoMemory => "out of memory",
    }
}

/// Says on standard error what is wrong, and gives the status.
fn ended(rt: &HostRuntime, what: &str, status: u8) -> ExitCode {
    let _ = eprintln!(rt; "{what}");
    ExitCode::from(status)
}

fn main(rt: HostRuntime) -> ExitCode {
    let alloc = rt.alloc();
    let Some(manner) = manner(&rt, alloc) else {
        return ended(&rt, "usage: cha_perft [made]", 1);
    };
    let mut source = ReadFrom::new(rt.stdin());
    let bytes = match read_all(alloc, &mut source, MOST_BYTES) {
        Ok(bytes) => bytes,
        Err(end) => return ended(&rt, said_of_input(end), 2),
    };
    let Ok(text) = str::from_utf8(&bytes) else {
        return ended(&rt, "the input is not UTF-8", 1);
    };
    for line in text.lines() {
        if let Err(unanswered) = answer(&rt, alloc, manner, line) {
            let _ = eprintln!(rt; "{}: {line}", said_of(unanswered));
            return ExitCode::from(1);
        }
    }
    ExitCode::SUCCESS
}

#[cfg(test)]
mod tests;
