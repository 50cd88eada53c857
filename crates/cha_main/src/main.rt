//! The program `cha`: the call `run` over standard input and standard output.
//!
//! `usage` has what is said of words that order nothing, and `processors` what `all` means behind `--workers`.
#![tactic(auto)]

mod processors;
mod usage;

use adjudicate::{Status, run};
use cha_outside::{ReadFrom, WriteTo};
use cha_words::usage_fault;
use processors::with_numbers;
use std::env;
use std::io::{self, ErrorKind};
use std::process::ExitCode;

/// What the program says to standard error of how it ended. What is wrong with its words is said before.
fn said_of(status: Status) -> Option<&'static str> {
    match status {
        Status::Done | Status::NotAccepted | Status::Usage => None,
        Status::ReadFault => Some("cannot read the input"),
        Status::WriteFault => Some("cannot write the output"),
        Status::TooLong => Some("the input is longer than 268435456 bytes"),
        Status::NoMemory => Some("out of memory"),
    }
}

/// How the program ends where its words cannot be had: memory was refused, or one of them is not UTF-8.
fn without_words(rt: &HostRuntime, error: &io::Error) -> Status {
    match error.kind() {
        ErrorKind::OutOfMemory => Status::NoMemory,
        _ => {
            let _ = eprintln!(rt; "a word is not UTF-8");
            Status::Usage
        }
    }
}

fn main(rt: HostRuntime) -> ExitCode {
    let alloc = rt.alloc();
    let status = match env::args(&rt) {
        Ok(args) => match args.skip(1).collect::<Vec<String>>(alloc) {
            Ok(given) => match with_numbers(&rt, alloc, given) {
                Ok(words) => {
                    let mut source = ReadFrom::new(rt.stdin());
                    let mut sink = WriteTo::new(rt.stdout());
                    let mut notes = WriteTo::new(rt.stderr());
                    if let Some(fault) = usage_fault(words.as_slice()) {
                        let _ = usage::say_fault(&rt, words.as_slice(), fault);
                    }
                    run(
                        &rt,
                        alloc,
                        words.as_slice(),
                        &mut source,
                        &mut sink,
                        &mut notes,
                    )
                }
                Err(_) => Status::NoMemory,
            },
            Err(_) => Status::NoMemory,
        },
        Err(error) => without_words(&rt, &error),
    };
    if let Some(line) = said_of(status) {
        let _ = eprintln!(rt; "{line}");
    }
    ExitCode::from(status.number())
}
