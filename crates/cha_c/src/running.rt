//! A whole run into memory of its own.

ghost use Rattle.std.specs.Prelude.{◌≡◌, ◌↔◌, [], IfSome, IsNone};
ghost use Rattle.cha_words.specs.Language.{order};
ghost use Rattle.cha_c.specs.Answers.{Ran};

use crate::grown::Grown;
use crate::slice::Slice;
use adjudicate::{Status, run_alone};
use std::alloc::Global;

/// How a run ended, and what it wrote.
#[derive(Drop)]
pub struct Report {
    pub status: Status,
    pub text: Grown,
}

/// Does what the words order with an input, and keeps what is written.
pub fn report_on(alloc: Global, words: &[String], input: &[u8]) -> Report
    ensures usage { (result.status ≡ Status.Usage) ↔ IsNone (order words.now) }
    ensures untouched { result.status ≡ Status.Usage → result.text.bytes ≡ [] }
    ensures ran { IfSome (order words.now) (λ o. Ran o input.now result.status result.text) }
{
    let mut text = Grown::new(alloc);
    let mut source = Slice::new(input);
    let mut notes = Grown::new(alloc);
    let status = run_alone(alloc, words, &mut source, &mut text, &mut notes);
    Report { status, text }
}
