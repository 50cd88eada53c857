//! Texts of games against those of another program.

mod made_texts;

use made_texts::TEXTS;
use random_games::games_text;
use std::alloc::Global;
use std::process::Abort;

/// Asserts the text of a seed.
fn is_made(rt: &impl Abort, alloc: Global, seed: u64, count: u32, want: &str) {
    assert!(rt; 1 <= count && count <= 1000);
    let text = games_text(alloc, seed, count).expect(rt, "memory");
    assert!(rt; text.items() == want.as_bytes(), "for seed {seed}");
}

#[test]
fn texts_are_those_of_another_program(rt: HostRuntime) {
    for (seed, count, want) in TEXTS {
        is_made(&rt, rt.alloc(), *seed, *count, want);
    }
}
