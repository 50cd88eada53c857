//! What the words allow a search to spend, which no program shows. Which words are in the language, and where others leave it, are rows of
//! data (`rows/words.txt`, `rows/ordered.txt`).

use cha_words::{Order, parse, usage_fault};
use std::alloc::Global;
use std::process::Abort;

/// Each row is words between single spaces, and then what they allow: the positions expanded for a side, the plies of the rounds, the
/// workers, and the rows of each shard.
const ROWS: &[(&str, [u32; 4])] = &[
    ("adjudicate", [20000, 4, 2, 4096]),
    ("position", [20000, 4, 2, 4096]),
    ("adjudicate --certs", [20000, 4, 2, 4096]),
    ("position --certs", [20000, 4, 2, 4096]),
    ("position --budget=007 --certs", [7, 4, 2, 4096]),
    ("position --budget 007 --certs", [7, 4, 2, 4096]),
    ("position --certs --budget=007", [7, 4, 2, 4096]),
    ("adjudicate --workers 1", [20000, 4, 1, 4096]),
    ("adjudicate --workers 16", [20000, 4, 16, 4096]),
    ("adjudicate --workers=16", [20000, 4, 16, 4096]),
    ("adjudicate --budget 1", [1, 4, 2, 4096]),
    ("adjudicate --budget 100000", [100000, 4, 2, 4096]),
    ("adjudicate --depth 2", [20000, 2, 2, 4096]),
    ("adjudicate --depth=8", [20000, 8, 2, 4096]),
    ("adjudicate --entries 1", [20000, 4, 2, 1]),
    ("adjudicate --entries 65536", [20000, 4, 2, 65536]),
    (
        "adjudicate --entries 9 --depth 3 --workers 5 --budget 70",
        [70, 3, 5, 9],
    ),
    (
        "position --certs --entries=9 --depth=3 --workers=5 --budget=70",
        [70, 3, 5, 9],
    ),
    ("position --budget 00000000000000000070", [70, 4, 2, 4096]),
    ("gen 7 20", [20000, 4, 1, 4096]),
    ("gen 7 20 --budget 500", [500, 4, 1, 4096]),
    ("gen --budget 500 7 20", [500, 4, 1, 4096]),
    ("gen 7 --budget=500 20", [500, 4, 1, 4096]),
    (
        "gen --depth 8 7 --workers 2 20 --entries=65536",
        [20000, 8, 2, 65536],
    ),
    ("gen 0 1", [20000, 4, 1, 4096]),
    ("gen 007 0001000", [20000, 4, 1, 4096]),
    ("gen 18446744073709551615 1000", [20000, 4, 1, 4096]),
    ("gen 00000000000000000000 1", [20000, 4, 1, 4096]),
    ("adjudicate --json", [20000, 4, 2, 4096]),
    ("position --san", [20000, 4, 2, 4096]),
    ("position --fens --json --certs", [20000, 4, 2, 4096]),
    ("adjudicate --json --san --fens", [20000, 4, 2, 4096]),
    ("adjudicate --flagged-draws", [20000, 4, 2, 4096]),
    (
        "adjudicate --flagged-draws --budget=5 --json --certs",
        [5, 4, 2, 4096],
    ),
    ("correct", [20000, 4, 2, 4096]),
    ("correct --changed", [20000, 4, 2, 4096]),
    ("correct --flagged-draws", [20000, 4, 2, 4096]),
    ("correct --changed --flagged-draws", [20000, 4, 2, 4096]),
    (
        "correct --entries 9 --depth=3 --changed --workers 16 --budget=100000",
        [100000, 3, 16, 9],
    ),
];

/// The same of words put together at random, as a second reader of the language, in Python, takes them.
const RANDOM_ROWS: &[(&str, [u32; 4])] = &[
    (
        "adjudicate --certs --depth=008 --entries=1",
        [20000, 8, 2, 1],
    ),
    ("gen 123456789 1", [20000, 4, 1, 4096]),
    ("gen 7 --budget 1 --workers=2 1000", [1, 4, 2, 4096]),
    ("position --workers=01", [20000, 4, 1, 4096]),
    ("position --depth=8 --entries=0064", [20000, 8, 2, 64]),
    ("adjudicate --entries 001", [20000, 4, 2, 1]),
    ("adjudicate --workers=1", [20000, 4, 1, 4096]),
    ("position --budget=1 --depth 8 --entries 1", [1, 8, 2, 1]),
    ("gen 18446744073709551615 1", [20000, 4, 1, 4096]),
    ("adjudicate --depth=2 --budget 5", [5, 2, 2, 4096]),
    ("position --workers=7 --entries 1", [20000, 4, 7, 1]),
    (
        "adjudicate --workers 16 --entries 65536 --certs",
        [20000, 4, 16, 65536],
    ),
    ("adjudicate --budget=5 --entries=1", [5, 4, 2, 1]),
    ("adjudicate --workers 2 --budget 20000", [20000, 4, 2, 4096]),
    ("position --budget 100000", [100000, 4, 2, 4096]),
    ("position --depth=4 --entries=1", [20000, 4, 2, 1]),
    ("adjudicate --budget=0100", [100, 4, 2, 4096]),
    (
        "adjudicate --certs --budget 020000 --workers 7 --entries 64",
        [20000, 4, 7, 64],
    ),
    (
        "adjudicate --entries=001 --certs --budget 5 --depth 8",
        [5, 8, 2, 1],
    ),
    (
        "adjudicate --entries 00065536 --workers=16 --budget 100000",
        [100000, 4, 16, 65536],
    ),
    (
        "adjudicate --budget=1 --entries 1 --certs --workers 0001",
        [1, 4, 1, 1],
    ),
    ("adjudicate --certs --workers 16", [20000, 4, 16, 4096]),
    ("position --workers 2 --budget=100", [100, 4, 2, 4096]),
    (
        "adjudicate --depth 4 --entries=64 --workers=1 --certs",
        [20000, 4, 1, 64],
    ),
    ("position --entries 64 --depth=8", [20000, 8, 2, 64]),
    (
        "adjudicate --entries=64 --workers=16 --depth=8 --certs",
        [20000, 8, 16, 64],
    ),
    ("position --entries=65536", [20000, 4, 2, 65536]),
    ("position --workers=2", [20000, 4, 2, 4096]),
    ("gen --budget 5 123456789 1000", [5, 4, 1, 4096]),
    ("position --budget=000100 --entries=1", [100, 4, 2, 1]),
    (
        "adjudicate --depth=4 --budget 100 --workers=001",
        [100, 4, 1, 4096],
    ),
    (
        "adjudicate --workers=7 --entries 65536 --budget 20000",
        [20000, 4, 7, 65536],
    ),
    ("adjudicate --depth 0008", [20000, 8, 2, 4096]),
    ("position --workers 7", [20000, 4, 7, 4096]),
    ("position --certs --budget=100", [100, 4, 2, 4096]),
    ("position --certs --depth 2", [20000, 2, 2, 4096]),
    (
        "position --entries 1 --budget 020000 --workers 2 --certs",
        [20000, 4, 2, 1],
    ),
    (
        "gen --entries 0001 --depth 8 7 --budget 100000 1000",
        [100000, 8, 1, 1],
    ),
    ("adjudicate --certs --workers 001", [20000, 4, 1, 4096]),
    ("position --depth 4 --workers=7", [20000, 4, 7, 4096]),
    ("gen --depth 2 --budget=100 7 1", [100, 2, 1, 4096]),
    ("adjudicate --budget 100 --depth=8", [100, 8, 2, 4096]),
    ("position --depth 2", [20000, 2, 2, 4096]),
    (
        "gen --depth=2 --entries=1 0 --workers 7 20",
        [20000, 2, 7, 1],
    ),
    ("gen 0 --workers=7 1", [20000, 4, 7, 4096]),
    ("position --budget 01 --depth=008", [1, 8, 2, 4096]),
    ("adjudicate --certs --entries 65536", [20000, 4, 2, 65536]),
    ("adjudicate --workers 16 --certs", [20000, 4, 16, 4096]),
    ("position --entries 64", [20000, 4, 2, 64]),
    ("position --workers=16", [20000, 4, 16, 4096]),
    (
        "adjudicate --entries=1 --budget 20000 --depth=4",
        [20000, 4, 2, 1],
    ),
    ("adjudicate --certs --entries 64", [20000, 4, 2, 64]),
    ("gen 7 --entries 1 --depth 04 1000", [20000, 4, 1, 1]),
    ("position --budget=5 --depth=8 --entries 1", [5, 8, 2, 1]),
    ("adjudicate --certs --entries 1", [20000, 4, 2, 1]),
    ("adjudicate --depth=002", [20000, 2, 2, 4096]),
    ("position --budget=20000 --workers=7", [20000, 4, 7, 4096]),
    ("gen 7 1000", [20000, 4, 1, 4096]),
    ("adjudicate --depth=2", [20000, 2, 2, 4096]),
    ("adjudicate --entries 65536 --budget 1", [1, 4, 2, 65536]),
    ("position --depth 8 --entries=1", [20000, 8, 2, 1]),
    (
        "position --entries 1 --certs --workers=002 --budget=100",
        [100, 4, 2, 1],
    ),
    ("position --entries=65536 --budget 100", [100, 4, 2, 65536]),
    (
        "adjudicate --workers 7 --entries 65536",
        [20000, 4, 7, 65536],
    ),
    ("adjudicate --depth 8 --workers 1", [20000, 8, 1, 4096]),
    ("gen 7 1", [20000, 4, 1, 4096]),
    ("position --certs --entries=0064", [20000, 4, 2, 64]),
    ("gen 18446744073709551615 20", [20000, 4, 1, 4096]),
    (
        "position --budget 100 --depth 4 --workers 7 --certs",
        [100, 4, 7, 4096],
    ),
    ("adjudicate --depth=04 --workers=1", [20000, 4, 1, 4096]),
    ("position --depth=8", [20000, 8, 2, 4096]),
    ("gen 7 --workers 1 --depth 2 1000", [20000, 2, 1, 4096]),
    ("position --budget 100000 --workers 1", [100000, 4, 1, 4096]),
    ("position --workers 0001 --certs", [20000, 4, 1, 4096]),
    ("gen --budget=5 --entries=1 7 1", [5, 4, 1, 1]),
    ("position --budget=100", [100, 4, 2, 4096]),
    ("gen 123456789 --workers=7 1", [20000, 4, 7, 4096]),
    ("adjudicate --entries=65536 --certs", [20000, 4, 2, 65536]),
    ("adjudicate --workers 2 --entries 00064", [20000, 4, 2, 64]),
    ("position --budget=100 --depth=002", [100, 2, 2, 4096]),
    ("adjudicate --workers 1 --entries 1", [20000, 4, 1, 1]),
    ("adjudicate --workers=2 --entries 1", [20000, 4, 2, 1]),
    ("position --entries 65536 --budget=5", [5, 4, 2, 65536]),
    (
        "adjudicate --budget 5 --depth=8 --entries 1 --certs",
        [5, 8, 2, 1],
    ),
    ("position --entries 1 --budget 5", [5, 4, 2, 1]),
    (
        "adjudicate --depth 8 --certs --entries 065536 --workers=7",
        [20000, 8, 7, 65536],
    ),
    (
        "adjudicate --workers 1 --depth=4 --entries 65536",
        [20000, 4, 1, 65536],
    ),
    ("position --certs --workers=2", [20000, 4, 2, 4096]),
    ("adjudicate --workers 2 --depth=2", [20000, 2, 2, 4096]),
];

/// The words between single spaces.
fn words_of(rt: &impl Abort, alloc: Global, line: &str) -> Vec<String> {
    let mut words = Vec::new(alloc);
    for word in line.split(' ') {
        let word = String::from_str(alloc, word).expect(rt, "memory");
        words.push(word).expect(rt, "memory");
    }
    words
}

/// What an order allows, if it needs a search.
fn allowed(order: &Order) -> Option<[u32; 4]> {
    let limits = order.limits()?;
    Some([
        limits.budget(),
        u32::from(limits.depth()),
        limits.workers(),
        limits.entries(),
    ])
}

/// Asserts that words are in the language, and what they allow.
fn allow(rt: &impl Abort, alloc: Global, line: &str, want: [u32; 4]) {
    let words = words_of(rt, alloc, line);
    assert!(rt; usage_fault(words.as_slice()).is_none(), "{line}");
    let order = parse(words.as_slice()).expect(rt, line);
    assert!(rt; allowed(&order) == Some(want), "{line}");
}

/// Asserts what the words of a table allow.
fn all_allow(rt: &impl Abort, alloc: Global, rows: &[(&str, [u32; 4])]) {
    for (line, want) in rows {
        allow(rt, alloc, line, *want);
    }
}

#[test]
fn words_allow_what_the_language_says(rt: HostRuntime) {
    all_allow(&rt, rt.alloc(), ROWS);
    all_allow(&rt, rt.alloc(), RANDOM_ROWS);
}
