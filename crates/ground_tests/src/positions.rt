//! Texts in FEN: the examples of the PGN standard, positions whose moves are counted in many places, and texts at the
//! edges of the form.

use cha_fen::{FenFault, read, write};
use cha_list::{Text, text_of};
use std::alloc::Global;
use std::process::Abort;
use std::test::Fail;

/// What is written of the position that a text gives, or the name of the fault.
fn rewritten(alloc: Global, text: &[u8]) -> Result<Text, Fail> {
    let mut answer = Text::new(alloc);
    match read(text) {
        Ok(position) => answer.append(write(alloc, &position)?.items())?,
        Err(FenFault::Shape) => answer.append(b"shape")?,
        Err(FenFault::Kings) => answer.append(b"kings")?,
        Err(FenFault::PawnRank) => answer.append(b"pawn rank")?,
        Err(FenFault::OpponentInCheck) => answer.append(b"opponent in check")?,
    }
    Ok(answer)
}

/// 1 to 5 are 16.1.4 of the PGN standard; behind them are the positions from which counts of moves are published.
const KNOWN: &[(&str, &str)] = &[
    (
        "rnbqkbnr/pppppppp/8/8/8/8/PPPPPPPP/RNBQKBNR w KQkq - 0 1",
        "rnbqkbnr/pppppppp/8/8/8/8/PPPPPPPP/RNBQKBNR w KQkq -",
    ),
    (
        "rnbqkbnr/pppppppp/8/8/4P3/8/PPPP1PPP/RNBQKBNR b KQkq e3 0 1",
        "rnbqkbnr/pppppppp/8/8/4P3/8/PPPP1PPP/RNBQKBNR b KQkq e3",
    ),
    (
        "rnbqkbnr/pp1ppppp/8/2p5/4P3/8/PPPP1PPP/RNBQKBNR w KQkq c6 0 2",
        "rnbqkbnr/pp1ppppp/8/2p5/4P3/8/PPPP1PPP/RNBQKBNR w KQkq c6",
    ),
    (
        "rnbqkbnr/pp1ppppp/8/2p5/4P3/5N2/PPPP1PPP/RNBQKB1R b KQkq - 1 2",
        "rnbqkbnr/pp1ppppp/8/2p5/4P3/5N2/PPPP1PPP/RNBQKB1R b KQkq -",
    ),
    (
        "4k3/8/8/8/8/8/4P3/4K3 w - - 5 39",
        "4k3/8/8/8/8/8/4P3/4K3 w - -",
    ),
    (
        "r3k2r/p1ppqpb1/bn2pnp1/3PN3/1p2P3/2N2Q1p/PPPBBPPP/R3K2R w KQkq - 0 1",
        "r3k2r/p1ppqpb1/bn2pnp1/3PN3/1p2P3/2N2Q1p/PPPBBPPP/R3K2R w KQkq -",
    ),
    (
        "8/2p5/3p4/KP5r/1R3p1k/8/4P1P1/8 w - - 0 1",
        "8/2p5/3p4/KP5r/1R3p1k/8/4P1P1/8 w - -",
    ),
    (
        "r3k2r/Pppp1ppp/1b3nbN/nP6/BBP1P3/q4N2/Pp1P2PP/R2Q1RK1 w kq - 0 1",
        "r3k2r/Pppp1ppp/1b3nbN/nP6/BBP1P3/q4N2/Pp1P2PP/R2Q1RK1 w kq -",
    ),
    (
        "rnbq1k1r/pp1Pbppp/2p5/8/2B5/8/PPP1NnPP/RNBQK2R w KQ - 1 8",
        "rnbq1k1r/pp1Pbppp/2p5/8/2B5/8/PPP1NnPP/RNBQK2R w KQ -",
    ),
    (
        "r4rk1/1pp1qppp/p1np1n2/2b1p1B1/2B1P1b1/P1NP1N2/1PP1QPPP/R4RK1 w - - 0 10",
        "r4rk1/1pp1qppp/p1np1n2/2b1p1B1/2B1P1b1/P1NP1N2/1PP1QPPP/R4RK1 w - -",
    ),
];

/// Rights and targets that fit no man are dropped.
const DROPPED: &[(&str, &str)] = &[
    (
        "4k3/8/8/8/8/8/8/4K3 w KQkq e6 0 1",
        "4k3/8/8/8/8/8/8/4K3 w - -",
    ),
    (
        "r3k2r/8/8/8/8/8/8/R3K2R w qkQK -",
        "r3k2r/8/8/8/8/8/8/R3K2R w KQkq -",
    ),
    (
        "r3k2r/8/8/8/8/8/8/R3K3 w KQkq -",
        "r3k2r/8/8/8/8/8/8/R3K3 w Qkq -",
    ),
    (
        "r3k2r/8/8/8/8/8/8/R4K1R w KQkq -",
        "r3k2r/8/8/8/8/8/8/R4K1R w kq -",
    ),
    (
        "R3kb1r/8/8/8/8/8/8/4K2R b Kkq -",
        "R3kb1r/8/8/8/8/8/8/4K2R b Kk -",
    ),
    (
        "4k3/8/5p2/p1p1pPp1/P1P1P1P1/8/8/4K3 w - g6",
        "4k3/8/5p2/p1p1pPp1/P1P1P1P1/8/8/4K3 w - g6",
    ),
    (
        "4k3/8/5p2/p1p1pPp1/P1P1P1P1/8/8/4K3 w - e6",
        "4k3/8/5p2/p1p1pPp1/P1P1P1P1/8/8/4K3 w - e6",
    ),
    (
        "4k3/8/5p2/p1p1pPp1/P1P1P1P1/8/8/4K3 w - f6",
        "4k3/8/5p2/p1p1pPp1/P1P1P1P1/8/8/4K3 w - -",
    ),
    (
        "4k3/8/5p2/p1p1pPp1/P1P1P1P1/8/8/4K3 w - g3",
        "4k3/8/5p2/p1p1pPp1/P1P1P1P1/8/8/4K3 w - -",
    ),
    (
        "4k3/6p1/8/6p1/8/8/8/4K3 w - g6",
        "4k3/6p1/8/6p1/8/8/8/4K3 w - -",
    ),
    (
        "4k3/8/8/8/6P1/8/8/4K3 b - g3 0 1",
        "4k3/8/8/8/6P1/8/8/4K3 b - g3",
    ),
    (
        "4k3/8/8/8/6p1/8/8/4K3 b - g3 0 1",
        "4k3/8/8/8/6p1/8/8/4K3 b - -",
    ),
];

/// The first of several faults is answered.
const FAULTS: &[(&str, &str)] = &[
    ("8/8/8/8/8/8/8/8 w - -", "kings"),
    ("4k3/8/8/8/8/8/8/8 w - -", "kings"),
    ("4k3/8/8/8/8/8/8/2K1K3 w - -", "kings"),
    ("k3k3/8/8/8/8/8/8/4K3 b - -", "kings"),
    ("4k2P/8/8/8/8/8/8/4K3 w - -", "pawn rank"),
    ("4k3/8/8/8/8/8/8/p3K3 b - -", "pawn rank"),
    ("4k3/8/8/8/8/8/8/4RK2 w - -", "opponent in check"),
    ("4k3/8/8/8/8/8/8/4RK2 b - -", "4k3/8/8/8/8/8/8/4RK2 b - -"),
    ("8/8/8/8/8/8/8/3Kk3 w - -", "opponent in check"),
    ("8/8/8/8/8/8/8/3Kk3 b - -", "opponent in check"),
    ("P7/8/8/8/8/8/8/4K3 w - -", "kings"),
    ("P3k3/8/8/8/8/8/8/4RK2 w - -", "pawn rank"),
    ("4kk2/8/8/8/8/8/8/4RK2 w - -", "kings"),
    ("P7/8/8/8/8/8/8/4K3 w - e9", "shape"),
    ("4k3/8/8/8/8/8/8/4RK2 w - - x", "shape"),
];

/// Accepted forms of one position.
const ACCEPTED: &[&str] = &[
    "4k3/8/8/8/8/8/8/4K3 b - -",
    "4k3/8/8/8/8/8/8/4K3 b - - 0",
    "4k3/8/8/8/8/8/8/4K3 b - - 0 1",
    "4k3/8/8/8/8/8/8/4K3 b - - 00 99999999999999999999999999",
    "  4k3/8/8/8/8/8/8/4K3 b - -  ",
    "4k3/8/8/8/8/8/8/4K3\tb\t-\t-\t0\t1\t",
    "\t 4k3/8/8/8/8/8/8/4K3 \t b  -\t\t- 12 34",
    "4k3/44/8/8/8/8/8/4K3 b - -",
    "4k12/2222/11111111/8/8/8/8/13K111 b - -",
    "4k3/8/8/8/8/8/8/4K3 b KQkq a1",
    "4k3/8/8/8/8/8/8/4K3 b q h8",
];

/// Refused forms.
const REFUSED: &[&str] = &[
    "",
    " \t ",
    "hello",
    "4k3/8/8/8/8/8/8/4K3",
    "4k3/8/8/8/8/8/8/4K3 w -",
    "4k3/8/8/8/8/8/8/4K3 w - - 0 1 1",
    "4k3/8/8/8/8/8/4K3 w - -",
    "4k3/8/8/8/8/8/8/8/4K3 w - -",
    "4k3/8/8/8/8/8/8/4K3/ w - -",
    "/4k3/8/8/8/8/8/8/4K3 w - -",
    "4k3/8/8//8/8/8/4K3 w - -",
    "4k4/8/8/8/8/8/8/4K3 w - -",
    "4k3/ppppppppp/8/8/8/8/8/4K3 w - -",
    "4k3/8/8/8/8/8/8/4K2 w - -",
    "4k3/9/8/8/8/8/8/4K3 w - -",
    "4k3/08/8/8/8/8/8/4K3 w - -",
    "4k3/7x/8/8/8/8/8/4K3 w - -",
    "4k3/7\u{e9}/8/8/8/8/8/4K3 w - -",
    "\u{feff}4k3/8/8/8/8/8/8/4K3 w - -",
    "4k3/8/8/8/8/8/8/4K3 W - -",
    "4k3/8/8/8/8/8/8/4K3 wb - -",
    "4k3/8/8/8/8/8/8/4K3 - - -",
    "4k3/8/8/8/8/8/8/4K3 w KK -",
    "4k3/8/8/8/8/8/8/4K3 w KQkqK -",
    "4k3/8/8/8/8/8/8/4K3 w K- -",
    "4k3/8/8/8/8/8/8/4K3 w -- -",
    "4k3/8/8/8/8/8/8/4K3 w A -",
    "4k3/8/8/8/8/8/8/4K3 w - e9",
    "4k3/8/8/8/8/8/8/4K3 w - e0",
    "4k3/8/8/8/8/8/8/4K3 w - i6",
    "4k3/8/8/8/8/8/8/4K3 w - E6",
    "4k3/8/8/8/8/8/8/4K3 w - e",
    "4k3/8/8/8/8/8/8/4K3 w - e66",
    "4k3/8/8/8/8/8/8/4K3 w - - x",
    "4k3/8/8/8/8/8/8/4K3 w - - 0 x",
    "4k3/8/8/8/8/8/8/4K3 w - - -1 1",
    "4k3/8/8/8/8/8/8/4K3 w - -\n",
    "4k3/8/8/8/8/8/8/4K3 w - - 0 1\r",
];

/// Asserts what is written of the position that a text gives, or the name of the fault.
fn is_rewritten(rt: &impl Abort, alloc: Global, text: &str, want: &str) -> Result<(), Fail> {
    assert_eq!(rt;
        rewritten(alloc, text.as_bytes())?.items(),
        want.as_bytes(),
        "at {text}"
    );
    Ok(())
}

#[test]
fn texts_are_read_and_written(rt: HostRuntime) -> Result<(), Fail> {
    for table in [KNOWN, DROPPED, FAULTS] {
        for (text, want) in table {
            is_rewritten(&rt, rt.alloc(), text, want)?;
        }
    }
    for text in ACCEPTED {
        is_rewritten(&rt, rt.alloc(), text, "4k3/8/8/8/8/8/8/4K3 b - -")?;
    }
    for text in REFUSED {
        is_rewritten(&rt, rt.alloc(), text, "shape")?;
    }
    Ok(())
}

/// Two kings, and blanks up to so many bytes.
#[test]
fn long_texts_are_read(rt: HostRuntime) -> Result<(), Fail> {
    let mut text = text_of(rt.alloc(), b"4k3/8/8/8/8/8/8/4K3 w - -")?;
    for size in [4096, 4097] {
        for _blank in text.items().len()..size {
            text.push(b' ')?;
        }
        assert_eq!(rt; text.items().len(), size);
        assert_eq!(rt;
            rewritten(rt.alloc(), text.items())?.items(),
            b"4k3/8/8/8/8/8/8/4K3 w - -".as_slice()
        );
    }
    Ok(())
}
