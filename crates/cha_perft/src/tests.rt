//! The two counts against each other and against published ones.

use crate::counting::count_lines;
use crate::counting_made::count_made;
use cha_fen::read;
use std::test::Fail;

/// The six usual positions, and their published counts of lines of no move, of one, two and three.
const COUNTS: &[(&str, [u64; 4])] = &[
    (
        "rnbqkbnr/pppppppp/8/8/8/8/PPPPPPPP/RNBQKBNR w KQkq -",
        [1, 20, 400, 8902],
    ),
    (
        "r3k2r/p1ppqpb1/bn2pnp1/3PN3/1p2P3/2N2Q1p/PPPBBPPP/R3K2R w KQkq -",
        [1, 48, 2039, 97_862],
    ),
    ("8/2p5/3p4/KP5r/1R3p1k/8/4P1P1/8 w - -", [1, 14, 191, 2812]),
    (
        "r3k2r/Pppp1ppp/1b3nbN/nP6/BBP1P3/q4N2/Pp1P2PP/R2Q1RK1 w kq -",
        [1, 6, 264, 9467],
    ),
    (
        "rnbq1k1r/pp1Pbppp/2p5/8/2B5/8/PPP1NnPP/RNBQK2R w KQ -",
        [1, 44, 1486, 62_379],
    ),
    (
        "r4rk1/1pp1qppp/p1np1n2/2b1p1B1/2B1P1b1/P1NP1N2/1PP1QPPP/R4RK1 w - -",
        [1, 46, 2079, 89_890],
    ),
];

#[test]
fn both_counts_are_the_published_ones(rt: HostRuntime) -> Result<(), Fail> {
    let alloc = rt.alloc();
    for (fen, counts) in COUNTS {
        let position = read(fen.as_bytes())?;
        for (count, depth) in counts.iter().zip(0u8..) {
            assert_eq!(rt; count_lines(alloc, &position, depth), Ok(*count), "{fen}");
            assert_eq!(rt; count_made(&position, depth), Some(*count), "{fen}");
        }
    }
    Ok(())
}
