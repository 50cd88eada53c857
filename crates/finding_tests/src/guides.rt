//! The guides: positions worked by hand, and positions whose values another program gave that goes square by square.

use crate::from_fen::place;
use cha_board::Color;
use search_guide::{Guide, guide};

/// Positions, and how far White is from a mate by the guide to a corner: the loser's men, the want of force, and the
/// nearest corner, by the loser's king, the winner's king, its knights and a blocker.
const WORKED: &[(&str, u8)] = &[
    // 0 + 8 + (0 + 3 * (7 - 2))
    ("7k/8/8/8/8/8/8/KR6 w - -", 23),
    // 3 + (2 * 6 + 4 * 2 + 4 * 4) + (2 * 7 + 3 * (3 - 2)), the corner h1
    ("4k3/8/8/4p3/8/8/4P3/4K3 w - -", 56),
    // 3 + 16 + (2 * 7 + 3 * (5 - 2) + 2 + 1), the corner h1, since a1 is dark
    ("8/8/8/8/8/8/p1K5/k4B2 w - -", 45),
    // 3 * 8 + (2 * 4 + 4 * 1 + 4 * 1) + (2 * 7 + 3 * (3 - 2)): the rook is behind the wall
    ("4k3/8/8/pppppppp/PPPPPPPP/8/8/R3K3 w - -", 57),
    // 0 + 16 + (0 + 0 + 5 + 5)
    ("7k/8/5K2/8/8/8/8/NN6 w - -", 26),
    // 3 + 16 + (0 + 0 + 1 + 0): the pawn stands beside the corner
    ("7k/7p/5K2/4N3/8/8/8/8 w - -", 20),
    // a lone knight against a queen
    ("7k/6q1/8/8/8/8/8/KN6 w - -", 63),
    // a bare king
    ("7k/6p1/8/8/8/8/8/K7 w - -", 63),
];

/// Positions, and how far White is from a mate by the guide that takes squares away: four times the flights, twice the steps
/// to the edge, the steps between the kings, and twice the ranks to promotion.
const WORKED_FLIGHTS: &[(&str, u8)] = &[
    // 12 + 0 + 7 + 0
    ("7k/8/8/8/8/8/8/KR6 w - -", 19),
    // 20 + 0 + 7 + 12
    ("4k3/8/8/4p3/8/8/4P3/4K3 w - -", 39),
    // 4 * 2 + 2 * 2 + 2 + 0: of the squares next to e3 only e2 and the rook's own f4 are not attacked
    ("8/8/8/8/5R2/4k3/2K5/8 b - -", 14),
];

/// Positions, and how far White is from a mate by the guide that weighs all: the nearest corner, the flights, and three times the
/// loser's men.
const WORKED_BALANCES: &[(&str, u8)] = &[
    // (2 * 0 + 3 * (7 - 2)) + 3 + 0
    ("7k/8/8/8/8/8/8/KR6 w - -", 18),
    // (0 + 0 + 5 + 5) + 2 + 0: the king takes g7 away
    ("7k/8/5K2/8/8/8/8/NN6 w - -", 12),
    // (2 * 7 + 3 * (5 - 2) + 1 + 1 + 6) + 0 + 3: the corner h1, to which the pawn comes from a1 once it is promoted
    ("8/8/8/8/8/8/p1K5/k4B2 w - -", 34),
    // a lone knight against a queen
    ("7k/6q1/8/8/8/8/8/KN6 w - -", 63),
];

/// Positions of random men, and the values of the guides: by the corner for White and Black, by flights for White and Black, and
/// by all for White and Black.
#[rattlefmt::skip]
const RANDOM: &[(&str, [u8; 6])] = &[
    ("6K1/3b2Q1/5n2/1N2n3/4b3/8/1k6/1n1Q4 w - -", [30, 45, 16, 14, 32, 31]),
    ("8/8/2pPp3/4p1P1/7p/1Kp1k3/2p5/8 w - -", [30, 18, 43, 35, 34, 23]),
    ("8/3R3p/4p3/5R2/p7/1k6/1p6/7K w - -", [38, 20, 32, 20, 36, 21]),
    ("8/3b4/5N2/5B2/6k1/8/Kb6/8 b - -", [40, 36, 36, 18, 31, 23]),
    ("8/7p/1k6/7K/8/7B/8/8 w - -", [45, 37, 40, 34, 37, 21]),
    ("8/3b4/7N/8/2k3p1/8/8/K7 w - -", [44, 12, 39, 21, 36, 9]),
    ("8/8/8/5k1B/3p2NB/8/8/7K b - -", [34, 21, 20, 22, 21, 18]),
    ("8/3PpP1P/3Rk1K1/1P6/6p1/7R/4p2R/2QQ4 b - -", [15, 36, 10, 22, 16, 38]),
    ("4K3/8/8/8/8/kp6/8/4B3 b - -", [40, 21, 17, 29, 28, 22]),
    ("5K2/1k6/8/7N/4r3/8/8/8 w - -", [35, 24, 38, 16, 27, 19]),
    ("2N5/6P1/2p2p2/4NKPP/8/N7/PP5p/5k2 b - -", [21, 34, 26, 34, 24, 38]),
    ("4bK2/8/8/8/6b1/5r2/5qk1/8 w - -", [63, 16, 32, 22, 63, 20]),
    ("8/8/1p2N1k1/8/5K2/1N6/N7/8 w - -", [39, 31, 24, 40, 28, 23]),
    ("8/8/K1kp4/8/6R1/2n1N3/8/5n2 w - -", [21, 20, 18, 20, 16, 12]),
    ("8/2p5/8/p5K1/8/1Pkp1p2/4p1Pp/8 w - -", [41, 20, 42, 40, 37, 26]),
    ("8/8/3Pp1P1/1p6/7p/3K2Pk/8/8 w - -", [23, 25, 24, 42, 23, 24]),
    ("8/n7/3B4/8/8/1k1N3K/2p5/8 w - -", [36, 22, 24, 28, 24, 25]),
    ("8/8/6k1/2K5/8/8/2p1p3/8 w - -", [63, 12, 38, 42, 63, 18]),
    ("8/2p5/7N/4k3/8/8/8/6K1 w - -", [41, 23, 38, 36, 35, 16]),
    ("5k2/8/p7/1NK5/8/2p5/8/8 b - -", [40, 17, 23, 39, 34, 20]),
    ("8/4Rp2/1Q6/2P1p3/KppPQPP1/6Q1/k2p4/8 b - -", [20, 35, 10, 16, 22, 36]),
    ("8/8/4K3/4p3/8/8/3p4/7k w - -", [63, 18, 17, 43, 63, 24]),
    ("4N3/7k/4K3/8/4N3/8/8/8 w - -", [24, 63, 19, 39, 12, 63]),
    ("8/PP1p4/p6p/2K1NP2/1pp5/1ppp4/3NP3/4k3 b - -", [40, 35, 22, 36, 42, 37]),
    ("6b1/8/8/6K1/1B6/8/5k2/q7 b - -", [37, 11, 33, 33, 28, 18]),
    ("8/7N/6k1/8/8/5K2/7N/8 w - -", [30, 63, 29, 39, 20, 63]),
    ("2B5/6K1/3b1p2/7N/8/1B1B2P1/n5k1/8 b - -", [37, 39, 37, 45, 28, 36]),
    ("8/8/1pK5/2p3p1/3P4/1pk1p3/8/8 w - -", [33, 17, 43, 39, 32, 20]),
    ("8/6p1/3k4/8/K1qP1qp1/8/1P2p3/2R5 w - -", [35, 20, 31, 11, 33, 22]),
    ("8/7k/8/2B4b/8/1N6/1K6/4B3 w - -", [36, 51, 26, 36, 25, 42]),
    ("b7/8/8/3r4/2k5/8/B7/1K6 b - -", [63, 16, 31, 19, 63, 12]),
    ("1n6/8/8/8/8/8/2kN4/3N2K1 w - -", [36, 41, 22, 24, 24, 30]),
    ("4B3/8/8/1K1p4/8/2kB3p/2p5/4N3 b - -", [37, 19, 22, 30, 25, 23]),
    ("8/2Q4P/P7/3K1Q2/1Rp1P3/2P1p1P1/k5pP/8 b - -", [17, 40, 11, 39, 19, 45]),
    ("8/7K/8/8/5B2/3B1k2/8/5B2 b - -", [29, 63, 20, 24, 16, 63]),
    ("5k2/1K6/7q/4qq2/8/8/8/8 b - -", [63, 11, 24, 14, 63, 13]),
    ("5NB1/2P4P/K3p1pP/8/2kN4/2P1B3/1p1P4/8 b - -", [19, 39, 20, 20, 20, 41]),
    ("8/8/6kq/K7/8/1B6/q7/8 w - -", [63, 17, 32, 22, 63, 21]),
    ("8/8/5K2/7N/8/8/N5k1/8 w - -", [34, 63, 34, 40, 25, 63]),
];

#[test]
fn worked_positions_have_their_sums(rt: HostRuntime) {
    for (fen, want) in WORKED {
        let position = place(&rt, fen);
        let found = guide(Guide::Corner, &position, Color::White);
        assert_eq!(rt; found, *want, "{fen}");
    }
    for (fen, want) in WORKED_FLIGHTS {
        let position = place(&rt, fen);
        let found = guide(Guide::Flights, &position, Color::White);
        assert_eq!(rt; found, *want, "{fen}");
    }
    for (fen, want) in WORKED_BALANCES {
        let position = place(&rt, fen);
        let found = guide(Guide::Balance, &position, Color::White);
        assert_eq!(rt; found, *want, "{fen}");
    }
}

#[test]
fn random_positions_have_the_values_of_another_program(rt: HostRuntime) {
    for (fen, want) in RANDOM {
        let position = place(&rt, fen);
        let values = [
            guide(Guide::Corner, &position, Color::White),
            guide(Guide::Corner, &position, Color::Black),
            guide(Guide::Flights, &position, Color::White),
            guide(Guide::Flights, &position, Color::Black),
            guide(Guide::Balance, &position, Color::White),
            guide(Guide::Balance, &position, Color::Black),
        ];
        assert!(rt; values == *want, "{fen}");
    }
}
