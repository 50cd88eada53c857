//! Static verdicts of positions whose answers the field knows, each with its argument. A position is written with a letter
//! for each side, White first: U where the sets show that it cannot win, and W where they do not.

use crate::from_fen::place;
use cha_board::{Color, Position};
use mob_solve::static_verdict;
use std::alloc::Global;
use std::process::Abort;

/// Whether the sets show that a side cannot win.
fn is_shown(rt: &impl Abort, alloc: Global, position: &Position, side: Color) -> bool {
    let found = static_verdict(alloc, position, side);
    found.expect(rt, "memory").is_some()
}

/// The letters of both sides.
fn letters(rt: &impl Abort, alloc: Global, position: &Position) -> &'static str {
    let white = is_shown(rt, alloc, position, Color::White);
    let black = is_shown(rt, alloc, position, Color::Black);
    match (white, black) {
        (true, true) => "UU",
        (true, false) => "UW",
        (false, true) => "WU",
        (false, false) => "WW",
    }
}

/// Positions with the letters of both sides, and before each the argument.
const VERDICTS: &[(&str, &str)] = &[
    // Bare kings and single men.
    // A rook mates with its king; a bare king never gives check.
    ("8/8/8/4k3/8/8/8/4KR2 w - -", "WU"),
    // So does a queen.
    ("8/8/8/4k3/8/8/8/4KQ2 w - -", "WU"),
    // The pawn becomes a queen.
    ("8/8/8/4k3/8/4P3/8/4K3 w - -", "WU"),
    // The pawn becomes a queen at once.
    ("4k3/P7/8/8/8/8/8/4K3 w - -", "WU"),
    // The rook is Black's.
    ("4k3/8/8/8/8/8/8/r3K3 w - -", "UW"),
    // The queen is Black's.
    ("3qk3/8/8/8/8/8/8/4K3 w - -", "UW"),
    // A stalemate on the board, but the sets do not look at who is to move.
    ("7k/5Q2/6K1/8/8/8/8/8 b - -", "WU"),
    // Two rooks mate, whether or not their king castles.
    ("4k3/8/8/8/8/8/8/R3K2R w KQ -", "WU"),
    // A bishop or a knight alone gives check, and the king always has a square.
    ("8/8/8/4k3/8/8/8/4KB2 w - -", "UU"),
    ("8/8/8/4k3/8/8/8/4KN2 w - -", "UU"),
    // The king has to take the queen, but the sets do not look at who is to move.
    ("k7/1Q6/8/8/8/8/8/4K3 b - -", "WU"),
    // A lone knight against each man: the man may stand beside its own king in the corner.
    // Ka1, pawn a2: Nc2 or Nb3 mates with Kc1; Black's pawn becomes a queen.
    ("8/8/8/4k3/4p3/8/8/4KN2 w - -", "WW"),
    // Ka8, Nb8: Nc7 mates with Kb6; the same for Black.
    ("8/8/8/4k3/4n3/8/8/4KN2 w - -", "WW"),
    // Ka8, Bb8: Nc7 is taken, but Ka8, Ba7 and Nc7 mate with Kc8; a bishop mates where the knight blocks.
    ("8/8/8/4k3/4b3/8/8/4KN2 w - -", "WW"),
    // Kh8, Rg8: Nf7 mates with Kh6.
    ("8/8/8/4k3/4r3/8/8/3K1N2 w - -", "WW"),
    // No mate exists, since the queen takes or blocks; the sets let it stand in its king's way on any square.
    ("8/8/8/4k3/3q4/8/8/4KN2 w - -", "WW"),
    // A lone bishop against each man.
    // Kh1, pawn h2: a bishop on the long diagonal mates with Kf2.
    ("8/8/8/4k3/4p3/8/8/4KB2 w - -", "WW"),
    // Kh1, Nh2: the same, since the knight does not reach the diagonal next to its king.
    ("8/8/8/4k3/4n3/8/8/4KB2 w - -", "WW"),
    // Bishops of one colour: squares of the other colour next to a king are covered by the other king alone.
    ("8/8/8/4k3/4b3/8/8/4KB2 w - -", "UU"),
    // Bishops of both colours: each may block where the other gives check.
    ("8/8/8/4k3/3b4/8/8/4KB2 w - -", "WW"),
    // A rook beside its king takes the bishop, or steps between: of the two squares that touch both the king and the square in
    // front of it, the other king covers one.
    ("8/8/8/4k3/4r3/8/8/3K1B2 w - -", "UW"),
    // So does a queen.
    ("8/8/8/4k3/3q4/8/8/4KB2 w - -", "UW"),
    // However many there are.
    ("4k3/3q4/8/8/8/8/4r3/K2B4 w - -", "UW"),
    // Several pieces.
    // Bishop and knight mate.
    ("8/8/8/4k3/8/8/8/4KBN1 w - -", "WU"),
    // Two knights mate in a corner, if the other side helps.
    ("8/8/8/4k3/8/8/8/4KNN1 w - -", "WU"),
    // Bishops of both colours mate.
    ("8/8/8/4k3/8/8/8/2B1KB2 w - -", "WU"),
    // Two bishops of one colour do not cover the other colour.
    ("8/8/8/4k3/8/8/8/3BKB2 w - -", "UU"),
    // Nor do three.
    ("8/8/8/4k3/8/8/8/3BKB1B w - -", "UU"),
    // The third is of the other colour.
    ("8/8/8/4k3/8/8/8/2B1KB1B w - -", "WU"),
    // A bishop of the same colour more on the other side.
    ("8/8/8/4k3/4b3/8/8/3BKB2 w - -", "UU"),
    // Two on each side, all of one colour.
    ("8/8/8/4k3/2b1b3/8/8/3BKB2 w - -", "UU"),
    // The other side's bishop blocks on the other colour.
    ("8/8/8/2b1k3/8/8/8/3BKB2 w - -", "WW"),
    // Bishops of both colours against one.
    ("8/8/8/2b1k3/4b3/8/8/4KB2 w - -", "WW"),
    // The knight blocks on the other colour.
    ("8/8/8/4k3/2n5/8/8/3BKB2 w - -", "WW"),
    // Walls of blocked pawns that guard each square between them.
    // Rams on the b-, d-, f- and h-files: no king crosses, and no pawn moves.
    ("4k3/8/8/1p1p1p1p/1P1P1P1P/8/8/4K3 w - -", "UU"),
    // The same wall on ranks 6 and 7.
    ("4k3/p1p1p1p1/P1P1P1P1/8/8/8/8/4K3 w - -", "UU"),
    // On ranks 5 and 6.
    ("4k3/8/p1p1p1p1/P1P1P1P1/8/8/8/4K3 w - -", "UU"),
    // On ranks 3 and 4.
    ("4k3/8/8/8/p1p1p1p1/P1P1P1P1/8/4K3 w - -", "UU"),
    // On ranks 2 and 3: the pawns of rank 2 cannot make a double step.
    ("4k3/8/8/8/8/p1p1p1p1/P1P1P1P1/4K3 w - -", "UU"),
    // The ram of the e-file one rank higher.
    ("4k3/8/4p3/p1p1P1p1/P1P3P1/8/8/4K3 w - -", "UU"),
    // Two rams one rank higher.
    ("4k3/8/p3p3/P1p1P1p1/2P3P1/8/8/4K3 w - -", "UU"),
    // A ram on the b-file besides.
    ("4k3/8/1p6/pPp1p1p1/P1P1P1P1/8/8/4K3 w - -", "UU"),
    // One on the b-file below.
    ("4k3/8/8/p1p1p1p1/PpP1P1P1/1P6/8/4K3 b - -", "UU"),
    // The third wall, with Black to move.
    ("4k3/8/5p2/p1p1pPp1/P1P1P1P1/8/8/4K3 b - -", "UU"),
    // The third wall.
    ("4k3/8/5p2/p1p1pPp1/P1P1P1P1/8/8/4K3 w - -", "UU"),
    // Walls with a hole: a king goes through and takes pawns.
    // The e-file is open.
    ("4k3/8/8/p1p3p1/P1P3P1/8/8/4K3 w - -", "WW"),
    // The h-file is open.
    ("4k3/8/8/p1p1p3/P1P1P3/8/8/4K3 w - -", "WW"),
    // The a-file is open.
    ("4k3/8/8/2p1p1p1/2P1P1P1/8/8/4K3 w - -", "WW"),
    // The pawn of f5 may go on.
    ("4k3/8/8/p1p1pPp1/P1P1P1P1/8/8/4K3 w - -", "WW"),
    // One ram: the king goes round it.
    ("4k3/4p3/4P3/8/8/8/8/4K3 w - -", "WW"),
    // One ram in the middle.
    ("4k3/8/8/8/4p3/4P3/8/4K3 w - -", "WW"),
    // Two rams of one file.
    ("4k3/3p4/3P4/8/8/3p4/3P4/4K3 w - -", "WW"),
    // Walls with bishops: the colour of the bishop's squares says whether it takes a pawn of the wall.
    // A light bishop: the pawns that it could take are on dark squares, and its own keep it in.
    ("4k3/8/8/p1p1p1p1/P1P1P1P1/8/8/4KB2 w - -", "UU"),
    // A dark bishop takes a pawn, and the wall is open.
    ("4k3/8/8/p1p1p1p1/P1P1P1P1/8/8/4K1B1 w - -", "WW"),
    // Black's dark bishop: the white pawns are on light squares.
    ("4kb2/8/8/p1p1p1p1/P1P1P1P1/8/8/4K3 w - -", "UU"),
    // Black's light bishop takes a white pawn.
    ("4k1b1/8/8/p1p1p1p1/P1P1P1P1/8/8/4K3 w - -", "WW"),
    // Black's dark bishop beyond the wall is kept there: it gives check alone, and light squares are free.
    ("4k3/8/8/p1p1p1p1/P1P1P1P1/8/5b2/4K3 w - -", "UU"),
    // Black's light bishop beyond the wall takes a pawn from there.
    ("4k3/8/8/p1p1p1p1/P1P1P1P1/8/6b1/4K3 w - -", "WW"),
    // White's dark bishop beyond the wall takes a pawn from there.
    ("4k3/6B1/8/p1p1p1p1/P1P1P1P1/8/8/4K3 w - -", "WW"),
    // Two light bishops beyond the wall leave its dark squares free.
    ("4k3/1B5B/8/p1p1p1p1/P1P1P1P1/8/8/4K3 w - -", "UU"),
    // Black's dark bishop fills one dark square beside a king on a8, and two are left.
    ("4kb2/7B/8/p1p1p1p1/P1P1P1P1/8/8/4K3 w - -", "UU"),
    // Two fill both: king a8, bishops a7 and b8, against a bishop on d5.
    ("3bkb2/7B/8/p1p1p1p1/P1P1P1P1/8/8/4K3 w - -", "WU"),
    // Only the bishop of h6 comes to Black's king: the other is behind the wall, and the knight is shut in.
    ("8/1k5B/7b/8/1p1p1p1p/1PpP1P1P/2P3K1/N3b3 b - -", "UU"),
    // Black's light bishop takes the other or a pawn.
    ("4k1b1/7B/8/p1p1p1p1/P1P1P1P1/8/8/4K3 w - -", "WW"),
    // A light bishop beyond the wall and a dark one behind it, which opens it.
    ("4k3/7B/8/p1p1p1p1/P1P1P1P1/8/8/4K1B1 w - -", "WW"),
    // On this wall the black pawns are on light squares: a dark bishop takes none.
    ("4k3/8/8/1p1p1p1p/1P1P1P1P/8/8/2B1K3 w - -", "UU"),
    // And a light one does.
    ("4k3/8/8/1p1p1p1p/1P1P1P1P/8/8/4KB2 w - -", "WW"),
    // A dark bishop beyond this wall leaves the light squares free.
    ("4k3/B7/8/1p1p1p1p/1P1P1P1P/8/8/4K3 w - -", "UU"),
    // A light one takes a pawn from there.
    ("4k3/1B6/8/1p1p1p1p/1P1P1P1P/8/8/4K3 w - -", "WW"),
    // Walls with other men: they capture or go over it.
    // A knight takes a pawn.
    ("4k3/8/8/p1p1p1p1/P1P1P1P1/8/8/4KN2 w - -", "WW"),
    // From beyond too.
    ("4k3/7N/8/p1p1p1p1/P1P1P1P1/8/8/4K3 w - -", "WW"),
    // A rook goes through the wall on an open file.
    ("4k3/8/8/p1p1p1p1/P1P1P1P1/8/8/4KR2 w - -", "WW"),
    // And one that may castle.
    ("4k3/8/8/p1p1p1p1/P1P1P1P1/8/8/R3K3 w Q -", "WW"),
    // Blocked promotion squares.
    // The bishop is shut in on b8 by its own blocked pawns, and its king on a8; what guards their pawns is fixed.
    ("kb6/p1p5/P1P5/8/8/8/8/4K3 w - -", "UU"),
    // The king on b8 goes out, and the pawns fall.
    ("bk6/p1p5/P1P5/8/8/8/8/4K3 w - -", "WW"),
    // The pawn of e6 is not guarded, so the white king takes e7, and a pawn is promoted.
    ("kb6/p1p1p3/P1P1P3/8/8/8/8/4K3 w - -", "WW"),
    // The same for White's bishop and king.
    ("4k3/8/8/8/8/p1p5/P1P5/KB6 w - -", "UU"),
    // And with White's king outside.
    ("4k3/8/8/8/8/p1p5/P1P5/1BK5 w - -", "WW"),
    // A pawn that a bishop blocks: the bishop may go.
    ("8/8/8/4k3/8/8/6p1/4K1B1 w - -", "WW"),
    // One that a knight blocks.
    ("8/8/8/4k3/8/8/6p1/4K1N1 w - -", "WW"),
    // A capture en passant as the only key to a wall.
    // B5xc6 opens it.
    ("4k3/8/1p6/pPp1p1p1/P1P1P1P1/8/8/4K3 w - c6", "WW"),
    // B4xc3 opens it.
    ("4k3/8/8/p1p1p1p1/PpP1P1P1/1P6/8/4K3 b - c3", "WW"),
    // B4xa3 opens it.
    ("4k3/8/8/p1p1p1p1/PpP1P1P1/1P6/8/4K3 b - a3", "WW"),
    // F5xe6 opens the third wall.
    ("4k3/8/5p2/p1p1pPp1/P1P1P1P1/8/8/4K3 w - e6", "WW"),
    // F5xg6 does, too.
    ("4k3/8/5p2/p1p1pPp1/P1P1P1P1/8/8/4K3 w - g6", "WW"),
    // Full boards.
    // The opening position: each side may mate.
    ("rnbqkbnr/pppppppp/8/8/8/8/PPPPPPPP/RNBQKBNR w KQkq -", "WW"),
    // A mate in two for White is near.
    (
        "r1bqkbnr/pppp1ppp/2n5/4p2Q/2B1P3/8/PPPP1PPP/RNB1K1NR b KQkq -",
        "WW",
    ),
];

#[test]
fn sides_that_cannot_win_are_told_from_those_that_may(rt: HostRuntime) {
    for (fen, want) in VERDICTS {
        let position = place(&rt, fen);
        assert!(rt; letters(&rt, rt.alloc(), &position) == *want, "{fen}");
    }
}
