//! Small files as the programs of chess write them.

/// lichess: evaluations and clocks in comments, judgements as glyphs and in variations.
const LICHESS: &str = r#"[Event "Rated blitz game"]
[Site "https://lichess.org/abcdefgh"]
[Date "2024.01.02"]
[White "ann"]
[Black "ben"]
[Result "0-1"]
[UTCDate "2024.01.02"]
[WhiteElo "1500"]
[BlackElo "1510"]
[Variant "Standard"]
[TimeControl "180+0"]
[ECO "C20"]
[Opening "King's Pawn Game: Wayward Queen Attack"]
[Termination "Time forfeit"]

1. e4 { [%eval 0.17] [%clk 0:03:00] } 1... e5 { [%eval 0.19] [%clk 0:03:00] } 2. Qh5?! { (0.19 → -0.45) Inaccuracy. Nf3 was best. } { [%eval -0.45] [%clk 0:02:58] } (2. Nf3 Nc6 3. Bb5 a6) 2... Nc6 3. Bc4 g6 4. Qf3 Nf6 0-1


"#;

/// lichess: a game from a position.
const LICHESS_POSITION: &str = r#"[Event "Casual rapid game"]
[Result "1/2-1/2"]
[Variant "From Position"]
[FEN "8/8/8/4k3/8/8/4P3/4K3 w - - 0 1"]
[SetUp "1"]
[Termination "Normal"]

1. e3 Kd5 2. Kd2 Ke4 1/2-1/2
"#;

/// lichess: a game of another variant.
const LICHESS_960: &str = r#"[Event "Rated Chess960 game"]
[Result "1-0"]
[Variant "Chess960"]
[FEN "bqnb1rkr/pp3ppp/3ppn2/2p5/5P2/P2P4/NPP1P1PP/BQ1BNRKR w HFhf - 2 9"]
[SetUp "1"]

9. Nf3 Nc6 1-0
"#;

/// chess.com: lines that end with CR LF, one move and its clock after another.
const CHESS_COM: &str =
    "[Event \"Live Chess\"]\r\n[Site \"Chess.com\"]\r\n[White \"Ann\"]\r\n[Black \"Ben\"]\r\n[Result \"0-1\"]\r\n[CurrentPosition \"rnbqkbnr/pppp1ppp/8/4p3/4P3/8/PPPP1PPP/RNBQKBNR w KQkq - 0 2\"]\r\n[TimeControl \"60\"]\r\n[Termination \"Ben won on time\"]\r\n[Link \"https://www.chess.com/game/live/1\"]\r\n\r\n1. e4 {[%clk 0:00:59.9]} 1... e5 {[%clk 0:00:59.1]} 2. Nf3 {[%clk 0:00:58]} 0-1\r\n";

/// chess.com: two games in a row, one that was abandoned and one that was resigned.
const CHESS_COM_TWO: &str =
    "[Event \"Live Chess\"]\r\n[Result \"1-0\"]\r\n[Termination \"Ann won - game abandoned\"]\r\n\r\n1. d4 $6 d5 $1 2. c4 1-0\r\n\r\n[Event \"Live Chess\"]\r\n[Result \"0-1\"]\r\n[Termination \"Ben won by resignation\"]\r\n\r\n1. f3 e5 2. g4 Qh4# 0-1\r\n\r\n";

/// FICS: the end of the game in a comment before its result.
const FICS: &str = r#"[Event "FICS rated standard game"]
[Site "FICS freechess.org"]
[FICSGamesDBGameNo "100"]
[White "ann"]
[Black "ben"]
[BlackClock "0:15:00.000"]
[Result "1-0"]

1. Nf3 {[%emt 0.0]} d5 {[%emt 0.0]} 2. O-O-O {[%emt 5.1]} c6 {Black forfeits on time} 1-0

[Event "FICS rated blitz game"]
[Result "1/2-1/2"]

1. d4 Nf6 2. c4 e6 {Game drawn by mutual agreement} 1/2-1/2
"#;

/// ICC: a tag that tells the end, and long moves.
const ICC: &str = r#"[Event "ICC"]
[Site "Internet Chess Club"]
[Result "0-1"]
[ICCResult "White forfeits on time"]
[NIC "RE.14"]
[Time "12:00:01"]
[Termination "time forfeit"]

1. Nf3 d5 2. g3 c5 3. Bg2 Nc6
4. Nb1d2 e7e5 {White forfeits on time} 0-1
"#;

/// ChessBase: glyphs, arrows and coloured squares in comments, variations within variations, long lines cut.
const CHESS_BASE: &str = r#"[Event "Open"]
[Site "?"]
[Date "2023.??.??"]
[Round "1.1"]
[White "Ann, A"]
[Black "Ben, \"B\""]
[Result "1/2-1/2"]
[ECO "D00"]
[PlyCount "6"]
[EventDate "2023.??.??"]
[SourceVersionDate "2023.01.01"]

{[%evp 0,5,19,22,-10,18,25,30]} 1. d4 d5 2. Bf4 ({[%csl Gc4][%cal Gc2c4] The main line:} 2. c4 e6 (2... dxc4
$2 3. e3 b5 $4) 3. Nc3) 2... Nf6 $11 {[#]} 3. e3 $146 e6
1/2-1/2
"#;

/// scid: comments on lines of their own, a line that is escaped, and no space after the numbers.
const SCID: &str = r#"% Scid database export
[Event "Club"]
[Site "Home"]
[Date "????.??.??"]
[Round "?"]
[White "Ann"]
[Black "Ben"]
[Result "*"]
[ScidFlags "WD"]
[Annotator "Ann"]

{ Before the game }
1.e4 c5 ; Sicilian (the Open)
2.Nf3 $1
  ( 2.c3
    ( 2.Nc3 Nc6 )
    2...d5 1-0 )
2...d6 3.d4 *
"#;

/// Games without blank lines, one without a result, as collections have them.
const COLLECTION: &str = r#"[Event "A"]
[Result "1-0"]
1.e4 e5 2.Nf3 1-0
[Event "B"]
[Result "0-1"]
1.d4 d5
[Event "C"]
[Result "1/2-1/2"]
1.c4 1/2-1/2
1.g3 *
"#;

/// The example of the PGN standard, 2.3, as far as its sixteenth move.
const STANDARD: &str = r#"[Event "F/S Return Match"]
[Site "Belgrade, Serbia JUG"]
[Date "1992.11.04"]
[Round "29"]
[White "Fischer, Robert J."]
[Black "Spassky, Boris V."]
[Result "1/2-1/2"]

1. e4 e5 2. Nf3 Nc6 3. Bb5 a6 4. Ba4 Nf6 5. O-O Be7 6. Re1 b5 7. Bb3 d6 8. c3
O-O 9. h3 Nb8 10. d4 Nbd7 11. c4 c6 12. cxb5 axb5 13. Nc3 Bb7 14. Bg5 b4 15.
Nb1 h6 16. Bh4 c5 1/2-1/2
"#;

/// The files, and their games.
pub const FILES: &[(&str, &str)] = &[
    (LICHESS, "e4 e5 Qh5?! Nc6 Bc4 g6 Qf3 Nf6 0-1 time"),
    (
        LICHESS_POSITION,
        "<8/8/8/4k3/8/8/4P3/4K3 w - -> e3 Kd5 Kd2 Ke4 1/2-1/2",
    ),
    (LICHESS_960, "Nf3 Nc6 1-0 #Variant"),
    (CHESS_COM, "e4 e5 Nf3 0-1 time"),
    (CHESS_COM_TWO, "d4 d5 c4 1-0 | f3 e5 g4 Qh4# 0-1"),
    (FICS, "Nf3 d5 O-O-O c6 1-0 | d4 Nf6 c4 e6 1/2-1/2"),
    (ICC, "Nf3 d5 g3 c5 Bg2 Nc6 Nb1d2 e7e5 0-1 time"),
    (CHESS_BASE, "d4 d5 Bf4 Nf6 e3 e6 1/2-1/2"),
    (SCID, "e4 c5 Nf3 d6 d4 *"),
    (COLLECTION, "e4 e5 Nf3 1-0 | d4 d5 * | c4 1/2-1/2 | g3 *"),
    (
        STANDARD,
        "e4 e5 Nf3 Nc6 Bb5 a6 Ba4 Nf6 O-O Be7 Re1 b5 Bb3 d6 c3 O-O h3 Nb8 d4 Nbd7 c4 c6 cxb5 axb5 Nc3 Bb7 Bg5 b4 Nb1 h6 Bh4 c5 1/2-1/2",
    ),
];
