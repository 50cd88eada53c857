//! One rule a row, by the PGN standard and by the habits of real files: a text and its games.

/// Games end with results, with tags and with the text.
pub const ENDS: &[(&str, &str)] = &[
    ("", ""),
    (" \r\n\t", ""),
    ("{only a comment} ; and another\n% and a line\n", ""),
    ("1. !? $1", ""),
    ("[White \"A\"]", "*"),
    ("[White \"A\"]\n[Black \"B\"]\n", "*"),
    ("*", "*"),
    ("**", "* | *"),
    ("1-0 0-1 1/2-1/2 *", "1-0 | 0-1 | 1/2-1/2 | *"),
    ("1. e4 e5", "e4 e5 *"),
    ("1. e4 1-0 e5", "e4 1-0 | e5 *"),
    ("[Result \"1-0\"] 1. e4", "e4 *"),
    ("[Result \"1-0\"] 1. e4 0-1", "e4 0-1"),
    ("e4 * d4 *", "e4 * | d4 *"),
    ("[A \"b\"] e4 1-0[A \"b\"]d4 0-1", "e4 1-0 | d4 0-1"),
    ("e4 1-0\n[C \"d\"]", "e4 1-0 | *"),
    ("1. e4 [A \"b\"] d4 *", "e4 * | d4 *"),
    ("[A \"b\"] 1. e4 [C \"d\"] [E \"f\"] d4", "e4 * | d4 *"),
    ("1-0+", "1-0+ *"),
    ("1/2", "1/2 *"),
    ("1 - 0", "- *"),
    ("0-0 O-O 1-0", "0-0 O-O 1-0"),
    ("e4 1-0.", "e4 1-0"),
    ("e4! Nf3+?! e8=Q# *", "e4! Nf3+?! e8=Q# *"),
    ("e4!? !? $5 e5 *", "e4!? e5 *"),
    ("-- Z0 *", "-- Z0 *"),
    ("[White \"Ñ\"] e4 *", "e4 *"),
];

/// Variations and comments.
pub const VARIATIONS: &[(&str, &str)] = &[
    ("e4 (d4 d5) e5 *", "e4 e5 *"),
    ("(e4) d4 *", "d4 *"),
    ("e8(Q) e5 *", "e8 e5 *"),
    ("e4 (d4 1-0) e5 0-1", "e4 e5 0-1"),
    ("e4 (d4 *) e5 *", "e4 e5 *"),
    ("e4 (d4 (c4 1-0) d5) e5 1/2-1/2", "e4 e5 1/2-1/2"),
    ("e4 (d4 ] x) e5 *", "e4 e5 *"),
    ("e4 ) e5 *", "e4 e5 * #BadToken 3"),
    ("e4 ) ( d4 ) e5 *", "e4 e5 * #BadToken 3"),
    ("( ) ) *", "* #BadToken 4"),
    ("e4 1-0 )", "e4 1-0 | * #BadToken 7"),
    ("e4 (d4 e5 *", "e4 * #Unclosed"),
    ("e4 ( ( ) e5 *", "e4 * #Unclosed"),
    ("e4 (d4 [A \"b\"] d5 *", "e4 * #Unclosed | d5 *"),
    ("e4 {never ends", "e4 * #Unclosed"),
    ("e4 (d4 {never ends", "e4 * #Unclosed"),
    ("e4 * {never ends", "e4 * | * #Unclosed"),
    ("e4 {a (b} c5 ; (\n *", "e4 c5 *"),
    ("{a} e4 {b} * {c}", "e4 *"),
];

/// Starts by the first FEN tag.
pub const STARTS: &[(&str, &str)] = &[
    (
        "[SetUp \"0\"][FEN \"4k3/8/8/8/8/8/4P3/4K3 w - - 0 1\"] e4",
        "<4k3/8/8/8/8/8/4P3/4K3 w - -> e4 *",
    ),
    ("[SetUp \"1\"] e4", "e4 *"),
    (
        "[FEN \"4k3/8/8/8/8/8/4P3/4K3 w - -\"][FEN \"4k3/8/8/8/8/8/8/4K3 b - -\"] *",
        "<4k3/8/8/8/8/8/4P3/4K3 w - -> *",
    ),
    (
        "[FEN \"hello\"][FEN \"4k3/8/8/8/8/8/8/4K3 b - -\"] *",
        "* #BadStart Shape",
    ),
    (
        "[FEN \"rnbqkbnr/pppppppp/8/8/8/8/PPPPPPPP/RNBQKBNR w KQkq - 0 1\"] *",
        "*",
    ),
    (
        "[FEN \"rnbqkbnr/pppppppp/8/8/4P3/8/PPPP1PPP/RNBQKBNR b KQkq e3 0 1\"] *",
        "<rnbqkbnr/pppppppp/8/8/4P3/8/PPPP1PPP/RNBQKBNR b KQkq e3> *",
    ),
    ("[FEN \"\"] *", "* #BadStart Shape"),
    (
        "[FEN \"8/8/8/8/8/8/8/4K3 w - -\"] e4 *",
        "e4 * #BadStart Kings",
    ),
    (
        "[FEN \"4k2P/8/8/8/8/8/8/4K3 w - -\"] *",
        "* #BadStart PawnRank",
    ),
    (
        "[FEN \"4k3/8/8/8/8/8/8/K3R3 w - -\"] *",
        "* #BadStart OpponentInCheck",
    ),
    ("[fen \"hello\"] *", "*"),
    ("[FENx \"hello\"] *", "*"),
    (
        "e4 1-0 [FEN \"hello\"] d4 *",
        "e4 1-0 | d4 * #BadStart Shape",
    ),
];

/// Variants and terminations.
pub const TAGS: &[(&str, &str)] = &[
    ("[Variant \"Standard\"] *", "*"),
    ("[Variant \"CHESS\"] *", "*"),
    ("[Variant \"nOrMaL\"] *", "*"),
    ("[Variant \"From Position\"] *", "*"),
    ("[Variant \"from position\"] *", "*"),
    ("[Variant \"Chess960\"] *", "* #Variant"),
    ("[Variant \"Crazyhouse\"] *", "* #Variant"),
    ("[Variant \"chess \"] *", "* #Variant"),
    ("[Variant \"\"] *", "* #Variant"),
    ("[variant \"Chess960\"] *", "*"),
    ("[Variant \"chess\"][Variant \"Chess960\"] *", "*"),
    ("[Termination \"time forfeit\"] *", "* time"),
    ("[Termination \"TIME FORFEIT\"] 1-0", "1-0 time"),
    ("[Termination \"Ben won on time\"] 0-1", "0-1 time"),
    ("[Termination \"Ben Won On Time\"] *", "* time"),
    ("[Termination \"won on time\"] *", "* time"),
    ("[Termination \"normal\"] *", "*"),
    ("[Termination \"abandoned\"] *", "*"),
    ("[Termination \"rules infraction\"] *", "*"),
    ("[Termination \"Ben won on time.\"] *", "*"),
    ("[Termination \"Ben won on time by far\"] *", "*"),
    ("[Termination \"time forfeit \"] *", "*"),
    ("[Termination \"a time forfeit\"] *", "*"),
    ("[Termination \"n time\"] *", "*"),
    ("[Termination \"\"] *", "*"),
    ("[termination \"time forfeit\"] *", "*"),
    (
        "[Termination \"normal\"][Termination \"time forfeit\"] *",
        "*",
    ),
];

/// Of two faults the first counts.
pub const TWO_FAULTS: &[(&str, &str)] = &[
    ("e4 (d4 [A", "e4 * #Unclosed | * #BadToken 7"),
    ("e4 ] (d4", "e4 * #BadToken 3"),
    ("[Variant \"Atomic\"] ] *", "* #BadToken 19"),
    ("[Variant \"Atomic\"] (e4", "* #Unclosed"),
    ("[FEN \"hello\"] {", "* #Unclosed"),
    ("[Variant \"Atomic\"][FEN \"hello\"] *", "* #Variant"),
    ("[FEN \"hello\"][Variant \"Atomic\"] *", "* #Variant"),
    (
        "[Variant \"Chess960\"][FEN \"4k3/8/8/8/8/8/8/4K3 b - -\"] *",
        "<4k3/8/8/8/8/8/8/4K3 b - -> * #Variant",
    ),
];

/// Bad tokens, some of bytes that are no characters.
pub const BAD_TOKENS: &[(&[u8], &str)] = &[
    (b"e4 ] e5 *", "e4 e5 * #BadToken 3"),
    (b"e4\0e5 *", "e4 e5 * #BadToken 2"),
    (b"1\xE2\x80\x930", "* #BadToken 1"),
    (b"[A b]\ne4 *", "e4 * #BadToken 0"),
    (b"[A \"b\"]\n[C d]\n] 1-0", "1-0 #BadToken 8"),
    (b"e4 [%clk 0:01] e5 *", "e4 * | * #BadToken 3"),
    (b"\xEF\xBB\xBF[A \"b\"] e4 *", "e4 *"),
    (b"\xEF\xBB e4 *", "e4 * #BadToken 0"),
    (b"\xEF\xBB\xBF] *", "* #BadToken 3"),
];
