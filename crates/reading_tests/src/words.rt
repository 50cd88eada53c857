//! What is no word of SAN and no token of PGN either, so that no text of games has it as a move.

use cha_board::Position;
use cha_san::{SanFault, resolve};

/// Words, the first of which is empty.
const NOT_SAN: &[&str] = &[
    "", "!", "+#", "4", "=", "é4", "e4.", " e4", "e4 ", "+e4", "=Q", "e8(Q)", "exd6e.p.", "--",
    "1-0",
];

#[test]
fn other_words_name_no_move(rt: HostRuntime) {
    let opening = Position::start();
    for word in NOT_SAN {
        let found = resolve(&opening, word.as_bytes()).err();
        assert!(rt; found == Some(SanFault::NotSan), "{word:?}");
    }
}
