//! Mobility sets of tests, from a text: sixteen hexadecimal digits for the loose origins, then words as `e1K0000000000ffffff`
//! for the man of e1, which is in reach as a king on the squares of the number.

use cha_board::{Kind, Square};
use mob_sets::Sets;
use std::alloc::Global;
use std::process::Abort;

/// Puts what a text says into sets that are empty.
fn put_sets(rt: &impl Abort, text: &str, sets: &mut Sets) {
    for word in text.split_whitespace() {
        match word.as_bytes() {
            [file, rank, kind, digits @ ..] if digits.len() == 16 => {
                let origin = square(*file, *rank);
                enter(rt, sets, origin, kind_of(*kind), number(digits));
            }
            digits => loosen(sets, number(digits)),
        }
    }
}

/// The sets of a text.
pub fn sets_of(rt: &impl Abort, alloc: Global, text: &str) -> Sets {
    let mut sets = Sets::new(alloc);
    put_sets(rt, text, &mut sets);
    sets
}

/// Enters squares into the row of an origin and a kind.
pub fn enter(rt: &impl Abort, sets: &mut Sets, origin: Square, kind: Kind, squares: u64) {
    for index in 0..64 {
        if (squares >> index) & 1 == 1 {
            sets.add(origin, kind, Square::at(index))
                .expect(rt, "memory");
        }
    }
}

/// Makes origins loose.
pub fn loosen(sets: &mut Sets, origins: u64) {
    for index in 0..64 {
        if (origins >> index) & 1 == 1 {
            sets.loosen(Square::at(index));
        }
    }
}

fn square(file: u8, rank: u8) -> Square {
    Square::at(file.wrapping_sub(b'a') % 8 + rank.wrapping_sub(b'1') % 8 * 8)
}

fn kind_of(letter: u8) -> Kind {
    match letter {
        b'P' => Kind::Pawn,
        b'N' => Kind::Knight,
        b'B' => Kind::Bishop,
        b'R' => Kind::Rook,
        b'Q' => Kind::Queen,
        _ => Kind::King,
    }
}

fn number(digits: &[u8]) -> u64 {
    let mut value = 0;
    for digit in digits {
        value = value << 4 | u64::from(nibble(*digit));
    }
    value
}

fn nibble(digit: u8) -> u8 {
    if digit >= b'a' {
        (digit - b'a') % 6 + 10
    } else {
        digit.wrapping_sub(b'0') % 10
    }
}
