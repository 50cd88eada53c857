//! What men aim at and attack: a worked example, and the sets against the plain walk over a list.

use cha_board::{Color, Kind, Man, Men, Square, SquareSet, aims, aims_at, steps_between};

const OPENING: &[u8; 64] = b"RNBQKBNRPPPPPPPP................................pppppppprnbqkbnr";

const KIWIPETE: &[u8; 64] = b"R...K..RPPPBBPPP..N..Q.p.p..P......PN...bn..pnp.p.ppqpb.r...k..r";

const ROOKS_AND_PAWNS: &[u8; 64] =
    b"............P.P..........R...p.kKP.....r...p......p.............";

const QUEENS_AND_BISHOPS: &[u8; 64] =
    b"RNBQK..RPPP.NnPP..........B...............p.....pp.Pbppprnbq.k.r";

/// The kind of man of a letter, with `k` and every other letter for a king.
fn kind_of(letter: u8) -> Kind {
    match letter {
        b'p' => Kind::Pawn,
        b'n' => Kind::Knight,
        b'b' => Kind::Bishop,
        b'r' => Kind::Rook,
        b'q' => Kind::Queen,
        _ => Kind::King,
    }
}

/// The man of a letter, capital for White, or None for a point.
fn man_of(letter: u8) -> Option<Man> {
    if letter == b'.' {
        return None;
    }
    let color = if letter.is_ascii_uppercase() {
        Color::White
    } else {
        Color::Black
    };
    Some(Man {
        color,
        kind: kind_of(letter.to_ascii_lowercase()),
    })
}

/// The men of 64 letters, from a1 to h8.
fn men_of(letters: &[u8; 64]) -> [Option<Man>; 64] {
    let mut men = [None; 64];
    for index in 0..64 {
        men[index] = man_of(letters[index]);
    }
    men
}

/// Whether a man of this kind goes from each of the squares to the next, and from the first to the last, on an empty board.
fn aims_along(kind: Kind, s: Square, u: Square, t: Square) -> bool {
    aims_at(Color::White, kind, s, u)
        && aims_at(Color::White, kind, u, t)
        && aims_at(Color::White, kind, s, t)
}

/// Whether a square lies strictly between two others of one line.
fn lies_between(s: Square, u: Square, t: Square) -> bool {
    let by_way = u32::from(steps_between(s, u)) + u32::from(steps_between(u, t));
    by_way == u32::from(steps_between(s, t))
        && (aims_along(Kind::Rook, s, u, t) || aims_along(Kind::Bishop, s, u, t))
}

/// Whether a man stands strictly between two squares of one line.
fn is_barred(men: &[Option<Man>; 64], s: Square, t: Square) -> bool {
    for index in 0..64 {
        let u = Square::at(index);
        if lies_between(s, u, t) && men[usize::from(u.index())].is_some() {
            return true;
        }
    }
    false
}

/// Whether a man of this side stands on a square and attacks another (Laws of Chess, Article 3.1).
fn attacks_from(men: &[Option<Man>; 64], by: Color, s: Square, t: Square) -> bool {
    match men[usize::from(s.index())] {
        None => false,
        Some(man) => man.color.is(by) && aims_at(by, man.kind, s, t) && !is_barred(men, s, t),
    }
}

/// Whether some man of this side attacks a square.
fn attacks_square(men: &[Option<Man>; 64], by: Color, t: Square) -> bool {
    for index in 0..64 {
        if attacks_from(men, by, Square::at(index), t) {
            return true;
        }
    }
    false
}

/// How many squares the two ways to tell what a side attacks call different.
fn differences(list: &[Option<Man>; 64], by: Color) -> usize {
    let men = Men::of_list(list);
    (0..64)
        .filter(|index| attacks_differently(list, &men, by, *index))
        .count()
}

/// Whether the two ways differ on a square.
fn attacks_differently(list: &[Option<Man>; 64], men: &Men, by: Color, index: u8) -> bool {
    match Square::new(index) {
        None => false,
        Some(at) => men.attacks(by, at) != attacks_square(list, by, at),
    }
}

#[test]
fn a_rook_sees_up_to_the_first_man(rt: HostRuntime) {
    let occupied = SquareSet::single(Square::at(24)).with(Square::at(2));
    let seen = aims(Color::White, Kind::Rook, Square::at(0), occupied);
    assert_eq!(rt; seen.bits(), 0x0101_0106);
}

#[test]
fn sets_attack_as_the_list_does(rt: HostRuntime) {
    for letters in [OPENING, KIWIPETE, ROOKS_AND_PAWNS, QUEENS_AND_BISHOPS] {
        let list = men_of(letters);
        assert_eq!(rt; differences(&list, Color::White), 0);
        assert_eq!(rt; differences(&list, Color::Black), 0);
    }
}
