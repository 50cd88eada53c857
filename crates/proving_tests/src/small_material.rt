//! Pairs of kinds against what is known of endings.

use cha_board::{Color, Kind};
use mob_small::mate_free;

/// A lone man, the kind of a man of the other side's if there is one, and whether no mate by the lone man exists.
const LONE: &[(Kind, Option<Kind>, bool)] = &[
    (Kind::Knight, None, true),
    (Kind::Knight, Some(Kind::Queen), true),
    (Kind::Knight, Some(Kind::Rook), false),
    (Kind::Knight, Some(Kind::Bishop), false),
    (Kind::Knight, Some(Kind::Knight), false),
    (Kind::Bishop, None, true),
    (Kind::Bishop, Some(Kind::Queen), true),
    (Kind::Bishop, Some(Kind::Rook), true),
    (Kind::Bishop, Some(Kind::Bishop), false),
    (Kind::Bishop, Some(Kind::Knight), false),
    (Kind::Rook, None, false),
    (Kind::Rook, Some(Kind::Queen), false),
    (Kind::Queen, None, false),
    (Kind::Queen, Some(Kind::Queen), false),
];

#[test]
fn lone_minor_men_mate_only_with_help(rt: HostRuntime) {
    for (man, other, free) in LONE {
        assert_eq!(rt; mate_free(Color::White, *man, *other), *free);
        assert_eq!(rt; mate_free(Color::Black, *man, *other), *free);
    }
}
