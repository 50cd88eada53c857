//! A table of one row a shard through each reply but the one for want of memory, and a table that two threads use.

ghost use Rattle.std.specs.Prelude.{◌≡◌, ◌≤◌, ◌<◌, [], ◌∷◌, length};
ghost use Rattle.cha_fact.specs.Entries.{probe_entry};
ghost use Rattle.shard_table.specs.Makes.{Makes};
ghost use Rattle.shard_table.specs.Tables.{IsOfTable, StaysFirst};

use cha_board::{Color, Kind, Man, Packed, Position, Rights};
use cha_fact::{Facts, Key, Probe, Proved, Stored};
use cha_moves::is_mate;
use shard_table::{Shard, StillOut, Table, TableFacts, TablePass, shard_of};
use std::process::Abort;
use std::rt::HostRuntime;
use std::sync::Wait;
use std::thread;

/// Two bare kings with Black to move, where they stand apart.
fn kings(white: usize, black: usize) -> Option<Position>
    requires white { white < 64 }
    requires black { black < 64 }
{
    let mut men = [None; 64];
    men[white] = Some(Man {
        color: Color::White,
        kind: Kind::King,
    });
    men[black] = Some(Man {
        color: Color::Black,
        kind: Kind::King,
    });
    built(&men)
}

/// These men with Black to move, where they may stand so.
fn built(men: &[Option<Man>; 64]) -> Option<Position> {
    let rights = Rights {
        white_king: false,
        white_queen: false,
        black_king: false,
        black_queen: false,
    };
    match Position::build(men, Color::Black, rights, None) {
        Ok(position) => Some(position),
        Err(_) => None,
    }
}

/// That White does not mate within so many plies, 0 or 1, where Black is to move and is not mated: after a move of Black's it
/// is White's turn.
fn no_mate(position: &Position, depth: u8) -> Option<Proved>
    requires { depth ≤ 1 }
{
    if is_mate(position, Color::White) {
        return None;
    }
    match position.side() {
        Color::White => None,
        Color::Black => Some(Proved::none(position, Color::White, depth)),
    }
}

/// How much a place knows of a key.
fn known<F: Facts>(facts: &mut F, key: &Key) -> Option<u32>
    requires { F.ready facts.old }
    ensures ready { F.ready facts.new }
    ensures made { (reply : _) × F.made facts.old (probe_entry key.now reply ∷ []) facts.new }
{
    match facts.probe(key) {
        Probe::Found(row) => Some(row.rank()),
        Probe::Miss => None,
        Probe::Refused => None,
    }
}

/// How much a table knows of a key.
fn known_at<R: Wait>(rt: &R, table: &Table, pass: &mut TablePass, key: &Key) -> Option<u32>
    requires { IsOfTable table.now pass.old }
    ensures of { IsOfTable table.now pass.new }
    ensures made { (reply : _) × Makes pass.old (probe_entry key.now reply ∷ []) pass.new }
{
    let mut facts = TableFacts::new(rt, table, pass);
    known(&mut facts, key)
}

/// White's king, Black's king and a white knight, each on the square that a number below 32,768 gives it, with Black to move,
/// where they may stand so.
fn numbered(number: usize) -> Option<Position>
    requires { number < 32768 }
{
    let mut men = [None; 64];
    men[number / 4096 * 8] = Some(Man {
        color: Color::White,
        kind: Kind::Knight,
    });
    men[number % 64] = Some(Man {
        color: Color::White,
        kind: Kind::King,
    });
    men[number / 64 % 64] = Some(Man {
        color: Color::Black,
        kind: Kind::King,
    });
    built(&men)
}

/// Stores what is known of a numbered position, and answers whether it stands, and is found right after.
fn store_one<R: Wait>(rt: &R, table: &Table, pass: &mut TablePass, number: usize) -> Tried
    requires of { IsOfTable table.now pass.old }
    requires number { number < 32768 }
    ensures of { IsOfTable table.now pass.new }
    ensures first { StaysFirst pass.old pass.new }
    ensures few { (result.stand ≤ 1) × (result.found ≤ 1) }
{
    let none = Tried { stand: 0, found: 0 };
    let Some(position) = numbered(number) else {
        return none;
    };
    let Some(row) = no_mate(&position, 0) else {
        return none;
    };
    let key = row.key();
    table.store(rt, pass, row);
    match known_at(rt, table, pass, &key) {
        Some(_) => Tried { stand: 1, found: 1 },
        None => Tried { stand: 1, found: 0 },
    }
}

/// How many positions stand, and how many of them were found.
#[derive(Clone, Copy, Debug, PartialEq, Eq)]
struct Tried {
    stand: usize,
    found: usize,
}

/// A pass, and what was found with it.
#[derive(Drop)]
struct Finds {
    pass: TablePass,
    tried: Tried,
}

/// How many numbers each thread tries: of these, more than 10,000 positions stand.
const EACH: usize = 15_000;

/// The same for all the numbers of a thread.
fn store_all<R: Wait>(rt: &R, table: &Table, mut pass: TablePass, from: usize) -> Finds
    requires of { IsOfTable table.now pass }
    requires from { from ≤ 7500 }
    ensures of { IsOfTable table.now result.pass }
    ensures first { StaysFirst pass result.pass }
{
    let mut tried = Tried { stand: 0, found: 0 };
    for number in from..from + EACH {
        let one = store_one(rt, table, &mut pass, number);
        tried = Tried {
            stand: tried.stand + one.stand,
            found: tried.found + one.found,
        };
    }
    Finds { pass, tried }
}

/// How many positions of both threads stand, and how many of them are in the shards that are theirs.
fn count_rows(shards: &mut [Shard]) -> Tried
    requires { length shards.old ≡ 8 }
{
    let mut tried = Tried { stand: 0, found: 0 };
    for number in 0..EACH / 2 * 3 {
        if let Some(position) = numbered(number)
            && !is_mate(&position, Color::White)
        {
            tried.stand += 1;
            let key = Key::of(&position, Color::White);
            if known(&mut shards[shard_of(&key) as usize], &key).is_some() {
                tried.found += 1;
            }
        }
    }
    tried
}

/// Asserts the number of the shard of a key.
fn has_number(rt: &impl Abort, words: [u64; 5], winner: Color, number: u8) {
    let key = Key {
        packed: Packed { words },
        winner,
    };
    assert_eq!(rt; shard_of(&key), number);
}

#[test]
fn shards_have_their_numbers(rt: HostRuntime) {
    has_number(&rt, [0; 5], Color::White, 0);
    has_number(&rt, [0; 5], Color::Black, 1);
    has_number(&rt, [5, 0, 0, 0, 1023], Color::White, 7);
}

/// Two bare kings that stand apart, with Black to move.
fn apart(rt: &impl Abort, white: usize, black: usize) -> Position
    requires white { white < 64 }
    requires black { black < 64 }
{
    kings(white, black).expect(rt, "a position")
}

/// That White does not mate within so many plies.
fn none_within(rt: &impl Abort, position: &Position, depth: u8) -> Proved
    requires { depth ≤ 1 }
{
    no_mate(position, depth).expect(rt, "no mate")
}

/// Asserts the reply of a table to a row.
fn replies<R: Wait + Abort>(rt: &R, table: &Table, pass: &mut TablePass, row: Proved, want: Stored)
    requires { IsOfTable table.now pass.old }
    ensures { IsOfTable table.now pass.new }
{
    assert!(rt; table.store(rt, pass, row) == want);
}

/// Asserts how much a table knows of a key.
fn knows<R: Wait + Abort>(rt: &R, table: &Table, pass: &mut TablePass, key: &Key, want: Option<u32>)
    requires { IsOfTable table.now pass.old }
    ensures { IsOfTable table.now pass.new }
{
    assert!(rt; known_at(rt, table, pass, key) == want);
}

#[test]
fn a_shard_of_one_row_keeps_the_last_key(rt: HostRuntime) {
    let home = apart(&rt, 4, 60);
    let out = apart(&rt, 4, 37);
    let key = Key::of(&home, Color::White);
    assert_eq!(rt; shard_of(&key), shard_of(&Key::of(&out, Color::White)));
    let row = none_within(&rt, &home, 0);
    let (table, mut pass) = Table::new(rt.alloc(), 1).expect(&rt, "memory");
    let copy = row.copy(rt.alloc()).expect(&rt, "memory");
    replies(&rt, &table, &mut pass, copy, Stored::Added);
    replies(&rt, &table, &mut pass, row, Stored::Kept);
    knows(&rt, &table, &mut pass, &key, Some(0));
    replies(
        &rt,
        &table,
        &mut pass,
        none_within(&rt, &home, 1),
        Stored::Better,
    );
    knows(&rt, &table, &mut pass, &key, Some(1));
    let other = none_within(&rt, &out, 0);
    replies(&rt, &table, &mut pass, other, Stored::Evicted(key));
    knows(&rt, &table, &mut pass, &key, None);
}

#[test]
fn two_threads_fill_a_table(rt: HostRuntime) {
    let Ok((table, mut first)) = Table::new(rt.alloc(), 4_096) else {
        panic!(rt; "no memory");
    };
    let second = table.split(&mut first);
    let (one, two) = thread::join(
        &rt,
        || store_all(&rt, &table, first, 0),
        || store_all(&rt, &table, second, EACH / 2),
    );
    assert!(rt; one.tried.stand >= 10_000);
    assert_eq!(rt; one.tried.found, one.tried.stand);
    assert!(rt; two.tried.stand >= 10_000);
    assert_eq!(rt; two.tried.found, two.tried.stand);
    let Err(still) = table.close(one.pass) else {
        panic!(rt; "closed with a pass out");
    };
    let StillOut {
        table,
        pass: mut first,
        passes,
    } = still;
    assert_eq!(rt; passes, 2);
    table.join(&mut first, two.pass);
    match table.close(first) {
        Ok(mut shards) => {
            let all = count_rows(&mut shards);
            assert_eq!(rt; all.found, all.stand);
        }
        Err(_) => panic!(rt; "a pass is still out"),
    }
}
