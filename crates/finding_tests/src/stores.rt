//! Stores of the opening: in which order names come back, and positions found again by the moves that led there.

ghost use Rattle.std.specs.Prelude.{◌≡◌, ◌<◌, ◌≤◌, ◌+◌, [], Some, length, replicate};

use cha_board::{Position, Square, same_position};
use cha_list::Steps;
use cha_moves::{Move, after, is_legal, legal};
use node_store::{Chains, Store};
use std::alloc::Global;
use std::marker::Brand;
use std::process::Abort;
use std::sync::ledger::{Blank, Ledger};

/// Adds the position after a move, unless it is there: one that waits in a list, or a leaf.
fn add(rt: &impl Abort, store: &mut Store, parent: u32, by: Move, list: Option<u8>) -> u32 {
    assert!(rt; parent < store.len() && store.len() <= 1_000_000);
    let here = store.position(parent);
    assert!(rt; is_legal(&here, by));
    let next = after(&here, by);
    if let Some(name) = store.find(&next) {
        return name;
    }
    let added = match list {
        Some(bucket) if bucket < 64 => store.add(&next, parent, by, bucket),
        _ => store.add_leaf(&next, parent, by),
    };
    added.expect(rt, "memory")
}

/// The legal moves in one of the positions of the store.
fn moves_of(rt: &impl Abort, alloc: Global, store: &Store, name: u32) -> Vec<Move> {
    assert!(rt; name < store.len());
    legal(alloc, &store.position(name)).expect(rt, "memory")
}

/// A move without a promotion.
fn from_to(rt: &impl Abort, from: u8, to: u8) -> Move {
    Move {
        from: Square::new(from).expect(rt, "a square"),
        to: Square::new(to).expect(rt, "a square"),
        promotion: None,
    }
}

/// A store of the opening.
fn opened(rt: &impl Abort, alloc: Global) -> Store {
    Store::new(alloc, &Position::start()).expect(rt, "memory")
}

/// Asserts the name that comes next.
fn pops(rt: &impl Abort, store: &mut Store, want: Option<u32>) {
    assert!(rt; store.pop() == want);
}

/// Asserts the names of three moves from the opening that are added to lists, and the order in which they come back.
fn come_back(rt: &impl Abort, store: &mut Store) {
    pops(rt, store, Some(0));
    assert!(rt; add(rt, store, 0, from_to(rt, 12, 28), Some(5)) == 1);
    assert!(rt; add(rt, store, 0, from_to(rt, 11, 27), Some(5)) == 2);
    assert!(rt; add(rt, store, 0, from_to(rt, 6, 21), Some(2)) == 3);
    pops(rt, store, Some(3));
    pops(rt, store, Some(2));
    pops(rt, store, Some(1));
    pops(rt, store, None);
}

#[test]
fn names_come_back_from_the_first_list_and_the_last_added_first(rt: HostRuntime) {
    let mut store = opened(&rt, rt.alloc());
    come_back(&rt, &mut store);
}

/// The position after these moves from the opening.
fn played(rt: &impl Abort, moves: &[Move]) -> Position {
    let mut now = Position::start();
    for by in moves {
        assert!(rt; is_legal(&now, *by));
        now = after(&now, *by);
    }
    now
}

/// Asserts that a position is found under its name, and the moves of its path lead there from the opening.
fn is_found_by_its_line(rt: &impl Abort, alloc: Global, store: &Store, name: u32)
    requires { name < length store.now.nodes }
{
    let position = store.position(name);
    assert!(rt; store.find(&position) == Some(name));
    let path = store.path(alloc, name).expect(rt, "memory");
    assert!(rt; same_position(&played(rt, path.items()), &position));
}

/// The next number of a series that looks random.
fn next_random(random: u64) -> u64 {
    random
        .wrapping_mul(6_364_136_223_846_793_005)
        .wrapping_add(1_442_695_040_888_963_407)
}

/// Goes on from a position by a legal move that a random number chooses, or to the opening where there is none.
fn go_on(
    rt: &impl Abort,
    alloc: Global,
    store: &mut Store,
    name: u32,
    random: u64,
    bucket: u8,
) -> u32 {
    let moves = moves_of(rt, alloc, store, name);
    if moves.is_empty() {
        return 0;
    }
    let chosen = moves[(random >> 33) as usize % moves.len()];
    add(rt, store, name, chosen, Some(bucket))
}

/// Walks from the opening by legal moves at random, back to the opening after each 60 plies, until 100,000 positions are
/// added.
fn walk(rt: &impl Abort, alloc: Global, store: &mut Store) {
    let mut random: u64 = 1;
    let mut name = 0;
    for step in 0..400_000u32 {
        if store.len() > 100_000 {
            return;
        }
        if step % 60 == 0 {
            name = 0;
        }
        random = next_random(random);
        name = go_on(rt, alloc, store, name, random, (step % 64) as u8);
    }
}

/// Asserts that all positions are found by their lines.
fn are_found_by_their_lines(rt: &impl Abort, alloc: Global, store: &Store) {
    for name in 0..store.len() {
        is_found_by_its_line(rt, alloc, store, name);
    }
}

#[test]
fn the_positions_of_a_walk_are_found_again_by_their_lines(rt: HostRuntime) {
    let mut store = opened(&rt, rt.alloc());
    walk(&rt, rt.alloc(), &mut store);
    assert_eq!(rt; store.len(), 100_001);
    are_found_by_their_lines(&rt, rt.alloc(), &store);
}

/// The knights go out and back again.
#[test]
fn a_position_that_comes_again_has_its_first_name(rt: HostRuntime) {
    let mut store = opened(&rt, rt.alloc());
    let name = add(&rt, &mut store, 0, from_to(&rt, 6, 21), Some(0));
    let name = add(&rt, &mut store, name, from_to(&rt, 62, 45), Some(0));
    let name = add(&rt, &mut store, name, from_to(&rt, 21, 6), Some(0));
    let name = add(&rt, &mut store, name, from_to(&rt, 45, 62), Some(0));
    assert!(rt; name == 0);
    assert_eq!(rt; store.len(), 4);
}

/// Asserts that a leaf does not wait, and that a position is none until it is marked.
fn is_no_leaf_until_marked(rt: &impl Abort, store: &mut Store) {
    let name = add(rt, store, 0, from_to(rt, 12, 28), None);
    assert!(rt; name == 1 && name < store.len() && store.is_leaf(name));
    let root = store.pop().expect(rt, "one that waits");
    assert!(rt; root == 0 && !store.is_leaf(root));
    store.mark_leaf(root);
    assert!(rt; root < store.len() && store.is_leaf(root));
    pops(rt, store, None);
}

#[test]
fn a_leaf_does_not_wait(rt: HostRuntime) {
    let mut store = opened(&rt, rt.alloc());
    is_no_leaf_until_marked(&rt, &mut store);
}

/// Adds a node that waits in list 9 where there is room for one.
fn add_with_room<L: Ledger>(
    rt: &impl Abort,
    store: &mut Store,
    by: Move,
    steps: &mut Steps<L>,
) -> u32
    requires { 1 ≤ store.old.spare }
    ensures { store.old.spare ≡ store.new.spare + 1 }
{
    assert!(rt; 0 < store.len() && store.len() <= 2);
    let here = store.position(0);
    assert!(rt; is_legal(&here, by));
    let next = after(&here, by);
    assert!(rt; store.find(&next).is_none());
    store.add_ready(&next, 0, by, 9, steps)
}

/// With room for two, two nodes are added, none of which is refused, and the second comes back.
fn two_with_room<L: Ledger>(rt: &impl Abort, store: &mut Store, blank: Blank) -> Option<u32>
    requires { (L.parts ≡ blank.parts) × (L.name ≡ blank.name) × (0 < blank.parts) }
{
    let (book, share) = blank.open::<L>();
    let mut steps = Steps::opened(book, share);
    store.reserve(2).expect(rt, "memory");
    add_with_room(rt, store, from_to(rt, 12, 28), &mut steps);
    add_with_room(rt, store, from_to(rt, 11, 27), &mut steps);
    store.pop_counted(&mut steps)
}

#[test]
fn room_for_two_takes_two(rt: HostRuntime) {
    let mut store = opened(&rt, rt.alloc());
    pops(&rt, &mut store, Some(0));
    assert!(rt; two_with_room::<Brand>(&rt, &mut store, Blank::new(1)) == Some(2));
    pops(&rt, &mut store, Some(1));
}

/// A name of new chains is put into a list and taken from it.
fn one_name<L: Ledger>(chains: &mut Chains, blank: Blank) -> Option<u32>
    requires ledger { (L.parts ≡ blank.parts) × (L.name ≡ blank.name) × (0 < blank.parts) }
    requires room { 1 ≤ chains.old.spare }
    requires none { chains.old.lists ≡ replicate 64 [] }
    requires slots { chains.old.slots ≡ 0 }
    ensures { result ≡ Some 0 }
{
    let (book, share) = blank.open::<L>();
    let mut steps = Steps::opened(book, share);
    let name = chains.slot();
    chains.link(63, name, &mut steps);
    chains.unlink(63, &mut steps)
}

#[test]
fn a_name_is_linked_and_unlinked(rt: HostRuntime) {
    let mut chains = Chains::new(rt.alloc());
    chains.reserve(1).expect(&rt, "memory");
    assert!(rt; one_name::<Brand>(&mut chains, Blank::new(1)) == Some(0));
}
