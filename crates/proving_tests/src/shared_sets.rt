//! A certificate whose leaves have equal sets: shared, expanded, and checked both ways.

use cha_board::{Color, Kind, Position, Square};
use cha_cert::{
    Cert, Checked, Node, Part, SharedCert, SharedNode, SharedPart, check, check_shared, expand,
    share,
};
use cha_fen::read;
use mob_sets::Sets;
use std::alloc::Global;
use std::process::Abort;

/// Appends a node.
fn add(rt: &impl Abort, cert: &mut Cert, position: Position, part: Part) {
    if cert.push(Node { position, part }).is_err() {
        panic!(rt; "no memory");
    }
}

/// Sets with one square.
fn one_square(rt: &impl Abort, alloc: Global) -> Sets {
    let mut sets = Sets::new(alloc);
    let added = sets.add(Square::at(4), Kind::King, Square::at(5));
    added.expect(rt, "memory");
    sets
}

/// Adds an inner node and three leaves, of which the first and the last have equal sets.
fn add_sample(rt: &impl Abort, alloc: Global, position: Position, cert: &mut Cert) {
    add(rt, cert, position, Part::Inner);
    add(rt, cert, position, Part::Leaf(Sets::new(alloc)));
    add(rt, cert, position, Part::Leaf(one_square(rt, alloc)));
    add(rt, cert, position, Part::Leaf(Sets::new(alloc)));
}

/// What its nodes say.
const PARTS: &[SharedPart] = &[
    SharedPart::Inner,
    SharedPart::Leaf(0),
    SharedPart::Leaf(1),
    SharedPart::Leaf(0),
];

/// Whether nodes say these parts.
fn are_parts(nodes: &[SharedNode], wanted: &[SharedPart]) -> bool {
    let mut same = nodes.len() == wanted.len();
    for (node, part) in nodes.iter().zip(wanted.iter()) {
        same = same && node.part == *part;
    }
    same
}

/// What the check answers of a small certificate.
fn checked(rt: &impl Abort, alloc: Global, position: &Position, cert: &Cert) -> Checked {
    assert!(rt; cert.nodes().len() <= 99);
    check(alloc, position, Color::White, cert).expect(rt, "memory")
}

/// Asserts that both checks answer the same.
fn is_answered_alike(rt: &impl Abort, alloc: Global, position: &Position, shared: &SharedCert) {
    assert!(rt; shared.nodes().len() <= 99);
    let back = expand(alloc, shared).expect(rt, "memory");
    let plain = checked(rt, alloc, position, &back);
    let answer = check_shared(alloc, position, Color::White, shared);
    assert!(rt; answer.expect(rt, "memory") == plain);
}

#[test]
fn equal_sets_are_written_once(rt: HostRuntime) {
    let position = Position::start();
    let mut cert = Cert::new(rt.alloc());
    add_sample(&rt, rt.alloc(), position, &mut cert);
    assert!(rt; cert.nodes().len() <= 99);
    let shared = share(rt.alloc(), &cert).expect(&rt, "memory");
    assert!(rt; shared.sets().len() == 2);
    assert!(rt; are_parts(shared.nodes(), PARTS));
    is_answered_alike(&rt, rt.alloc(), &position, &shared);
}

/// A stalemate is a certificate of one node, and none for another position; nor is one without nodes.
#[test]
fn a_certificate_is_for_the_position_of_its_first_node(rt: HostRuntime) {
    let stalemate = read(b"7k/5Q2/6K1/8/8/8/8/8 b - -").expect(&rt, "a position");
    let mut cert = Cert::new(rt.alloc());
    let none = checked(&rt, rt.alloc(), &stalemate, &cert);
    assert!(rt; none == Checked::Fails(0));
    add(&rt, &mut cert, stalemate, Part::Inner);
    let own = checked(&rt, rt.alloc(), &stalemate, &cert);
    assert!(rt; own == Checked::Accepted);
    let other = checked(&rt, rt.alloc(), &Position::start(), &cert);
    assert!(rt; other == Checked::Fails(0));
}
