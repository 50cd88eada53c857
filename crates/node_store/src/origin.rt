//! Where a position came from.

use cha_moves::Move;

/// The node from which a position was reached, and the move that led there.
#[derive(Clone, Copy)]
pub struct Origin {
    pub parent: u32,
    pub by: Move,
}

/// What is kept of a node beside its position.
#[derive(Clone, Copy)]
pub struct NodeMark {
    pub origin: Option<Origin>,
    pub leaf: bool,
}
