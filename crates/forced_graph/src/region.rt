//! The positions that an exploration has met.

ghost use Rattle.std.specs.Prelude.{◌≡◌, ◌<◌, length, IfOk};
ghost use Rattle.cha_board.specs.Men.{other_color};
ghost use Rattle.cha_board.specs.Board.{Board};
ghost use Rattle.cha_moves.specs.Ends.{IsMated, IsMatingLine};
ghost use Rattle.node_store.specs.Nodes.{IsAt};
ghost use Rattle.forced_graph.specs.Regions.{IsBetween, IsTaskOf};

use cha_board::{Color, Position};
use cha_cert::Part;
use cha_list::NoMemory;
use cha_moves::{Move, Moves};
use node_store::Store;
use std::alloc::Global;

/// The positions that were met by legal moves from a root, for a side that may mate. Some wait.
#[derive(Drop)]
pub struct Region {
    pub root: Position,
    pub winner: Color,
    /// How many positions were expanded.
    pub count: u32,
    pub store: Store,
    /// What each node is in a certificate, by its name: inner until it is known to be a leaf.
    pub parts: Vec<Part>,
}

impl Region {
    /// The root alone, which waits.
    pub fn new(alloc: Global, root: &Position, winner: Color) -> Result<Region, NoMemory>
        requires { IsMated root.now (other_color winner) → ⊥ }
        ensures between { IfOk result IsBetween }
        ensures task { IfOk result (IsTaskOf root.now winner) }
        ensures count { IfOk result (λ region. region.count ≡ 0) }
    {
        let store = Store::new(alloc, root)?;
        let mut parts = Vec::new(alloc);
        parts.push(Part::Inner)?;
        Ok(Region {
            root: *root,
            winner,
            count: 0,
            store,
            parts,
        })
    }

    /// The moves from the root to a node, and a line behind them that mates from there.
    pub fn line_by(&self, alloc: Global, name: u32, rest: &[Move]) -> Result<Moves, NoMemory>
        requires within { name < length self.now.store.nodes }
        requires root { IsAt self.now.store.nodes 0 self.now.root }
        requires mates { (q : Board) → IsAt self.now.store.nodes name q → IsMatingLine q self.now.winner rest.now }
        ensures mates { IfOk result (IsMatingLine self.now.root self.now.winner) }
    {
        let mut moves = self.store.path(alloc, name)?.into_vec();
        moves.extend_from_slice(rest)?;
        Ok(Moves::from_vec(moves))
    }
}
