//! How a position is expanded.

ghost use Rattle.std.specs.Prelude.{◌≡◌, ◌+◌, ◌<◌, [], IfOk, IfSome, IfNone, OnOk};
ghost use Rattle.cha_moves.specs.Ends.{IsMatingLine};
ghost use Rattle.node_store.specs.Nodes.{IsReached};
ghost use Rattle.forced_graph.specs.Regions.{IsBetween, IsExpanding, IsTaskOf, IsSameTask, IsMet};

use crate::region::Region;
use cha_board::Position;
use cha_cert::Part;
use cha_list::NoMemory;
use cha_moves::{Move, Moves, after, is_mate, legal};
use search_guide::{Guide, guide};
use std::alloc::Global;

impl Region {
    /// Expands a node that was taken: each position after a legal move becomes a node, if it is none yet, and waits. Where
    /// one of them is a mate, the answer is the line from the root to it.
    pub fn expand(&mut self, alloc: Global, name: u32) -> Result<Option<Moves>, NoMemory>
        requires taken { IsExpanding name [] self.old }
        requires few { self.old.count < 4294967295 }
        ensures mates { IfOk result (λ o. IfSome o (IsMatingLine self.old.root self.old.winner)) }
        ensures task { IsTaskOf self.old.root self.old.winner self.new }
        ensures count { IfOk result (λ o. IfNone o (self.new.count ≡ self.old.count + 1)) }
        ensures between { IfOk result (λ o. IfNone o (IsBetween self.new)) }
    {
        let here = self.store.position(name);
        let moves = legal(alloc, &here)?;
        self.store.reserve(moves.len() as u32)?;
        self.parts.reserve(moves.len())?;
        for by in &moves {
            let next = after(&here, *by);
            if is_mate(&next, self.winner) {
                return Ok(Some(self.line_by(alloc, name, &[*by])?));
            }
            self.meet(&next, name, *by)?;
        }
        self.count += 1;
        Ok(None)
    }

    /// Makes a position a node that waits, unless it is a node already.
    fn meet(&mut self, position: &Position, parent: u32, by: Move) -> Result<(), NoMemory>
        requires { IsReached self.old.store.nodes parent by position.now }
        ensures same { IsSameTask self.old self.new }
        ensures met { OnOk result (IsMet self.old self.new parent by position.now) }
    {
        match self.store.find(position) {
            Some(_) => Ok(()),
            None => {
                // Bucket and name are told of the lists as they are.
                self.store.known();
                // Where names run out, memory counts as used up.
                if self.store.len() == u32::MAX {
                    return Err(NoMemory);
                }
                let bucket = guide(Guide::Corner, position, self.winner);
                self.store.add(position, parent, by, bucket)?;
                self.parts.push(Part::Inner)?;
                Ok(())
            }
        }
    }
}
