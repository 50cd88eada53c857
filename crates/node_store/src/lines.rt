//! The line that led to a node.

ghost use Rattle.std.specs.Prelude.{◌<◌, length, IfOk};
ghost use Rattle.node_store.specs.Nodes.{IsPath};

use crate::store::Store;
use cha_list::NoMemory;
use cha_moves::Moves;
use std::alloc::Global;

impl Store {
    /// The legal moves, one after another, from the root to a node.
    pub fn path(&self, alloc: Global, name: u32) -> Result<Moves, NoMemory>
        requires { name < length self.now.nodes }
        ensures { IfOk result (λ moves. IsPath self.now.nodes 0 moves name) }
    {
        let mut back = Vec::new(alloc);
        let mut at = name;
        while let Some(origin) = self.origin(at) {
            back.push(origin.by)?;
            at = origin.parent;
        }
        back.reverse();
        Ok(Moves::from_vec(back))
    }
}
