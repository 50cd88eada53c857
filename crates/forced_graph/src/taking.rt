//! How the next position is taken from those that wait.

ghost use Rattle.std.specs.Prelude.{◌≡◌, ◌<◌, [], length, IfOk, IfSome, IfNone};
ghost use Rattle.forced_graph.specs.Regions.{IsBetween, IsPopped, IsExpanding, IsDone, IsLeafPart, IsUnshown, IsSameTask};
ghost use Rattle.forced_graph.specs.HowManyWait.{how_many};

use crate::lasting::is_lasting;
use crate::region::Region;
use cha_board::Color;
use cha_cert::Part;
use cha_list::NoMemory;
use mob_small::Reason;
use mob_solve::static_verdict;
use node_store::Store;
use std::alloc::Global;

impl Region {
    /// Takes waiting nodes until one is no leaf, which is to be expanded. `None` where none waits any more.
    pub fn next(&mut self, alloc: Global) -> Result<Option<u32>, NoMemory>
        requires { IsBetween self.old }
        ensures same { IsSameTask self.old self.new }
        ensures taken { IfOk result (λ o. IfSome o (λ name. IsExpanding name [] self.new)) }
        ensures none { IfOk result (λ o. IfNone o (IsDone self.new)) }
    {
        while let Some(name) = self.pop() {
            match leaf_part(alloc, &self.store, self.winner, name)? {
                None => {
                    // Each node has a place of its own, and comes from an earlier one.
                    self.store.known();
                    return Ok(Some(name));
                }
                Some(part) => self.mark(name, part),
            }
        }
        Ok(None)
    }

    /// Takes the waiting node that comes first.
    fn pop(&mut self) -> Option<u32>
        requires { IsBetween self.old }
        ensures same { IsSameTask self.old self.new }
        ensures popped { IfSome result (λ name. IsPopped name self.new) }
        ensures fewer { IfSome result (λ name. how_many self.new.store.waiting < how_many self.old.store.waiting) }
        ensures none { IfNone result (IsDone self.new) }
    {
        self.store.pop()
    }

    /// Makes the node that was taken a leaf.
    fn mark(&mut self, name: u32, part: Part)
        requires popped { IsPopped name self.old }
        requires leaf { IsLeafPart self.old.store.nodes name self.old.winner part }
        ensures same { IsSameTask self.old self.new }
        ensures between { IsBetween self.new }
        ensures waiting { self.new.store.waiting ≡ self.old.store.waiting }
    {
        self.store.mark_leaf(name);
        self.parts[name as usize] = part;
    }
}

/// What a node is as a leaf, if it is one: where the move that led there changes the position for good, its men are looked at,
/// which may show it alone, and then closed sets without a mate are looked for.
fn leaf_part(
    alloc: Global,
    store: &Store,
    winner: Color,
    name: u32,
) -> Result<Option<Part>, NoMemory>
    requires { name < length store.now.nodes }
    ensures leaf { IfOk result (λ o. IfSome o (IsLeafPart store.now.nodes name winner)) }
    ensures open { IfOk result (λ o. IfNone o (IsUnshown store.now.nodes name winner)) }
{
    let Some(origin) = store.origin(name) else {
        return Ok(None);
    };
    let next = store.position(name);
    if !is_lasting(&store.position(origin.parent), origin.by, &next) {
        return Ok(None);
    }
    if let Some(reason) = Reason::find(&next, winner) {
        return Ok(Some(Part::Men(reason)));
    }
    match static_verdict(alloc, &next, winner)? {
        None => Ok(None),
        Some(sets) => Ok(Some(Part::Leaf(sets))),
    }
}
