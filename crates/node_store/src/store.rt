//! The positions of an exploration and the names of those that wait.

ghost use Rattle.std.specs.Prelude.{◌≡◌, ◌+◌, ◌-◌, ◌<◌, ◌≤◌, ℕ, max, [], ◌∷◌, ◌++◌, false, true, None, Some, length, replicate, slice_get, IfSome, IfNone, IfOk, IsOk, OnOk, OnErr};
ghost use Rattle.cha_board.specs.Board.{Board};
ghost use Rattle.node_store.specs.NameLists.{list_at, Has, put};
ghost use Rattle.node_store.specs.Nodes.{leaves, origins, mark, IsAt, IsNew, IsReached};
ghost use Rattle.node_store.specs.Graphs.{IsStore, HasOrigin};

use crate::chains::Chains;
use crate::origin::{NodeMark, Origin};
use crate::spot::Spot;
use cha_board::{Kept, Position};
use cha_list::{NoMemory, Steps};
use cha_moves::Move;
use indexmap::IndexMap;
use std::alloc::Global;
use std::marker::Model;
use std::sync::ledger::Ledger;

/// The positions of an exploration, named from 0 on, each with the node that it came from and the move that led there.
/// Some wait to be expanded, in 64 lists. Contracts see the nodes, the lists of waiting names, and for how many more
/// nodes room was made ready.
#[derive(Drop)]
pub struct Store {
    nodes: IndexMap<Spot, NodeMark>,
    pub(crate) waiting: Chains,
}

impl Model for Store {
    ghost use Rattle.std.specs.Prelude.{◌≤◌};
    ghost use Rattle.indexmap.specs.IndexMap.{spare};
    ghost use Rattle.node_store.specs.Graphs.{Graph};

    ghost Value = { Graph };

    ghost use Rattle.node_store.specs.Places.{nodes_of, AreStored};

    ghost view = { λ s. record { nodes = nodes_of s.nodes.entries; waiting = s.waiting.lists; spare = s.waiting.spare } };

    ghost invariant = { λ s. AreStored s.nodes.entries s.waiting.lists s.waiting.slots × (s.waiting.spare ≤ spare s.nodes) };
}

impl Store {
    /// A store of one node, 0, which waits in list 0.
    pub fn new(alloc: Global, root: &Position) -> Result<Store, NoMemory>
        ensures nodes { IfOk result (λ store. store.nodes ≡ record { position = root.now; origin = None; leaf = false } ∷ []) }
        ensures waiting { IfOk result (λ store. store.waiting ≡ put (replicate 64 []) 0 0) }
        ensures spare { IfOk result (λ store. store.spare ≡ 0) }
    {
        root.known();
        let mut waiting = Chains::new(alloc);
        waiting.reserve(1)?;
        let mut nodes = IndexMap::new(alloc);
        let place = NodeMark {
            origin: None,
            leaf: false,
        };
        let spot = Spot {
            position: Kept::of(root),
        };
        nodes.insert(spot, place)?;
        let name = waiting.slot();
        waiting.put(0, name);
        Ok(Store { nodes, waiting })
    }

    /// Proves to the caller what holds of every store: positions are distinct and valid, each node but the root comes from an earlier one by a
    /// legal move, each waiting name is a node that is no leaf, and waits once.
    pub fn known(&self)
        ensures { IsStore self.now.nodes self.now.waiting }
    {
        let _nodes = &self.nodes;
    }

    /// How many nodes there are.
    pub fn len(&self) -> u32
        ensures { result ≡ length self.now.nodes }
    {
        self.nodes.len() as u32
    }

    /// The name of a position. `None` where no node has it.
    pub fn find(&self, position: &Position) -> Option<u32>
        ensures found { IfSome result (λ name. IsAt self.now.nodes name position.now) }
        ensures none { IfNone result (IsNew self.now.nodes position.now) }
    {
        let wanted = Spot {
            position: Kept::of(position),
        };
        self.find_spot(&wanted)
    }

    // The name of a position that is kept.
    fn find_spot(&self, wanted: &Spot) -> Option<u32>
        ensures found { IfSome result (λ name. IsAt self.now.nodes name wanted.now.position) }
        ensures none { IfNone result (IsNew self.now.nodes wanted.now.position) }
    {
        wanted.position.known();
        match self.nodes.get_full(wanted) {
            None => None,
            Some((at, spot, _)) => {
                spot.position.known();
                Some(at as u32)
            }
        }
    }

    /// The position of a node.
    pub fn position(&self, name: u32) -> Position
        requires { name < length self.now.nodes }
        ensures { IsAt self.now.nodes name result }
    {
        match self.nodes.get_index(name as usize) {
            Some((spot, _)) => spot.position.position(),
            None => unreachable!(),
        }
    }

    /// Whether a node is a leaf.
    pub fn is_leaf(&self, name: u32) -> bool
        requires { name < length self.now.nodes }
        ensures { slice_get (leaves self.now.nodes) name ≡ Some result }
    {
        match self.nodes.get_index(name as usize) {
            Some((_, place)) => place.leaf,
            None => unreachable!(),
        }
    }

    /// Makes room for `more` further nodes. Where room for so many is there already it is never refused; on a refusal nothing changes.
    pub fn reserve(&mut self, more: u32) -> Result<(), NoMemory>
        ensures nodes { self.new.nodes ≡ self.old.nodes }
        ensures waiting { self.new.waiting ≡ self.old.waiting }
        ensures ok { OnOk result (more ≤ self.new.spare) }
        ensures spare { OnOk result (self.new.spare ≡ max self.old.spare more) }
        ensures room { self.old.spare ≤ self.new.spare }
        ensures succeeds { more ≤ self.old.spare → IsOk result }
        ensures err { OnErr result (self.new ≡ self.old) }
    {
        // The names count what is ready, so they come last.
        self.nodes.reserve(more as usize)?;
        self.waiting.reserve(more)
    }

    /// Adds a node that does not wait, for which there is room.
    fn insert(&mut self, position: &Position, origin: Origin, leaf: bool) -> u32
        requires new { IsNew self.old.nodes position.now }
        requires reached { IsReached self.old.nodes origin.parent origin.by position.now }
        requires few { length self.old.nodes < 4294967295 }
        requires spare { 1 ≤ self.old.spare }
        ensures name { result ≡ length self.old.nodes }
        ensures nodes { self.new.nodes ≡ self.old.nodes ++ record { position = position.now; origin = Some origin; leaf = leaf } ∷ [] }
        ensures waiting { self.new.waiting ≡ self.old.waiting }
        ensures spare { self.old.spare ≡ self.new.spare + 1 }
    {
        position.known();
        let spot = Spot {
            position: Kept::of(position),
        };
        let place = NodeMark {
            origin: Some(origin),
            leaf,
        };
        match self.nodes.insert(spot, place) {
            Ok(_) => self.waiting.slot(),
            Err(_) => unreachable!(),
        }
    }

    /// Adds a node that waits in one of the 64 lists: a position that no node has yet, and that a legal move reaches from
    /// its parent. On a refusal nothing changes.
    pub fn add(
        &mut self,
        position: &Position,
        parent: u32,
        by: Move,
        bucket: u8,
    ) -> Result<u32, NoMemory>
        requires new { IsNew self.old.nodes position.now }
        requires reached { IsReached self.old.nodes parent by position.now }
        requires bucket { bucket < 64 }
        requires few { length self.old.nodes < 4294967295 }
        ensures name { IfOk result (λ name. name ≡ length self.old.nodes) }
        ensures nodes { OnOk result (self.new.nodes ≡ self.old.nodes ++ record { position = position.now; origin = Some (record { parent = parent; by = by }); leaf = false } ∷ []) }
        ensures waiting { OnOk result (self.new.waiting ≡ put self.old.waiting bucket (length self.old.nodes)) }
        ensures spare { OnOk result (self.new.spare ≡ self.old.spare - 1) }
        ensures succeeds { 1 ≤ self.old.spare → IsOk result }
        ensures err { OnErr result (self.new ≡ self.old) }
    {
        self.known();
        self.reserve(1)?;
        let name = self.insert(position, Origin { parent, by }, false);
        self.waiting.put(bucket, name);
        Ok(name)
    }

    /// Adds a leaf, which does not wait. On a refusal nothing changes.
    pub fn add_leaf(&mut self, position: &Position, parent: u32, by: Move) -> Result<u32, NoMemory>
        requires new { IsNew self.old.nodes position.now }
        requires reached { IsReached self.old.nodes parent by position.now }
        requires few { length self.old.nodes < 4294967295 }
        ensures name { IfOk result (λ name. name ≡ length self.old.nodes) }
        ensures nodes { OnOk result (self.new.nodes ≡ self.old.nodes ++ record { position = position.now; origin = Some (record { parent = parent; by = by }); leaf = true } ∷ []) }
        ensures waiting { self.new.waiting ≡ self.old.waiting }
        ensures spare { OnOk result (self.new.spare ≡ self.old.spare - 1) }
        ensures succeeds { 1 ≤ self.old.spare → IsOk result }
        ensures err { OnErr result (self.new ≡ self.old) }
    {
        self.reserve(1)?;
        Ok(self.insert(position, Origin { parent, by }, true))
    }

    /// Marks a node that does not wait as a leaf.
    pub fn mark_leaf(&mut self, name: u32)
        requires within { name < length self.old.nodes }
        requires free { (b : ℕ) → Has (list_at self.old.waiting b) name → ⊥ }
        ensures nodes { self.new.nodes ≡ mark self.old.nodes name }
        ensures waiting { self.new.waiting ≡ self.old.waiting }
        ensures spare { self.new.spare ≡ self.old.spare }
    {
        match self.nodes.get_index_mut(name as usize) {
            Some(place) => place.leaf = true,
            None => unreachable!(),
        }
    }

    /// Where a node came from. `None` for the root alone.
    pub fn origin(&self, name: u32) -> Option<Origin>
        requires { name < length self.now.nodes }
        ensures value { slice_get (origins self.now.nodes) name ≡ Some result }
        ensures comes { (q : Board) × IsAt self.now.nodes name q × HasOrigin self.now.nodes name q result }
    {
        match self.nodes.get_index(name as usize) {
            Some((_, place)) => place.origin,
            None => unreachable!(),
        }
    }

    /// What `add` does where there is room, so that it is never refused. Putting the name into its list is one step.
    pub fn add_ready<L: Ledger>(
        &mut self,
        position: &Position,
        parent: u32,
        by: Move,
        bucket: u8,
        steps: &mut Steps<L>,
    ) -> u32
        requires new { IsNew self.old.nodes position.now }
        requires reached { IsReached self.old.nodes parent by position.now }
        requires bucket { bucket < 64 }
        requires few { length self.old.nodes < 4294967295 }
        requires spare { 1 ≤ self.old.spare }
        ensures name { result ≡ length self.old.nodes }
        ensures nodes { self.new.nodes ≡ self.old.nodes ++ record { position = position.now; origin = Some (record { parent = parent; by = by }); leaf = false } ∷ [] }
        ensures waiting { self.new.waiting ≡ put self.old.waiting bucket (length self.old.nodes) }
        ensures spare { self.old.spare ≡ self.new.spare + 1 }
        ensures cost { steps.new ≡ steps.old + 1 }
    {
        self.known();
        let name = self.insert(position, Origin { parent, by }, false);
        self.waiting.link(bucket, name, steps);
        name
    }

    /// What `add_leaf` does where there is room, so that it is never refused.
    pub fn add_leaf_ready(&mut self, position: &Position, parent: u32, by: Move) -> u32
        requires new { IsNew self.old.nodes position.now }
        requires reached { IsReached self.old.nodes parent by position.now }
        requires few { length self.old.nodes < 4294967295 }
        requires spare { 1 ≤ self.old.spare }
        ensures name { result ≡ length self.old.nodes }
        ensures nodes { self.new.nodes ≡ self.old.nodes ++ record { position = position.now; origin = Some (record { parent = parent; by = by }); leaf = true } ∷ [] }
        ensures waiting { self.new.waiting ≡ self.old.waiting }
        ensures spare { self.old.spare ≡ self.new.spare + 1 }
    {
        self.insert(position, Origin { parent, by }, true)
    }
}
