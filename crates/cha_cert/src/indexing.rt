//! Where positions stand in a certificate: in order of their words, so that one is found without a look at each node.

ghost use Rattle.std.specs.Prelude.{◌≡◌, ◌↔◌, ◌+◌, ◌-◌, ◌*◌, ◌^◌, ◌<◌, ◌≤◌, IsTrue, IfOk, length, map, Contains, All};
ghost use Rattle.std.specs.List.{HoldsAt};
ghost use Rattle.std.specs.Ordering.{nat_cmp};
ghost use Rattle.std.specs.Cmp.Lexicographic.{slice_cmp};
ghost use Rattle.cha_board.specs.Board.{IsValid};
ghost use Rattle.cha_cert.specs.Certificates.{AllValid, positions_of};
ghost use Rattle.cha_cert.specs.Shared.{expansion};
ghost use Rattle.cha_cert.specs.Indexed.{packed_of, words_in, places_from, IsIndexOf, AreSorted};

use crate::nodes::{Cert, Node};
use crate::shared::{SharedCert, SharedNode};
use cha_board::{Packed, Position};
use cha_list::{NoMemory, Steps};
use std::alloc::Global;
use std::cmp::Ordering;
use std::marker::Model;
use std::sync::ledger::Ledger;

/// The position of a node as words, and the number of the node, from 0.
#[derive(Clone, Copy, Debug, PartialEq, Eq, PartialOrd, Ord)]
pub struct IndexEntry {
    pub packed: Packed,
    pub number: u32,
}

/// The positions of the nodes of a certificate, in order of their words. Contracts see the list of the words and the numbers
/// of their nodes.
#[derive(Drop)]
pub struct Index {
    places: Vec<IndexEntry>,
}

impl Model for Index {
    ghost use Rattle.std.specs.Prelude.{List, ◌<◌, ◌^◌, length};
    ghost use Rattle.cha_cert.specs.declared.indexing.IndexEntry.{IndexEntry};
    ghost use Rattle.cha_cert.specs.Indexed.{AreSorted};

    ghost Value = { List IndexEntry };

    ghost view = { λ s. s.places.items };

    ghost invariant = { λ s. AreSorted s.places.items × (length s.places.items < 2 ^ 32) };
}

impl Index {
    /// The index of a certificate.
    pub fn new(alloc: Global, cert: &Cert) -> Result<Index, NoMemory>
        requires { length cert.now < 2 ^ 32 }
        ensures { IfOk result (λ index. IsIndexOf cert.now index) }
    {
        let mut places = places_of(alloc, cert.nodes())?;
        places.sort()?;
        Ok(Index { places })
    }

    /// The index of a shared certificate.
    pub fn of_shared(alloc: Global, shared: &SharedCert) -> Result<Index, NoMemory>
        requires { length shared.now.nodes < 2 ^ 32 }
        ensures { IfOk result (λ index. IsIndexOf (expansion shared.now) index) }
    {
        let mut places = places_of_shared(alloc, shared.nodes())?;
        places.sort()?;
        Ok(Index { places })
    }

    /// How many places there are.
    pub fn len(&self) -> u32
        ensures { result ≡ length self.now }
    {
        self.places.len() as u32
    }

    /// That the places are in order of their words.
    fn known(&self)
        ensures { AreSorted self.now }
    {
        let _places = &self.places;
    }

    /// Compares a packed position with the one at a place of the index, and counts one step. It takes no memory.
    pub fn compare<L: Ledger>(&self, place: u32, key: &Packed, steps: &mut Steps<L>) -> Ordering
        requires { place < length self.now }
        ensures value { HoldsAt (λ there. result ≡ slice_cmp nat_cmp key.now.words there.packed.words) self.now place }
        ensures cost { steps.new ≡ steps.old + 1 }
    {
        steps.tick();
        key.cmp(&self.places[place as usize].packed)
    }

    /// Whether some node has a position, which is given as words. Each look halves the places that are left. It takes no
    /// memory.
    pub fn find<L: Ledger>(&self, key: &Packed, steps: &mut Steps<L>) -> bool
        ensures found { IsTrue result ↔ Contains (words_in self.now) key.now }
        ensures rises { steps.old ≤ steps.new }
        ensures cost { 2 ^ (steps.new - steps.old) ≤ 2 * length self.now + 1 }
    {
        self.known();
        let mut low = 0u32;
        let mut high = self.len();
        while low < high {
            let middle = low + (high - low) / 2;
            match self.compare(middle, key, steps) {
                Ordering::Equal => return true,
                Ordering::Less => high = middle,
                Ordering::Greater => low = middle + 1,
            }
        }
        false
    }
}

/// Whether some node has a position.
pub(crate) fn has<L: Ledger>(index: &Index, position: &Position, steps: &mut Steps<L>) -> bool
    ensures found { IsTrue result ↔ Contains (words_in index.now) (packed_of position.now) }
    ensures rises { steps.old ≤ steps.new }
    ensures cost { 2 ^ (steps.new - steps.old) ≤ 2 * length index.now + 1 }
{
    index.find(&position.pack(), steps)
}

/// The places of nodes, in order of the nodes.
fn places_of(alloc: Global, nodes: &[Node]) -> Result<Vec<IndexEntry>, NoMemory>
    requires { length nodes.now < 2 ^ 32 }
    ensures places { IfOk result (λ places. places.items ≡ places_from 0 (positions_of nodes.now)) }
    ensures valid { IfOk result (λ places. AllValid nodes.now) }
{
    let mut places = Vec::with_capacity(alloc, nodes.len())?;
    for number in 0..nodes.len() {
        let node = &nodes[number];
        node.position.known();
        places.push(IndexEntry {
            packed: node.position.pack(),
            number: number as u32,
        })?;
    }
    Ok(places)
}

/// The places of the nodes of a shared certificate, in their order.
fn places_of_shared(alloc: Global, nodes: &[SharedNode]) -> Result<Vec<IndexEntry>, NoMemory>
    requires { length nodes.now < 2 ^ 32 }
    ensures places { IfOk result (λ places. places.items ≡ places_from 0 (map (λ node. node.position) nodes.now)) }
    ensures valid { IfOk result (λ places. All (λ node. IsValid node.position) nodes.now) }
{
    let mut places = Vec::with_capacity(alloc, nodes.len())?;
    for number in 0..nodes.len() {
        let node = &nodes[number];
        node.position.known();
        places.push(IndexEntry {
            packed: node.position.packed(),
            number: number as u32,
        })?;
    }
    Ok(places)
}
