//! A certificate in which equal sets are written once.

ghost use Rattle.std.specs.Prelude.{◌≡◌, ◌<◌, [], ◌∷◌, ◌++◌, ◌^◌, length, None, OnOk, OnErr, IfErr};
ghost use Rattle.cha_cert.specs.Shared.{Names, AreNamed, leaf_added};

use cha_board::Kept;
use cha_list::{Listed, NoMemory};
use mob_sets::Sets;
use mob_small::Reason;
use std::alloc::Global;
use std::marker::Model;

/// Why no series of legal moves from a node's position mates.
#[derive(Clone, Copy, Debug, PartialEq, Eq)]
pub enum SharedPart {
    /// The position is no mate, and each legal move leads to the position of some node.
    Inner,
    /// The mobility sets of this number, counted from 0, are closed for the position and have no mate.
    Leaf(u32),
    /// The men that the position has show it alone.
    Men(Reason),
}

/// A position, and why no series of legal moves from it mates.
#[derive(Drop)]
pub struct SharedNode {
    pub position: Kept,
    pub part: SharedPart,
}

/// A certificate whose leaves name their sets by number: a list of sets, and a list of nodes, of which the first has the
/// position that the certificate is for. Each leaf names sets that are there. Contracts see the two lists.
#[derive(Drop)]
pub struct SharedCert {
    sets: Listed<Sets>,
    nodes: Listed<SharedNode>,
}

impl Model for SharedCert {
    ghost use Rattle.cha_cert.specs.Shared.{Shared, AreNamed};

    ghost Value = { Shared };

    ghost view = { λ s. record { sets = s.sets; nodes = s.nodes } };

    ghost invariant = { λ s. AreNamed (record { sets = s.sets; nodes = s.nodes }) };
}

impl SharedCert {
    /// The certificate without sets and nodes. It takes no memory.
    pub fn new(alloc: Global) -> SharedCert
        ensures { result ≡ record { sets = []; nodes = [] } }
    {
        SharedCert {
            sets: Listed::new(alloc),
            nodes: Listed::new(alloc),
        }
    }

    /// Appends sets to the list of sets. On a refusal they come back, and the certificate is unchanged.
    pub fn add_sets(&mut self, sets: Sets) -> Result<(), (Sets, NoMemory)>
        ensures ok { OnOk result (self.new ≡ record { sets = self.old.sets ++ sets ∷ []; nodes = self.old.nodes }) }
        ensures err { OnErr result (self.new ≡ self.old) }
        ensures sets_returned { IfErr result (λ refused. refused.0 ≡ sets) }
    {
        self.sets.push(sets)
    }

    /// Appends a node. A leaf names sets that are there. On a refusal the node comes back, and the certificate is unchanged.
    pub fn push(&mut self, node: SharedNode) -> Result<(), (SharedNode, NoMemory)>
        requires { Names (length self.old.sets) node.part }
        ensures ok { OnOk result (self.new ≡ record { sets = self.old.sets; nodes = self.old.nodes ++ node ∷ [] }) }
        ensures err { OnErr result (self.new ≡ self.old) }
        ensures node_returned { IfErr result (λ refused. refused.0 ≡ node) }
    {
        self.nodes.push(node)
    }

    /// Appends a leaf, and sets of its own behind all others. On a refusal the sets come back, and the certificate is unchanged.
    pub fn push_leaf(&mut self, position: Kept, sets: Sets) -> Result<(), (Sets, NoMemory)>
        requires { length self.old.sets < 2 ^ 32 }
        ensures ok { OnOk result (self.new ≡ leaf_added self.old position sets None) }
        ensures err { OnErr result (self.new ≡ self.old) }
        ensures sets_returned { IfErr result (λ refused. refused.0 ≡ sets) }
    {
        let number = self.sets().len() as u32;
        self.sets.push(sets)?;
        let part = SharedPart::Leaf(number);
        match self.nodes.push(SharedNode { position, part }) {
            Ok(()) => Ok(()),
            Err((_, refused)) => match self.sets.pop() {
                Some(sets) => Err((sets, refused)),
                None => unreachable!(),
            },
        }
    }

    /// The sets, in order.
    pub fn sets(&self) -> &[Sets]
        ensures { result.now ≡ self.now.sets }
    {
        self.sets.items()
    }

    /// The nodes, in order.
    pub fn nodes(&self) -> &[SharedNode]
        ensures value { result.now ≡ self.now.nodes }
        ensures named { AreNamed self.now }
    {
        self.nodes.items()
    }
}
