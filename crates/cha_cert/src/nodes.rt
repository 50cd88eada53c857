//! A certificate and its nodes.

ghost use Rattle.std.specs.Prelude.{◌≡◌, [], ◌∷◌, ◌++◌, OnOk, OnErr, IfErr};

use cha_board::Position;
use cha_list::{Listed, NoMemory};
use mob_sets::Sets;
use mob_small::Reason;
use std::alloc::Global;
use std::marker::Model;

/// Why no series of legal moves from a node's position mates.
#[derive(Drop)]
pub enum Part {
    /// The position is no mate, and each legal move leads to the position of some node.
    Inner,
    /// These mobility sets are closed for the position and have no mate.
    Leaf(Sets),
    /// The men that the position has show it alone.
    Men(Reason),
}

/// A position, and why no series of legal moves from it mates.
#[derive(Drop)]
pub struct Node {
    pub position: Position,
    pub part: Part,
}

/// A certificate: a list of nodes, of which the first has the position that the certificate is for. Which side cannot
/// mate is not part of it. Contracts see the list.
#[derive(Drop)]
pub struct Cert {
    kept: Listed<Node>,
}

impl Model for Cert {
    ghost use Rattle.std.specs.Prelude.{List};
    ghost use Rattle.cha_cert.specs.declared.nodes.Node.{Node};

    ghost Value = { List Node };

    ghost view = { λ s. s.kept };
}

impl Cert {
    /// The certificate without nodes. It takes no memory.
    pub fn new(alloc: Global) -> Cert
        ensures { result ≡ [] }
    {
        Cert {
            kept: Listed::new(alloc),
        }
    }

    /// Appends a node. On a refusal the node comes back, and the certificate is unchanged.
    pub fn push(&mut self, node: Node) -> Result<(), (Node, NoMemory)>
        ensures ok { OnOk result (self.new ≡ self.old ++ node ∷ []) }
        ensures err { OnErr result (self.new ≡ self.old) }
        ensures node_returned { IfErr result (λ refused. refused.0 ≡ node) }
    {
        self.kept.push(node)
    }

    /// The nodes, in order.
    pub fn nodes(&self) -> &[Node]
        ensures { result.now ≡ self.now }
    {
        self.kept.items()
    }
}
