//! The certificate of a region in which nothing waits.

ghost use Rattle.std.specs.Prelude.{◌≡◌, length, IfOk};
ghost use Rattle.cha_cert.specs.Certificates.{IsValidCert};
ghost use Rattle.node_store.specs.Nodes.{positions};
ghost use Rattle.forced_graph.specs.Outcomes.{IsCertSize, HasExpandedInner};
ghost use Rattle.forced_graph.specs.Regions.{IsDone, certified};

use crate::region::Region;
use cha_cert::{Cert, Node, Part};
use cha_list::NoMemory;
use node_store::Store;
use std::alloc::Global;

impl Region {
    /// The certificate of all nodes, in the order in which they were added.
    pub fn into_cert(self, alloc: Global) -> Result<Cert, NoMemory>
        requires { IsDone self }
        ensures valid { IfOk result (IsValidCert self.root self.winner) }
        ensures size { IfOk result (λ cert. IsCertSize (length cert)) }
        ensures expanded { IfOk result (HasExpandedInner self.root self.winner self.count) }
    {
        let Region { store, parts, .. } = self;
        store.known();
        nodes_of(alloc, &store, parts)
    }
}

/// The nodes of a store with what each is in a certificate.
fn nodes_of(alloc: Global, store: &Store, parts: Vec<Part>) -> Result<Cert, NoMemory>
    requires { length parts.items ≡ length store.now.nodes }
    ensures { IfOk result (λ cert. cert ≡ certified (positions store.now.nodes) parts.items) }
{
    // There are fewer nodes than names.
    store.known();
    let mut cert = Cert::new(alloc);
    let mut name = 0;
    for part in parts {
        cert.push(Node {
            position: store.position(name),
            part,
        })?;
        name += 1;
    }
    Ok(cert)
}
