//! The check of one node.

ghost use Rattle.std.specs.Prelude.{◌≡◌, ◌<◌, length, IfOk};
ghost use Rattle.cha_cert.specs.Indexed.{IsIndexOf};
ghost use Rattle.cha_cert.specs.Shared.{expansion};
ghost use Rattle.cert_par.specs.Failing.{TellsFailing};

use cha_board::Color;
use cha_cert::{Index, SharedCert, shared_node_holds};
use cha_list::{NoMemory, Steps};
use std::alloc::Global;
use std::marker::Brand;
use std::sync::ledger::{Blank, Ledger};

/// Whether what a node of a shared certificate says does not hold: the node of a number, from 0. The index is that of the
/// same nodes.
pub fn node_fails(
    alloc: Global,
    cert: &SharedCert,
    index: &Index,
    winner: Color,
    at: u32,
) -> Result<bool, NoMemory>
    requires inside { at < length cert.now.nodes }
    requires index { IsIndexOf (expansion cert.now) index.now }
    ensures { IfOk result (λ fails. TellsFailing winner (expansion cert.now) at fails) }
{
    fails_from::<Brand>(alloc, cert, index, winner, at, Blank::new(1))
}

/// The same, with a count of looks of its own.
fn fails_from<L: Ledger>(
    alloc: Global,
    cert: &SharedCert,
    index: &Index,
    winner: Color,
    at: u32,
    blank: Blank,
) -> Result<bool, NoMemory>
    requires ledger { (L.parts ≡ blank.parts) × (L.name ≡ blank.name) × (0 < blank.parts) }
    requires inside { at < length cert.now.nodes }
    requires index { IsIndexOf (expansion cert.now) index.now }
    ensures { IfOk result (λ fails. TellsFailing winner (expansion cert.now) at fails) }
{
    let (book, share) = blank.open::<L>();
    let mut steps = Steps::opened(book, share);
    let holds = shared_node_holds(alloc, cert, index, winner, at, &mut steps)?;
    Ok(!holds)
}
