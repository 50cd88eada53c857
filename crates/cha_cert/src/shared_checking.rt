//! The check of a certificate whose equal sets are written once, without spreading it out.

ghost use Rattle.std.specs.Prelude.{◌≡◌, ◌<◌, ◌^◌, ◌↔◌, length, IsTrue, IfOk};
ghost use Rattle.std.specs.List.{HoldsAt};
ghost use Rattle.cha_moves.specs.Ends.{IsUnwinnable};
ghost use Rattle.cha_cert.specs.declared.checking.Checked.TheVariants.{Accepted};
ghost use Rattle.cha_cert.specs.Certificates.{IsValidCert, Answers, NodeHolds, FirstFailing};
ghost use Rattle.cha_cert.specs.Indexed.{IsIndexOf};
ghost use Rattle.cha_cert.specs.Costs.{inner_moves, shared_moves, CostsAtMost};
ghost use Rattle.cha_cert.specs.Shared.{Names, node_of, expansion};

use crate::checking::{Checked, inner_holds, leaf_holds};
use crate::indexing::Index;
use crate::shared::{SharedCert, SharedNode, SharedPart};
use cha_board::{Color, Position, same_position};
use cha_list::{NoMemory, Steps};
use std::alloc::Global;
use std::marker::Brand;
use std::sync::ledger::{Blank, Ledger};

/// Checks that a shared certificate shows that no series of legal moves from a position mates for a side: it answers what
/// `check` answers for the expansion.
pub fn check_shared(
    alloc: Global,
    position: &Position,
    winner: Color,
    shared: &SharedCert,
) -> Result<Checked, NoMemory>
    requires { length shared.now.nodes < 2 ^ 32 }
    ensures answer { IfOk result (λ checked. Answers position.now winner (expansion shared.now) checked) }
    ensures accepted { IfOk result (λ checked. (checked ≡ Accepted) ↔ IsValidCert position.now winner (expansion shared.now)) }
    ensures law { IfOk result (λ checked. checked ≡ Accepted → IsUnwinnable position.now winner) }
{
    check_shared_from::<Brand>(alloc, position, winner, shared, Blank::new(1))
}

/// The same, with a count of its own.
fn check_shared_from<L: Ledger>(
    alloc: Global,
    position: &Position,
    winner: Color,
    shared: &SharedCert,
    blank: Blank,
) -> Result<Checked, NoMemory>
    requires ledger { (L.parts ≡ blank.parts) × (L.name ≡ blank.name) × (0 < blank.parts) }
    requires few { length shared.now.nodes < 2 ^ 32 }
    ensures answer { IfOk result (λ checked. Answers position.now winner (expansion shared.now) checked) }
    ensures accepted { IfOk result (λ checked. (checked ≡ Accepted) ↔ IsValidCert position.now winner (expansion shared.now)) }
    ensures law { IfOk result (λ checked. checked ≡ Accepted → IsUnwinnable position.now winner) }
{
    let (book, share) = blank.open::<L>();
    let mut steps = Steps::opened(book, share);
    check_shared_counted(alloc, position, winner, shared, &mut steps)
}

/// What `check_shared` answers, with a count of the looks at the index of the positions, bounded as that of `check_counted`.
pub fn check_shared_counted<L: Ledger>(
    alloc: Global,
    position: &Position,
    winner: Color,
    shared: &SharedCert,
    steps: &mut Steps<L>,
) -> Result<Checked, NoMemory>
    requires { length shared.now.nodes < 2 ^ 32 }
    ensures answer { IfOk result (λ checked. Answers position.now winner (expansion shared.now) checked) }
    ensures accepted { IfOk result (λ checked. (checked ≡ Accepted) ↔ IsValidCert position.now winner (expansion shared.now)) }
    ensures law { IfOk result (λ checked. checked ≡ Accepted → IsUnwinnable position.now winner) }
    ensures cost { CostsAtMost (length shared.now.nodes) (inner_moves (expansion shared.now)) steps.old steps.new }
{
    let nodes = shared.nodes();
    let Some(first) = nodes.first() else {
        return Ok(Checked::Fails(0));
    };
    if !same_position(&first.position.position(), position) {
        return Ok(Checked::Fails(0));
    }
    let index = Index::of_shared(alloc, shared)?;
    match first_failing(alloc, shared, &index, winner, steps)? {
        None => Ok(Checked::Accepted),
        Some(number) => Ok(Checked::Fails(number)),
    }
}

/// The number of the first node that does not hold.
fn first_failing<L: Ledger>(
    alloc: Global,
    shared: &SharedCert,
    index: &Index,
    winner: Color,
    steps: &mut Steps<L>,
) -> Result<Option<u32>, NoMemory>
    requires few { length shared.now.nodes < 2 ^ 32 }
    requires index { IsIndexOf (expansion shared.now) index.now }
    ensures failing { IfOk result (λ failing. FirstFailing (NodeHolds winner (expansion shared.now)) (expansion shared.now) failing) }
    ensures cost { CostsAtMost (length shared.now.nodes) (inner_moves (expansion shared.now)) steps.old steps.new }
{
    let nodes = shared.nodes();
    for number in 0..nodes.len() {
        if !holds(alloc, shared, index, winner, &nodes[number], steps)? {
            return Ok(Some(number as u32));
        }
    }
    Ok(None)
}

/// Whether what a node of a shared certificate says holds: the node of a number, from 0.
pub fn shared_node_holds<L: Ledger>(
    alloc: Global,
    shared: &SharedCert,
    index: &Index,
    winner: Color,
    at: u32,
    steps: &mut Steps<L>,
) -> Result<bool, NoMemory>
    requires inside { at < length shared.now.nodes }
    requires index { IsIndexOf (expansion shared.now) index.now }
    ensures holds { IfOk result (λ holds. HoldsAt (λ node. IsTrue holds ↔ NodeHolds winner (expansion shared.now) node) (expansion shared.now) at) }
    ensures cost { HoldsAt (λ node. CostsAtMost (length shared.now.nodes) (shared_moves node) steps.old steps.new) shared.now.nodes at }
{
    let nodes = shared.nodes();
    holds(alloc, shared, index, winner, &nodes[at as usize], steps)
}

/// Whether what a node says holds.
fn holds<L: Ledger>(
    alloc: Global,
    shared: &SharedCert,
    index: &Index,
    winner: Color,
    node: &SharedNode,
    steps: &mut Steps<L>,
) -> Result<bool, NoMemory>
    requires named { Names (length shared.now.sets) node.now.part }
    requires index { IsIndexOf (expansion shared.now) index.now }
    ensures holds { IfOk result (λ holds. IsTrue holds ↔ NodeHolds winner (expansion shared.now) (node_of shared.now.sets node.now)) }
    ensures cost { CostsAtMost (length shared.now.nodes) (shared_moves node.now) steps.old steps.new }
{
    let position = node.position.position();
    position.known();
    match node.part {
        SharedPart::Inner => inner_holds(alloc, index, winner, &position, steps),
        SharedPart::Leaf(number) => {
            let sets = &shared.sets()[number as usize];
            Ok(leaf_holds(winner, &position, sets))
        }
        SharedPart::Men(reason) => Ok(reason.holds(&position, winner)),
    }
}
