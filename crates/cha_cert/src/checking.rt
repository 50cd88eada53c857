//! The check of a certificate. It knows nothing of how certificates are found.

ghost use Rattle.std.specs.Prelude.{◌≡◌, ◌<◌, ◌≤◌, ◌^◌, ◌↔◌, length, IsTrue, IfOk};
ghost use Rattle.cha_moves.specs.Moves.{legal as legal_moves};
ghost use Rattle.cha_moves.specs.Ends.{IsUnwinnable};
ghost use Rattle.cha_cert.specs.declared.checking.Checked.TheVariants.{Accepted};
ghost use Rattle.cha_cert.specs.Certificates.{IsValidCert, Answers, LeafHolds, NodeHolds, FirstFailing};
ghost use Rattle.cha_cert.specs.Indexed.{IsIndexOf, LeadsInto};
ghost use Rattle.cha_cert.specs.Costs.{moves_at, inner_moves, CostsAtMost};

use crate::indexing::{Index, has};
use crate::nodes::{Cert, Node, Part};
use cha_board::{Color, Position, same_position};
use cha_list::{NoMemory, Steps};
use cha_moves::{after, is_mate, legal};
use mob_check::proves_unwinnable;
use mob_sets::Sets;
use std::alloc::Global;
use std::marker::Brand;
use std::sync::ledger::{Blank, Ledger};

/// What a check of a certificate answers.
#[derive(Clone, Copy, Debug, PartialEq, Eq)]
pub enum Checked {
    /// The certificate is valid: no series of legal moves from the position mates for the side.
    Accepted,
    /// The first node that fails, counted from 0: what it says does not hold, or it is node 0 and has another position than
    /// the one that is asked. A certificate without nodes fails at 0.
    Fails(u32),
}

/// Checks that a certificate shows that no series of legal moves from a position mates for a side (this project).
///
/// A leaf holds where its mobility sets are closed for its position and have no mate for the side. A node whose men show it
/// alone holds where the reason that it names does. An inner node holds where its position is no mate for the side and each
/// legal move leads to the position of some node.
pub fn check(
    alloc: Global,
    position: &Position,
    winner: Color,
    cert: &Cert,
) -> Result<Checked, NoMemory>
    requires { length cert.now < 2 ^ 32 }
    ensures answer { IfOk result (λ checked. Answers position.now winner cert.now checked) }
    ensures accepted { IfOk result (λ checked. (checked ≡ Accepted) ↔ IsValidCert position.now winner cert.now) }
    ensures law { IfOk result (λ checked. checked ≡ Accepted → IsUnwinnable position.now winner) }
{
    check_from::<Brand>(alloc, position, winner, cert, Blank::new(1))
}

/// The same, with a count of its own.
fn check_from<L: Ledger>(
    alloc: Global,
    position: &Position,
    winner: Color,
    cert: &Cert,
    blank: Blank,
) -> Result<Checked, NoMemory>
    requires ledger { (L.parts ≡ blank.parts) × (L.name ≡ blank.name) × (0 < blank.parts) }
    requires few { length cert.now < 2 ^ 32 }
    ensures answer { IfOk result (λ checked. Answers position.now winner cert.now checked) }
    ensures accepted { IfOk result (λ checked. (checked ≡ Accepted) ↔ IsValidCert position.now winner cert.now) }
    ensures law { IfOk result (λ checked. checked ≡ Accepted → IsUnwinnable position.now winner) }
{
    let (book, share) = blank.open::<L>();
    let mut steps = Steps::opened(book, share);
    check_counted(alloc, position, winner, cert, &mut steps)
}

/// What `check` answers, with a count of the looks at the index of the positions. For each legal move of an inner node there
/// are at most b, the greatest number with 2 ^ b ≤ 2n + 1 for n nodes, also where memory is refused.
pub fn check_counted<L: Ledger>(
    alloc: Global,
    position: &Position,
    winner: Color,
    cert: &Cert,
    steps: &mut Steps<L>,
) -> Result<Checked, NoMemory>
    requires { length cert.now < 2 ^ 32 }
    ensures answer { IfOk result (λ checked. Answers position.now winner cert.now checked) }
    ensures accepted { IfOk result (λ checked. (checked ≡ Accepted) ↔ IsValidCert position.now winner cert.now) }
    ensures law { IfOk result (λ checked. checked ≡ Accepted → IsUnwinnable position.now winner) }
    ensures cost { CostsAtMost (length cert.now) (inner_moves cert.now) steps.old steps.new }
{
    let nodes = cert.nodes();
    let Some(first) = nodes.first() else {
        return Ok(Checked::Fails(0));
    };
    if !same_position(&first.position, position) {
        return Ok(Checked::Fails(0));
    }
    let index = Index::new(alloc, cert)?;
    match first_failing(alloc, nodes, &index, winner, steps)? {
        None => Ok(Checked::Accepted),
        Some(number) => Ok(Checked::Fails(number)),
    }
}

/// The number of the first node that does not hold.
fn first_failing<L: Ledger>(
    alloc: Global,
    nodes: &[Node],
    index: &Index,
    winner: Color,
    steps: &mut Steps<L>,
) -> Result<Option<u32>, NoMemory>
    requires few { length nodes.now < 2 ^ 32 }
    requires index { IsIndexOf nodes.now index.now }
    ensures failing { IfOk result (λ failing. FirstFailing (NodeHolds winner nodes.now) nodes.now failing) }
    ensures cost { CostsAtMost (length nodes.now) (inner_moves nodes.now) steps.old steps.new }
{
    for number in 0..nodes.len() {
        if !node_holds(alloc, nodes, index, winner, &nodes[number], steps)? {
            return Ok(Some(number as u32));
        }
    }
    Ok(None)
}

/// Whether what a node says holds.
fn node_holds<L: Ledger>(
    alloc: Global,
    nodes: &[Node],
    index: &Index,
    winner: Color,
    node: &Node,
    steps: &mut Steps<L>,
) -> Result<bool, NoMemory>
    requires { IsIndexOf nodes.now index.now }
    ensures holds { IfOk result (λ holds. IsTrue holds ↔ NodeHolds winner nodes.now node.now) }
    ensures cost { CostsAtMost (length nodes.now) (moves_at node.now.position node.now.part) steps.old steps.new }
{
    node.position.known();
    match &node.part {
        Part::Inner => inner_holds(alloc, index, winner, &node.position, steps),
        Part::Leaf(sets) => Ok(leaf_holds(winner, &node.position, sets)),
        Part::Men(reason) => Ok(reason.holds(&node.position, winner)),
    }
}

/// Whether a position is no mate for a side, and each legal move leads to a position of the index.
pub(crate) fn inner_holds<L: Ledger>(
    alloc: Global,
    index: &Index,
    winner: Color,
    position: &Position,
    steps: &mut Steps<L>,
) -> Result<bool, NoMemory>
    ensures holds { IfOk result (λ holds. IsTrue holds ↔ LeadsInto winner index.now position.now) }
    ensures cost { CostsAtMost (length index.now) (length (legal_moves position.now)) steps.old steps.new }
{
    if is_mate(position, winner) {
        return Ok(false);
    }
    let moves = legal(alloc, position)?;
    for m in &moves {
        if !has(index, &after(position, *m), steps) {
            return Ok(false);
        }
    }
    Ok(true)
}

/// Whether mobility sets are closed for a position and have no mate for a side.
pub(crate) fn leaf_holds(winner: Color, position: &Position, sets: &Sets) -> bool
    ensures { IsTrue result ↔ LeafHolds winner position.now sets.now }
{
    proves_unwinnable(position, winner, sets)
}
