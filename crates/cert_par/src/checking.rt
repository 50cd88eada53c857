//! The check of all nodes.

ghost use Rattle.std.specs.Prelude.{◌≡◌, ◌+◌, ◌-◌, ◌<◌, ◌≤◌, ◌^◌, ◌↔◌, length, IfOk};
ghost use Rattle.std.specs.List.{AllZip, range_with_len};
ghost use Rattle.cha_moves.specs.Ends.{IsUnwinnable};
ghost use Rattle.cha_cert.specs.declared.checking.Checked.TheVariants.{Accepted};
ghost use Rattle.cha_cert.specs.Certificates.{IsValidCert, Answers, NodeHolds, FirstFailing};
ghost use Rattle.cha_cert.specs.Indexed.{IsIndexOf};
ghost use Rattle.cha_cert.specs.Shared.{expansion};
ghost use Rattle.cert_par.specs.Failing.{TellsFirst, HoldBefore, FirstBefore};

use crate::nodes::node_fails;
use cha_board::{Color, Position, same_position};
use cha_cert::{Checked, Index, SharedCert, check_shared};
use cha_list::NoMemory;
use rayon::prelude::*;
use std::alloc::Global;
use std::thread::Threads;

/// Below so many nodes one thread checks them all: `rayon` deals out no piece of fewer than 1,024 items, and so makes no thread for
/// fewer than twice as many.
const WORTH_A_THREAD: usize = 2048;

/// So many nodes are checked before it is asked whether one of them fails. Behind a run of them that has such a node none is
/// checked.
const RUN: usize = 8192;

/// Checks that a shared certificate shows that no series of legal moves from a position mates for a side. It answers what
/// `check_shared` answers, whichever thread ends first. Fewer than 2,048 nodes are checked by one thread; of more some thousand are
/// checked at a time, by threads, and the check ends behind the first of these that fails.
pub fn check_par<R: Threads + Sync>(
    rt: &R,
    alloc: Global,
    position: &Position,
    winner: Color,
    cert: &SharedCert,
) -> Result<Checked, NoMemory>
    requires { length cert.now.nodes < 2 ^ 32 }
    ensures answer { IfOk result (λ checked. Answers position.now winner (expansion cert.now) checked) }
    ensures accepted { IfOk result (λ checked. (checked ≡ Accepted) ↔ IsValidCert position.now winner (expansion cert.now)) }
    ensures law { IfOk result (λ checked. checked ≡ Accepted → IsUnwinnable position.now winner) }
{
    if cert.nodes().len() < WORTH_A_THREAD {
        return check_shared(alloc, position, winner, cert);
    }
    check_apart(rt, alloc, position, winner, cert)
}

/// The same, each node on its own.
fn check_apart<R: Threads + Sync>(
    rt: &R,
    alloc: Global,
    position: &Position,
    winner: Color,
    cert: &SharedCert,
) -> Result<Checked, NoMemory>
    requires { length cert.now.nodes < 2 ^ 32 }
    ensures answer { IfOk result (λ checked. Answers position.now winner (expansion cert.now) checked) }
    ensures accepted { IfOk result (λ checked. (checked ≡ Accepted) ↔ IsValidCert position.now winner (expansion cert.now)) }
    ensures law { IfOk result (λ checked. checked ≡ Accepted → IsUnwinnable position.now winner) }
{
    let nodes = cert.nodes();
    let Some(first) = nodes.first() else {
        return Ok(Checked::Fails(0));
    };
    if !same_position(&first.position.position(), position) {
        return Ok(Checked::Fails(0));
    }
    let index = Index::of_shared(alloc, cert)?;
    match first_failing(rt, alloc, cert, &index, winner)? {
        None => Ok(Checked::Accepted),
        Some(number) => Ok(Checked::Fails(number)),
    }
}

/// The number of the first node that fails. The nodes are checked in runs, one run after the other, up to the first that has such a
/// node.
fn first_failing<R: Threads + Sync>(
    rt: &R,
    alloc: Global,
    cert: &SharedCert,
    index: &Index,
    winner: Color,
) -> Result<Option<u32>, NoMemory>
    requires few { length cert.now.nodes < 2 ^ 32 }
    requires index { IsIndexOf (expansion cert.now) index.now }
    ensures { IfOk result (λ failing. FirstFailing (NodeHolds winner (expansion cert.now)) (expansion cert.now) failing) }
{
    let count = cert.nodes().len();
    let mut from = 0;
    while from < count {
        let to = end_of_run(from, count);
        let found = found_of_run(rt, alloc, cert, index, winner, from, to)?;
        if let Some(number) = first_of_run(&found, cert, winner, from, to)? {
            return Ok(Some(number));
        }
        from = to;
    }
    Ok(None)
}

/// Where a run ends that begins at a node.
fn end_of_run(from: usize, count: usize) -> usize
    requires { from < count }
    ensures some { from < result }
    ensures inside { result ≤ count }
{
    from + RUN.min(count - from)
}

/// What is found of each node of a run, in order of the nodes.
fn found_of_run<R: Threads + Sync>(
    rt: &R,
    alloc: Global,
    cert: &SharedCert,
    index: &Index,
    winner: Color,
    from: usize,
    to: usize,
) -> Result<Vec<Result<bool, NoMemory>>, NoMemory>
    requires inside { to ≤ length cert.now.nodes }
    requires few { length cert.now.nodes < 2 ^ 32 }
    requires index { IsIndexOf (expansion cert.now) index.now }
    ensures { IfOk result (λ found. AllZip (TellsFirst winner (expansion cert.now)) (range_with_len from (to - from)) found.items) }
{
    let found = (from..to)
        .into_par_iter()
        .map(
            |at: usize| -> Result<bool, NoMemory>
                requires { (at < length cert.now.nodes) × (length cert.now.nodes < 2 ^ 32) × IsIndexOf (expansion cert.now) index.now }
                ensures { TellsFirst winner (expansion cert.entry.now) at result }
            { node_fails(alloc, cert, index, winner, at as u32) },
        )
        .collect::<Vec<_>>(rt, alloc)?;
    Ok(found)
}

/// The number of the first node of a run that fails, as each was found, where each node before the run holds.
fn first_of_run(
    found: &[Result<bool, NoMemory>],
    cert: &SharedCert,
    winner: Color,
    from: usize,
    to: usize,
) -> Result<Option<u32>, NoMemory>
    requires some { from ≤ to }
    requires inside { to ≤ length cert.now.nodes }
    requires few { length cert.now.nodes < 2 ^ 32 }
    requires found { AllZip (TellsFirst winner (expansion cert.now)) (range_with_len from (to - from)) found.now }
    requires before { HoldBefore winner (expansion cert.now) from }
    ensures { IfOk result (λ failing. FirstBefore winner (expansion cert.now) to failing) }
{
    for number in 0..found.len() {
        match found[number] {
            Err(refused) => return Err(refused),
            Ok(fails) => {
                if fails {
                    return Ok(Some((from + number) as u32));
                }
            }
        }
    }
    Ok(None)
}
