//! A certificate with its equal sets written once, and back.

ghost use Rattle.std.specs.Prelude.{◌≡◌, ◌<◌, ◌≤◌, ◌^◌, ◌+◌, [], ◌∷◌, ◌++◌, List, None, length, IfOk, IfSome, OnOk, OnErr, Contains};
ghost use Rattle.cha_cert.specs.declared.nodes.Node.{Node as CertNode};
ghost use Rattle.cha_cert.specs.declared.nodes.Part.TheVariants.{Inner as CertInner, Leaf as CertLeaf, Men as CertMen};
ghost use Rattle.cha_cert.specs.Shared.{Names, AreInOrder, Shares, IsAt, expansion, part_of, number_in, part_added, shared_of};

use crate::equal_sets::same_sets;
use crate::nodes::{Cert, Node, Part};
use crate::shared::{SharedCert, SharedNode, SharedPart};
use cha_board::Kept;
use cha_list::NoMemory;
use mob_sets::Sets;
use mob_small::Reason;
use std::alloc::Global;

/// The certificate with its equal sets written once: its expansion is the one that is given, its sets are distinct, each is
/// named by some leaf, and they stand in the order in which they are named first.
pub fn share(alloc: Global, cert: &Cert) -> Result<SharedCert, NoMemory>
    requires { length cert.now < 2 ^ 32 }
    ensures expands { IfOk result (λ shared. expansion shared ≡ cert.now) }
    ensures order { IfOk result (λ shared. AreInOrder shared) }
    ensures size { IfOk result (λ shared. length shared.nodes ≡ length cert.now) }
    ensures few { IfOk result (λ shared. length shared.sets ≤ length cert.now) }
    ensures exact { IfOk result (λ shared. shared ≡ shared_of cert.now) }
{
    let mut shared = SharedCert::new(alloc);
    for node in cert.nodes() {
        add(alloc, &mut shared, node)?;
    }
    Ok(shared)
}

/// Appends a node to what is shared already.
fn add(alloc: Global, shared: &mut SharedCert, node: &Node) -> Result<(), NoMemory>
    requires { length shared.old.sets < 2 ^ 32 }
    ensures exact { OnOk result (shared.new ≡ part_added shared.old node.now.position node.now.part) }
    ensures shares { (nodes : List CertNode) → Shares shared.old nodes → OnOk result (Shares shared.new (nodes ++ node.now ∷ [])) }
{
    let position = Kept::of(&node.position);
    match &node.part {
        Part::Inner => add_inner(shared, position),
        Part::Leaf(sets) => add_leaf(alloc, shared, position, sets),
        Part::Men(reason) => add_men(shared, position, *reason),
    }
}

/// Appends an inner node.
fn add_inner(shared: &mut SharedCert, position: Kept) -> Result<(), NoMemory>
    ensures exact { OnOk result (shared.new ≡ part_added shared.old position CertInner) }
    ensures err { OnErr result (shared.new ≡ shared.old) }
    ensures shares { (nodes : List CertNode) → Shares shared.old nodes → OnOk result (Shares shared.new (nodes ++ (record { position = position; part = CertInner }) ∷ [])) }
{
    shared.push(SharedNode {
        position,
        part: SharedPart::Inner,
    })?;
    Ok(())
}

/// Appends a node whose men show it alone.
fn add_men(shared: &mut SharedCert, position: Kept, reason: Reason) -> Result<(), NoMemory>
    ensures exact { OnOk result (shared.new ≡ part_added shared.old position (CertMen reason)) }
    ensures err { OnErr result (shared.new ≡ shared.old) }
    ensures shares { (nodes : List CertNode) → Shares shared.old nodes → OnOk result (Shares shared.new (nodes ++ (record { position = position; part = CertMen reason }) ∷ [])) }
{
    shared.push(SharedNode {
        position,
        part: SharedPart::Men(reason),
    })?;
    Ok(())
}

/// Appends a leaf, and its sets where they are new.
fn add_leaf(
    alloc: Global,
    shared: &mut SharedCert,
    position: Kept,
    sets: &Sets,
) -> Result<(), NoMemory>
    requires { length shared.old.sets < 2 ^ 32 }
    ensures exact { OnOk result (shared.new ≡ part_added shared.old position (CertLeaf sets.now)) }
    ensures shares { (nodes : List CertNode) → Shares shared.old nodes → OnOk result (Shares shared.new (nodes ++ (record { position = position; part = CertLeaf sets.now }) ∷ [])) }
{
    match number_of(shared.sets(), sets) {
        Some(number) => {
            shared.push(SharedNode {
                position,
                part: SharedPart::Leaf(number as u32),
            })?;
            Ok(())
        }
        None => {
            let number = shared.sets().len() as u32;
            shared.add_sets(sets.copy(alloc)?)?;
            shared.push(SharedNode {
                position,
                part: SharedPart::Leaf(number),
            })?;
            Ok(())
        }
    }
}

/// Appends a node of a certificate. The sets of a leaf are appended too, whether or not equal ones are there. On a refusal
/// the certificate is unchanged.
pub fn append(shared: &mut SharedCert, node: Node) -> Result<(), NoMemory>
    requires { length shared.old.sets < 2 ^ 32 }
    ensures spread { OnOk result (expansion shared.new ≡ expansion shared.old ++ node ∷ []) }
    ensures nodes { OnOk result (length shared.new.nodes ≡ length shared.old.nodes + 1) }
    ensures sets { length shared.new.sets ≤ length shared.old.sets + 1 }
    ensures err { OnErr result (shared.new ≡ shared.old) }
{
    let _nodes = shared.nodes();
    let position = Kept::of(&node.position);
    match node.part {
        Part::Leaf(sets) => {
            shared.push_leaf(position, sets)?;
            Ok(())
        }
        Part::Inner => add_inner(shared, position),
        Part::Men(reason) => add_men(shared, position, reason),
    }
}

/// The number of some sets among others, if they are there.
fn number_of(all: &[Sets], wanted: &Sets) -> Option<usize>
    ensures some { IfSome result (λ number. IsAt all.now wanted.now number) }
    ensures none { result ≡ None → Contains all.now wanted.now → ⊥ }
    ensures exact { result ≡ number_in all.now wanted.now }
{
    for number in 0..all.len() {
        if same_sets(&all[number], wanted) {
            return Some(number);
        }
    }
    None
}

/// The expansion of a shared certificate: the same nodes, each leaf with the sets that it names.
pub fn expand(alloc: Global, shared: &SharedCert) -> Result<Cert, NoMemory>
    ensures { IfOk result (λ cert. cert ≡ expansion shared.now) }
{
    let mut cert = Cert::new(alloc);
    for node in shared.nodes() {
        cert.push(Node {
            position: node.position.position(),
            part: part_with(alloc, shared.sets(), node.part)?,
        })?;
    }
    Ok(cert)
}

/// The part of a node with sets of its own.
fn part_with(alloc: Global, sets: &[Sets], part: SharedPart) -> Result<Part, NoMemory>
    requires { Names (length sets.now) part }
    ensures { IfOk result (λ own. own ≡ part_of sets.now part) }
{
    match part {
        SharedPart::Inner => Ok(Part::Inner),
        SharedPart::Men(reason) => Ok(Part::Men(reason)),
        SharedPart::Leaf(number) => Ok(Part::Leaf(sets[number as usize].copy(alloc)?)),
    }
}
