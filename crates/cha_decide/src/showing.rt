//! The certificates that a side cannot mate.

ghost use Rattle.std.specs.Prelude.{◌≡◌, ◌≤◌, [], ◌∷◌, length, MatchOption, IfOk};
ghost use Rattle.cha_cert.specs.AtOnce.{IsShownAtOnce};
ghost use Rattle.cha_cert.specs.Certificates.{IsLeaf, IsValidCert};
ghost use Rattle.cha_decide.specs.Shown.{IsShownUnwinnable, IsShownAlone};

use cha_board::{Color, Position};
use cha_cert::{Cert, Checked, Node, Part, check};
use cha_list::NoMemory;
use mob_small::Reason;
use mob_solve::static_verdict;
use std::alloc::Global;

/// The certificate of one node.
fn single(alloc: Global, position: &Position, part: Part) -> Result<Cert, NoMemory>
    ensures { IfOk result (λ cert. cert ≡ record { position = position.now; part = part } ∷ []) }
{
    let mut cert = Cert::new(alloc);
    let node = Node {
        position: *position,
        part,
    };
    match cert.push(node) {
        Ok(()) => Ok(cert),
        Err((_node, refused)) => Err(refused),
    }
}

/// The certificate that a side cannot mate, of the position alone: its mobility sets show it, or its men do. The check of
/// certificates has accepted it.
fn certified(
    alloc: Global,
    position: &Position,
    winner: Color,
    part: Part,
) -> Result<Cert, NoMemory>
    requires { IsLeaf winner position.now part }
    ensures { IfOk result (λ cert. IsShownAlone position.now winner cert) }
{
    position.known();
    let cert = single(alloc, position, part)?;
    checked(alloc, position, winner, cert)
}

/// A valid certificate, once the check of certificates has accepted it.
pub fn checked(
    alloc: Global,
    position: &Position,
    winner: Color,
    cert: Cert,
) -> Result<Cert, NoMemory>
    requires valid { IsValidCert position.now winner cert }
    requires size { (1 ≤ length cert) × (length cert ≤ 4294967295) }
    ensures shown { IfOk result (λ shown. IsShownUnwinnable position.now winner shown) }
    ensures same { IfOk result (λ shown. shown ≡ cert) }
{
    match check(alloc, position, winner, &cert)? {
        Checked::Accepted => Ok(cert),
        Checked::Fails(_) => unreachable!(),
    }
}

/// What shows without a search that a side cannot mate: the least closed mobility sets, where no mate by the side can arise in
/// them, or else the men alone.
fn leaf_part(alloc: Global, position: &Position, winner: Color) -> Result<Option<Part>, NoMemory>
    ensures { IfOk result (λ found. MatchOption found (IsShownAtOnce position.now winner → ⊥) (λ part. IsLeaf winner position.now part)) }
{
    match static_verdict(alloc, position, winner)? {
        Some(sets) => Ok(Some(Part::Leaf(sets))),
        None => match Reason::find(position, winner) {
            Some(reason) => Ok(Some(Part::Men(reason))),
            None => Ok(None),
        },
    }
}

/// The certificate that a side cannot mate, where that is shown without a search.
pub fn shown_at_once(
    alloc: Global,
    position: &Position,
    winner: Color,
) -> Result<Option<Cert>, NoMemory>
    ensures { IfOk result (λ found. MatchOption found (IsShownAtOnce position.now winner → ⊥) (λ cert. IsShownAlone position.now winner cert)) }
{
    match leaf_part(alloc, position, winner)? {
        Some(part) => Ok(Some(certified(alloc, position, winner, part)?)),
        None => Ok(None),
    }
}
