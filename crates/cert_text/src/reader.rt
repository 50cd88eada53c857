//! A certificate read from its text.

ghost use Rattle.std.specs.Prelude.{length, ◌≡◌, ◌≢◌, ◌<◌, ◌^◌, List, Ok, Err, IfOk, IfErr};
ghost use Rattle.cha_board.specs.declared.men.Color.{Color as Side};
ghost use Rattle.cha_cert.specs.declared.nodes.Node.{Node as CertNode};
ghost use Rattle.cha_cert.specs.Shared.{expansion};
ghost use Rattle.cert_text.specs.declared.faults.CertKind.TheVariants.{NoMemory};
ghost use Rattle.cert_text.specs.Spelled.{cert_text, AreInnerOrLeaves};
ghost use Rattle.cert_text.specs.Texts.{cert_of};
ghost use Rattle.cert_text.specs.Writable.{IsCertText};

use crate::bodies::nodes;
use crate::faults::{CertFault, CertKind};
use crate::heads::{count_line, winner_line};
use crate::rest::Left;
use crate::shared_reader::SharedCertificate;
use crate::text_lines::{fixed_line, misfit};
use cha_board::Color;
use cha_cert::{Cert, expand};
use std::alloc::Global;

/// A certificate, and the side that it says cannot mate.
#[derive(Drop)]
pub struct Certificate {
    pub winner: Color,
    pub cert: Cert,
}

/// The certificate of a text, or the first line that does not fit its place (certificate text, version 1: this project).
///
/// ```text
/// cha-cert 1
/// winner w
/// nodes 2
/// inner k7/1Q6/8/8/8/8/8/4K3 b - -
/// leaf 8/1k6/8/8/8/8/8/4K3 w - -
/// loose 0002000000000010
/// reach e1 K ffffffffffffffff
/// reach b7 K ffffffffffffffff
/// end
/// ```
///
/// Each line ends with a line feed. Whether the certificate is valid is not asked. One certificate has one text, and a text
/// that is refused, but for want of memory, is that of no certificate.
pub fn read(alloc: Global, bytes: &[u8]) -> Result<Certificate, CertFault>
    ensures value { IfOk result (λ read. cert_of bytes.now ≡ Ok read) }
    ensures fault { IfErr result (λ fault. fault.kind ≢ NoMemory → cert_of bytes.now ≡ Err fault) }
    ensures refused { IfErr result (λ fault. fault.kind ≢ NoMemory → (w : Side) (nodes : List CertNode) → IsCertText w nodes bytes.now → ⊥) }
    ensures spelled { IfOk result (λ read. cert_text read.winner read.cert ≡ bytes.now) }
    ensures some { IfOk result (λ read. 0 < length read.cert) }
    ensures few { IfOk result (λ read. length read.cert < 2 ^ 32) }
    ensures inner_or_leaf { IfOk result (λ read. AreInnerOrLeaves read.cert) }
{
    let spread = read_spread(alloc, bytes)?;
    let cert = expand(alloc, &spread.cert)?;
    Ok(Certificate {
        winner: spread.winner,
        cert,
    })
}

/// What `read` answers, as a shared certificate in which each leaf has sets of its own.
#[tactic(auto, unfolding(crate::specs::Texts::cert_of))]
pub(crate) fn read_spread(alloc: Global, bytes: &[u8]) -> Result<SharedCertificate, CertFault>
    ensures value { IfOk result (λ read. cert_of bytes.now ≡ Ok (record { winner = read.winner; cert = expansion read.cert })) }
    ensures fault { IfErr result (λ fault. fault.kind ≢ NoMemory → cert_of bytes.now ≡ Err fault) }
    ensures refused { IfErr result (λ fault. fault.kind ≢ NoMemory → (w : Side) (nodes : List CertNode) → IsCertText w nodes bytes.now → ⊥) }
    ensures spelled { IfOk result (λ read. cert_text read.winner (expansion read.cert) ≡ bytes.now) }
    ensures some { IfOk result (λ read. 0 < length read.cert.nodes) }
    ensures few { IfOk result (λ read. length read.cert.nodes < 2 ^ 32) }
    ensures few_sets { IfOk result (λ read. length read.cert.sets < 2 ^ 32) }
    ensures inner_or_leaf { IfOk result (λ read. AreInnerOrLeaves (expansion read.cert)) }
{
    let _len = bytes.len();
    let left = Left { at: 0, number: 1 };
    let left = fixed_line(bytes, left, b"cha-cert 1", CertKind::Header)?;
    let (winner, left) = winner_line(bytes, left)?;
    let (count, left) = count_line(alloc, bytes, left)?;
    let (cert, left) = nodes(alloc, count, bytes, left)?;
    let left = fixed_line(bytes, left, b"end", CertKind::End)?;
    if left.at == bytes.len() {
        Ok(SharedCertificate { winner, cert })
    } else {
        Err(misfit(left.number, CertKind::End))
    }
}
