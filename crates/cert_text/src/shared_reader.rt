//! A shared certificate read from its text.

ghost use Rattle.std.specs.Prelude.{length, ◌≡◌, ◌≢◌, ◌<◌, ◌^◌, Ok, Err, IfOk, IfErr};
ghost use Rattle.cert_text.specs.declared.faults.CertKind.TheVariants.{NoMemory};
ghost use Rattle.cert_text.specs.SharedSpelled.{shared_text};
ghost use Rattle.cert_text.specs.SharedTexts.{shared_cert_of};
ghost use Rattle.cert_text.specs.Writable.{IsSharedText};
ghost use Rattle.cha_board.specs.declared.men.Color.{Color as Side};
ghost use Rattle.cha_cert.specs.Shared.{Shared};

use crate::faults::{CertFault, CertKind};
use crate::heads::{count_line, winner_line};
use crate::rest::Left;
use crate::shared_bodies::{all_nodes, all_sets, sets_count_line};
use crate::text_lines::{fixed_line, misfit};
use cha_board::Color;
use cha_cert::SharedCert;
use std::alloc::Global;

/// A shared certificate, and the side that it says cannot mate.
#[derive(Drop)]
pub struct SharedCertificate {
    pub winner: Color,
    pub cert: SharedCert,
}

/// The shared certificate of a text of version 2, or the first line that does not fit its place. Whether the certificate is
/// valid is not asked, nor whether equal sets stand there twice. A text that is refused, but for want of memory, is that of no
/// shared certificate.
#[tactic(auto, unfolding(crate::specs::SharedTexts::shared_cert_of))]
pub fn read2(alloc: Global, bytes: &[u8]) -> Result<SharedCertificate, CertFault>
    ensures value { IfOk result (λ read. shared_cert_of bytes.now ≡ Ok read) }
    ensures fault { IfErr result (λ fault. fault.kind ≢ NoMemory → shared_cert_of bytes.now ≡ Err fault) }
    ensures refused { IfErr result (λ fault. fault.kind ≢ NoMemory → (w : Side) (shared : Shared) → IsSharedText w shared bytes.now → ⊥) }
    ensures spelled { IfOk result (λ read. shared_text read.winner read.cert ≡ bytes.now) }
    ensures some { IfOk result (λ read. 0 < length read.cert.nodes) }
    ensures few { IfOk result (λ read. length read.cert.nodes < 2 ^ 32) }
    ensures few_sets { IfOk result (λ read. length read.cert.sets < 2 ^ 32) }
{
    let _len = bytes.len();
    let left = Left { at: 0, number: 1 };
    let left = fixed_line(bytes, left, b"cha-cert 2", CertKind::Header)?;
    let (winner, left) = winner_line(bytes, left)?;
    let (sets, left) = sets_count_line(alloc, bytes, left)?;
    let (shared, left) = all_sets(alloc, sets, bytes, left)?;
    let (count, left) = count_line(alloc, bytes, left)?;
    let (cert, left) = all_nodes(alloc, count, shared, sets, bytes, left)?;
    let left = fixed_line(bytes, left, b"end", CertKind::End)?;
    if left.at == bytes.len() {
        Ok(SharedCertificate { winner, cert })
    } else {
        Err(misfit(left.number, CertKind::End))
    }
}
