//! A certificate read from its text in either version, and the text of version 1 written in version 2.

ghost use Rattle.std.specs.Prelude.{◌≡◌, ◌≢◌, ◌<◌, ◌^◌, not, length, Ok, Err, IsTrue, IfOk, IfErr};
ghost use Rattle.cha_cert.specs.Shared.{expansion};
ghost use Rattle.cert_text.specs.declared.faults.CertKind.TheVariants.{NoMemory as Wanting};
ghost use Rattle.cert_text.specs.declared.shared_reader.SharedCertificate.{SharedCertificate as CertificateRead};
ghost use Rattle.cert_text.specs.SharedSpelled.{shared_text};
ghost use Rattle.cert_text.specs.Texts.{cert_of};
ghost use Rattle.cert_text.specs.SharedTexts.{shared_cert_of};
ghost use Rattle.cert_text.specs.Versions.{is_first_version, any_cert_of, IsMigrated};

use crate::faults::CertFault;
use crate::reader::{read, read_spread};
use crate::shared_reader::{SharedCertificate, read2};
use crate::shared_spelled::write2;
use cha_cert::share;
use cha_list::Text;
use std::alloc::Global;

/// Whether a text begins with the first line of version 1.
#[tactic(auto, unfolding(crate::specs::Versions::is_first_version))]
fn begins_as_first(bytes: &[u8]) -> bool
    ensures { result ≡ is_first_version bytes.now }
{
    bytes.starts_with(b"cha-cert 1\n")
}

/// The shared certificate of a text of either version, told by its first line: of version 2 the one that it is the text of,
/// of version 1 one whose expansion that is, each leaf with sets of its own. A text whose first line is neither has its fault there.
pub fn read_any(alloc: Global, bytes: &[u8]) -> Result<SharedCertificate, CertFault>
    ensures value { IfOk result (λ read. any_cert_of bytes.now ≡ Ok (record { winner = read.winner; cert = expansion read.cert })) }
    ensures fault { IfErr result (λ fault. fault.kind ≢ Wanting → any_cert_of bytes.now ≡ Err fault) }
    ensures first { IfOk result (λ read. IsTrue (is_first_version bytes.now) → cert_of bytes.now ≡ Ok (record { winner = read.winner; cert = expansion read.cert })) }
    ensures second { IfOk result (λ read. IsTrue (not (is_first_version bytes.now)) → shared_cert_of bytes.now ≡ Ok read) }
    ensures first_fault { IfErr result (λ fault. fault.kind ≢ Wanting → IsTrue (is_first_version bytes.now) → cert_of bytes.now ≡ Err fault) }
    ensures second_fault { IfErr result (λ fault. fault.kind ≢ Wanting → IsTrue (not (is_first_version bytes.now)) → shared_cert_of bytes.now ≡ Err fault) }
    ensures spelled { IfOk result (λ read. IsTrue (not (is_first_version bytes.now)) → shared_text read.winner read.cert ≡ bytes.now) }
    ensures some { IfOk result (λ read. 0 < length read.cert.nodes) }
    ensures few { IfOk result (λ read. length read.cert.nodes < 2 ^ 32) }
    ensures few_sets { IfOk result (λ read. length read.cert.sets < 2 ^ 32) }
{
    if !begins_as_first(bytes) {
        return read2(alloc, bytes);
    }
    read_spread(alloc, bytes)
}

/// The shared certificate of a text of version 1, in which equal sets stand once.
fn read_once(alloc: Global, bytes: &[u8]) -> Result<SharedCertificate, CertFault>
    ensures value { IfOk result (λ read. cert_of bytes.now ≡ Ok (record { winner = read.winner; cert = expansion read.cert })) }
    ensures fault { IfErr result (λ fault. fault.kind ≢ Wanting → cert_of bytes.now ≡ Err fault) }
    ensures some { IfOk result (λ read. 0 < length read.cert.nodes) }
    ensures few { IfOk result (λ read. length read.cert.nodes < 2 ^ 32) }
    ensures few_sets { IfOk result (λ read. length read.cert.sets < 2 ^ 32) }
{
    let plain = read(alloc, bytes)?;
    let cert = share(alloc, &plain.cert)?;
    Ok(SharedCertificate {
        winner: plain.winner,
        cert,
    })
}

/// The text of version 2 of what a text of either version says: a text of version 2 stays as it is, and of one of version 1
/// the winner and the expansion stay. A text that is of neither version is refused at the first line that does not fit.
pub fn migrate(alloc: Global, bytes: &[u8]) -> Result<Text, CertFault>
    ensures first { IfOk result (λ text. IsTrue (is_first_version bytes.now) → IsMigrated bytes.now text) }
    ensures second { IfOk result (λ text. IsTrue (not (is_first_version bytes.now)) → text ≡ bytes.now) }
    ensures fits { IfOk result (λ text. IsTrue (not (is_first_version bytes.now)) → (read : CertificateRead) × (shared_cert_of bytes.now ≡ Ok read)) }
    ensures first_fault { IfErr result (λ fault. fault.kind ≢ Wanting → IsTrue (is_first_version bytes.now) → cert_of bytes.now ≡ Err fault) }
    ensures second_fault { IfErr result (λ fault. fault.kind ≢ Wanting → IsTrue (not (is_first_version bytes.now)) → shared_cert_of bytes.now ≡ Err fault) }
{
    if begins_as_first(bytes) {
        let found = read_once(alloc, bytes)?;
        let text = write2(alloc, found.winner, &found.cert)?;
        return Ok(text);
    }
    let same = read2(alloc, bytes)?;
    let text = write2(alloc, same.winner, &same.cert)?;
    Ok(text)
}
