//! The check of one certificate.

ghost use Rattle.std.specs.Prelude.{◌≡◌, ◌<◌, ◌^◌, ◌↔◌, length, IsTrue, IfOk, Ok};
ghost use Rattle.cha_cert.specs.Shared.{expansion};
ghost use Rattle.cert_text.specs.Versions.{any_cert_of};
ghost use Rattle.cha_words.specs.declared.orders.Order.TheVariants.{CheckCert};
ghost use Rattle.adjudicate.specs.CertFindings.{IsAnswerTo, IsReadAs, IsValidAtFirst};
ghost use Rattle.adjudicate.specs.Report.{demand};
ghost use Rattle.adjudicate.specs.Runs.{IsRunOf, outside};
ghost use Rattle.adjudicate.specs.Steps.{IsWritten, ended_by};

use crate::endings::Status;
use crate::writing::put;
use cert_text::{CertKind, SharedCertificate, read_any};
use cha_cert::Checked;
use cha_list::{NoMemory, Text};
use cha_outside::{MOST_BYTES, Sink, Source, Wrote, read_all};
use flag_report::{accepted_line, failing_line, misfit_line};
use side_by_side::Hands;
use std::alloc::Global;

/// Checks the certificate whose text a source gives, in either version, and writes the answer. It reads the whole source
/// first.
pub fn check_cert<H: Hands, S: Source, K: Sink>(
    alloc: Global,
    hands: &H,
    source: &mut S,
    sink: &mut K,
) -> Status
    requires ready { H.ready hands.now }
    ensures { IsRunOf (demand CheckCert) result (outside (S.left source.old) (S.faults source.old) (K.written sink.old) (K.faults sink.old)) (outside (S.left source.new) (S.faults source.new) (K.written sink.new) (K.faults sink.new)) }
{
    match read_all(alloc, source, MOST_BYTES) {
        Ok(bytes) => write_answer(alloc, hands, bytes, sink),
        Err(end) => Status::from(end),
    }
}

/// Checks the certificate of a text, and writes the answer.
fn write_answer<H: Hands, K: Sink>(alloc: Global, hands: &H, bytes: Vec<u8>, sink: &mut K) -> Status
    requires ready { H.ready hands.now }
    ensures { IsWritten (demand CheckCert) bytes.items result (K.written sink.old) (K.faults sink.old) (K.written sink.new) (K.faults sink.new) }
{
    let Ok(answer) = answer_to(alloc, hands, bytes) else {
        return Status::NoMemory;
    };
    match put(sink, answer.line.items()) {
        Wrote::All => ended(answer.accepted),
        Wrote::Failed(_) => Status::WriteFault,
    }
}

/// How the writing of an answer ended, where all of it was written.
fn ended(accepted: bool) -> Status
    ensures { result ≡ ended_by accepted }
{
    if accepted {
        Status::Done
    } else {
        Status::NotAccepted
    }
}

/// What is answered on a text: whether it is that of a valid certificate, and the line that says so.
#[derive(Drop)]
struct Answer {
    accepted: bool,
    line: Text,
}

/// What is answered on a text.
fn answer_to<H: Hands>(alloc: Global, hands: &H, bytes: Vec<u8>) -> Result<Answer, NoMemory>
    requires ready { H.ready hands.now }
    ensures line { IfOk result (λ answer. IsAnswerTo (any_cert_of bytes.items) answer.line) }
    ensures accepted { IfOk result (λ answer. IsTrue answer.accepted ↔ IsReadAs IsValidAtFirst bytes.items) }
{
    let read = read_any(alloc, &bytes);
    // The certificate is checked without its text, which may be as large.
    drop(bytes);
    match read {
        Ok(certificate) => answer_on(alloc, hands, &certificate),
        Err(fault) => {
            if fault.kind == CertKind::NoMemory {
                return Err(NoMemory);
            }
            Ok(Answer {
                accepted: false,
                line: misfit_line(alloc, fault)?,
            })
        }
    }
}

/// What is answered on a certificate: what its check answers, asked for the position of its first node.
fn answer_on<H: Hands>(
    alloc: Global,
    hands: &H,
    certificate: &SharedCertificate,
) -> Result<Answer, NoMemory>
    requires ready { H.ready hands.now }
    requires some { 0 < length certificate.now.cert.nodes }
    requires few { length certificate.now.cert.nodes < 2 ^ 32 }
    ensures line { IfOk result (λ answer. IsAnswerTo (Ok (record { winner = certificate.now.winner; cert = expansion certificate.now.cert })) answer.line) }
    ensures accepted { IfOk result (λ answer. IsTrue answer.accepted ↔ IsValidAtFirst (record { winner = certificate.now.winner; cert = expansion certificate.now.cert })) }
{
    let first = certificate.cert.nodes()[0].position.position();
    let winner = certificate.winner;
    match hands.check(alloc, &first, winner, &certificate.cert)? {
        Checked::Accepted => Ok(Answer {
            accepted: true,
            line: accepted_line(alloc, winner)?,
        }),
        Checked::Fails(number) => Ok(Answer {
            accepted: false,
            line: failing_line(alloc, number)?,
        }),
    }
}
