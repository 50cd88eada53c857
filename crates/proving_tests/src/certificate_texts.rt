//! Certificate texts of both versions: of a queen that is lost at once, and of two kings.

ghost use Rattle.std.specs.Prelude.{◌<◌, ◌^◌, length};
ghost use Rattle.cert_text.specs.Spelled.{AreInnerOrLeaves};

use cert_text::{CertFault, CertKind, Certificate, migrate, read, read2, write, write2};
use cha_board::Color;
use cha_cert::{Cert, SharedCert, share};
use std::alloc::Global;
use std::process::Abort;

/// A queen that is lost at once.
const LOST: &str =
    "cha-cert 1\nwinner w\nnodes 2\ninner k7/1Q6/8/8/8/8/8/4K3 b - -\nleaf 8/1k6/8/8/8/8/8/4K3 w - -\n\
                    loose 0002000000000010\nreach e1 K ffffffffffffffff\nreach b7 K ffffffffffffffff\nend\n";

const KINGS: &str =
    "cha-cert 1\nwinner b\nnodes 1\nleaf 4k3/8/8/8/8/8/8/4K3 w - -\nloose 1000000000000010\n\
                     reach e1 K ffffffffffffffff\nreach e8 K ffffffffffffffff\nend\n";

const KINGS_FOR_WHITE: &str =
    "cha-cert 1\nwinner w\nnodes 1\nleaf 4k3/8/8/8/8/8/8/4K3 w - -\nloose 1000000000000010\n\
                     reach e1 K ffffffffffffffff\nreach e8 K ffffffffffffffff\nend\n";

const SHARED_KINGS: &str =
    "cha-cert 2\nwinner w\nsets 1\nloose 1000000000000010\nreach e1 K ffffffffffffffff\n\
                            reach e8 K ffffffffffffffff\nnodes 1\nleaf 0 4k3/8/8/8/8/8/8/4K3 w - -\nend\n";

const STALEMATE: &str = "cha-cert 1\nwinner w\nnodes 1\ninner 7k/5Q2/6K1/8/8/8/8/8 b - -\nend\n";

const NO_ROWS: &str =
    "cha-cert 1\nwinner w\nnodes 2\nleaf 8/1k6/8/8/8/8/8/4K3 w - -\nloose 0000000000000000\n\
                       leaf 8/1k6/8/8/8/8/8/4K3 w - -\nloose 8000000000000001\nreach a1 P 00000000000000f0\n\
                       reach a1 N 0000000000000001\nreach b1 P 0123456789abcdef\nend\n";

/// Asserts how a certificate is written.
fn is_written(rt: &impl Abort, alloc: Global, found: &Certificate, text: &str)
    requires size { (0 < length found.now.cert) × (length found.now.cert < 2 ^ 32) }
    requires inner_or_leaf { AreInnerOrLeaves found.now.cert }
{
    let again = write(alloc, found.winner, &found.cert).expect(rt, "memory");
    assert!(rt; again.items() == text.as_bytes(), "{text}");
}

/// Asserts that a text is written as it was read.
fn is_rewritten(rt: &impl Abort, alloc: Global, text: &str) {
    let found = read(alloc, text.as_bytes()).expect(rt, "a certificate");
    is_written(rt, alloc, &found, text);
}

#[test]
fn texts_are_read_and_written_as_they_were(rt: HostRuntime) {
    for text in [LOST, KINGS, STALEMATE, NO_ROWS] {
        is_rewritten(&rt, rt.alloc(), text);
    }
}

/// Asserts how a certificate is written with its sets shared, for White.
fn is_shared(rt: &impl Abort, alloc: Global, shared: &SharedCert) {
    assert!(rt; shared.nodes().len() == 1 && shared.sets().len() == 1);
    let text = write2(alloc, Color::White, shared).expect(rt, "memory");
    assert!(rt; text.items() == SHARED_KINGS.as_bytes());
}

/// Asserts how a certificate is written once its sets are shared.
fn shares(rt: &impl Abort, alloc: Global, cert: &Cert)
    requires { length cert.now < 2 ^ 32 }
{
    let shared = share(alloc, cert).expect(rt, "memory");
    is_shared(rt, alloc, &shared);
}

#[test]
fn a_shared_certificate_has_its_sets_first(rt: HostRuntime) {
    let found = read(rt.alloc(), KINGS.as_bytes()).expect(&rt, "a certificate");
    shares(&rt, rt.alloc(), &found.cert);
}

/// The first line of a text of another version.
const OTHER_VERSION: Option<CertFault> = Some(CertFault {
    line: 1,
    kind: CertKind::Header,
});

#[test]
fn each_version_is_read_by_its_own_reader(rt: HostRuntime) {
    let second = read(rt.alloc(), SHARED_KINGS.as_bytes()).err();
    assert_eq!(rt; second, OTHER_VERSION);
    let first = read2(rt.alloc(), KINGS.as_bytes()).err();
    assert_eq!(rt; first, OTHER_VERSION);
}

/// Asserts that a text is migrated to the text with shared sets of two kings, for White.
fn is_migrated(rt: &impl Abort, alloc: Global, text: &str) {
    let found = migrate(alloc, text.as_bytes()).expect(rt, "a certificate");
    assert!(rt; found.items() == SHARED_KINGS.as_bytes());
}

#[test]
fn a_text_of_the_first_version_is_migrated(rt: HostRuntime) {
    is_migrated(&rt, rt.alloc(), KINGS_FOR_WHITE);
    is_migrated(&rt, rt.alloc(), SHARED_KINGS);
}
