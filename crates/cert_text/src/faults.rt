//! Why a text is no certificate.

ghost use Rattle.std.specs.Prelude.{◌≡◌};
ghost use Rattle.cert_text.specs.declared.faults.CertKind.TheVariants as kinds;

use cha_list::NoMemory;
use std::alloc::AllocFailed;

/// What was wanted where a text does not fit.
#[derive(Clone, Copy, Debug, PartialEq, Eq)]
pub enum CertKind {
    /// The first line, `cha-cert 1`.
    Header,
    /// The second line, `winner w` or `winner b`.
    Winner,
    /// The third line, `nodes N` with N from 1 to 4294967295 in digits without leading zeros.
    Count,
    /// The line of a node, `inner FEN` or `leaf FEN`, and in version 2 `leaf I FEN` with the number of its sets, or the word of
    /// a `Reason` before the FEN: each FEN as it is written.
    Node,
    /// Behind a leaf's line, `loose H`: H is a set of squares, as sixteen lower-case hexadecimal digits.
    Loose,
    /// Behind that, `reach SQUARE KIND H`, in order of the squares and then of the kinds, and no H is zero.
    Reach,
    /// The last line, `end`, and nothing behind it.
    End,
    /// The allocator refused memory. The text may be right.
    NoMemory,
    /// In version 2 the third line, `sets M` with M from 0 to 4294967295 in digits without leading zeros.
    Sets,
}

/// Why a text is refused: the first line that does not fit its place, and what was wanted there.
#[derive(Clone, Copy, Debug, PartialEq, Eq)]
pub struct CertFault {
    /// The number of the line, from 1. Where memory is wanting it says nothing.
    pub line: u64,
    pub kind: CertKind,
}

impl From<NoMemory> for CertFault {
    ghost from_gives = { λ _ fault. fault.kind ≡ kinds.NoMemory };

    fn from(_refused: NoMemory) -> CertFault {
        CertFault {
            line: 0,
            kind: CertKind::NoMemory,
        }
    }
}

impl<T: Drop> From<AllocFailed<T>> for CertFault {
    ghost from_gives = { λ _ fault. fault.kind ≡ kinds.NoMemory };

    fn from(_refused: AllocFailed<T>) -> CertFault {
        CertFault {
            line: 0,
            kind: CertKind::NoMemory,
        }
    }
}

/// A refused `push` hands its item back; a reader has no use for it.
impl<T: Drop> From<(T, NoMemory)> for CertFault {
    ghost from_gives = { λ _ fault. fault.kind ≡ kinds.NoMemory };

    fn from(refused: (T, NoMemory)) -> CertFault {
        let (_item, _no_memory) = refused;
        CertFault {
            line: 0,
            kind: CertKind::NoMemory,
        }
    }
}
