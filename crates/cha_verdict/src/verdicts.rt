//! The verdict on a side.

ghost use Rattle.std.specs.Prelude.{◌≡◌};
ghost use Rattle.cha_verdict.specs.Verdicts.{is_undecided as is_undecided_verdict, is_unwinnable as is_unwinnable_verdict, is_winnable as is_winnable_verdict};

use cha_cert::Cert;
use cha_moves::Moves;

/// What is found about whether a side can still mate by any series of legal moves (Laws of Chess, Articles 5.2.2 and 6.9).
#[derive(Drop)]
pub enum Verdict {
    /// These legal moves, made one after the other, end in a mate by the side.
    Winnable(Moves),
    /// No series of legal moves ends in a mate by the side, which this certificate shows.
    Unwinnable(Cert),
    /// Neither was shown, with all that a search may spend.
    Undecided {
        /// So many distinct positions that legal moves lead to were expanded, the position itself the first of them, and no
        /// mate by the side was met.
        positions: u32,
        /// No list of at most this many legal moves, of both sides together, ends in a mate by the side.
        depth: u8,
    },
    /// The side was not examined, since the other side can mate.
    Skipped,
}

/// Whether the side can mate.
pub fn is_winnable(verdict: &Verdict) -> bool
    ensures { result ≡ is_winnable_verdict verdict.now }
{
    matches!(verdict, Verdict::Winnable(_))
}

/// Whether the side cannot mate.
pub fn is_unwinnable(verdict: &Verdict) -> bool
    ensures { result ≡ is_unwinnable_verdict verdict.now }
{
    matches!(verdict, Verdict::Unwinnable(_))
}

/// Whether nothing was shown about the side.
pub fn is_undecided(verdict: &Verdict) -> bool
    ensures { result ≡ is_undecided_verdict verdict.now }
{
    matches!(verdict, Verdict::Undecided { .. })
}
