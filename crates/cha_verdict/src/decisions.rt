//! The verdicts on both sides of a position.

ghost use Rattle.std.specs.Prelude.{◌≡◌};
ghost use Rattle.cha_verdict.specs.Verdicts.{are_dead as are_dead_verdicts};

use crate::verdicts::{Verdict, is_unwinnable};

/// The verdicts on both sides of a position.
#[derive(Drop)]
pub struct Decision {
    /// Whether White can still mate.
    pub white: Verdict,
    /// Whether Black can still mate.
    pub black: Verdict,
}

/// Whether neither side can mate, so that the position is dead (Laws of Chess, Article 5.2.2).
pub fn are_dead(white: &Verdict, black: &Verdict) -> bool
    ensures { result ≡ are_dead_verdicts white.now black.now }
{
    is_unwinnable(white) && is_unwinnable(black)
}
