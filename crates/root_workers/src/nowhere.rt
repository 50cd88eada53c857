//! A place of facts that keeps none.

use cha_fact::{Facts, Key, Probe, Proved, Stored};

/// A place of facts that keeps and knows nothing. Contracts say nothing of the calls that are made there.
#[derive(Clone, Copy)]
pub struct Nowhere;

impl Facts for Nowhere {
    ghost ready = { λ _. Unit {0} };

    ghost made = { λ old entries new. Unit {0} };

    ghost none_made = { λ s. tt };

    ghost both_made = { λ a b c xs ys first second. tt };

    fn probe(&mut self, _key: &Key) -> Probe {
        Probe::Miss
    }

    fn store(&mut self, _row: Proved) -> Stored {
        Stored::Dropped
    }
}
