//! A sink that grows.

ghost use Rattle.std.specs.Prelude.{◌≡◌, ◌<◌, [], length};
ghost use Rattle.std.specs.declared.option.Option.TheVariants.{Some};
ghost use Rattle.cha_outside.specs.Writing.{TakesBelow, Takes, WriteCause};

use cha_outside::{Sink, Wrote};
use std::alloc::Global;
use std::marker::Model;

/// A sink that takes memory as it is written to. It fails where memory is refused, and then takes nothing of that piece.
#[derive(Drop)]
pub struct Grown {
    kept: Vec<u8>,
    faults: u64,
}

/// Contracts see what was written, and how often memory was refused.
impl Model for Grown {
    ghost use Rattle.cha_c.specs.Answers.{GrownState};

    ghost Value = { GrownState };

    ghost view = { λ s. record { bytes = s.kept.items; faults = s.faults } };
}

impl Grown {
    /// A sink that was not written to. It takes no memory.
    pub fn new(alloc: Global) -> Grown
        ensures { result ≡ record { bytes = []; faults = 0 } }
    {
        Grown {
            kept: Vec::new(alloc),
            faults: 0,
        }
    }

    /// What was written.
    pub fn bytes(&self) -> &[u8]
        ensures { result.now ≡ self.now.bytes }
    {
        self.kept.as_slice()
    }
}

impl Sink for Grown {
    ghost written = { λ s. Some s.bytes };

    ghost faults = { λ s. s.faults };

    /// Takes the whole piece, unless memory is refused.
    fn write(&mut self, bytes: &[u8]) -> Wrote
        requires { 0 < length bytes.now }
        ensures below { TakesBelow (length bytes.now) result }
        ensures bytes { Takes (Some self.old.bytes) (Some self.new.bytes) result bytes.now }
        ensures cause { WriteCause self.old.faults self.new.faults result }
    {
        match self.kept.extend_from_slice(bytes) {
            Ok(()) => Wrote::All,
            Err(_) => {
                self.faults = self.faults.saturating_add(1);
                Wrote::Failed(0)
            }
        }
    }
}
