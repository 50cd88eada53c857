//! The bytes of a word.

ghost use Rattle.std.specs.Prelude.{◌≡◌, ◌≤◌, ◌++◌, length, IsOk, IfOk, OnOk, OnErr};

use cha_list::NoMemory;
use smallvec::SmallVec;
use std::alloc::Global;
use std::marker::Model;

/// How many bytes are kept in place. A move or a result has at most seven.
const IN_PLACE: usize = 16;

/// The bytes of a word. It takes memory only where they are more than 16.
#[derive(Drop)]
pub struct Spelling {
    bytes: SmallVec<u8, IN_PLACE>,
}

impl Model for Spelling {
    ghost use Rattle.std.specs.Prelude.{List, ℕ};

    ghost Value = { List ℕ };

    ghost view = { λ s. s.bytes.items };
}

impl Spelling {
    /// The spelling of these bytes. The only error is want of memory, where they are more than 16.
    pub fn of(alloc: Global, bytes: &[u8]) -> Result<Spelling, NoMemory>
        ensures ok { IfOk result (λ spelling. spelling ≡ bytes.now) }
        ensures succeeds { length bytes.now ≤ 16 → IsOk result }
    {
        match SmallVec::from_slice(alloc, bytes) {
            Ok(bytes) => Ok(Spelling { bytes }),
            Err(_) => Err(NoMemory),
        }
    }

    /// Appends bytes. On a refusal the spelling is unchanged.
    pub fn append(&mut self, bytes: &[u8]) -> Result<(), NoMemory>
        ensures ok { OnOk result (self.new ≡ self.old ++ bytes.now) }
        ensures err { OnErr result (self.new ≡ self.old) }
    {
        match self.bytes.extend_from_slice(bytes) {
            Ok(()) => Ok(()),
            Err(_) => Err(NoMemory),
        }
    }

    /// The bytes, in order.
    pub fn items(&self) -> &[u8]
        ensures { result.now ≡ self.now }
    {
        self.bytes.as_slice()
    }
}
