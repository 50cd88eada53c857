//! What may be known of a position and a side.

ghost use Rattle.std.specs.Prelude.{◌≡◌, IsTrue, IsErr, IfOk};
ghost use Rattle.cha_fact.specs.Truths.{is_mate, rank_of};

use crate::kept_line::KeptLine;
use cha_list::NoMemory;
use std::alloc::Global;

/// What may be known of whether a side can mate from a position.
#[derive(Drop)]
pub enum Fact {
    /// This line of legal moves mates: a helpmate.
    Mate(KeptLine),
    /// No list of at most so many legal moves mates.
    NoneWithin(u8),
}

impl Fact {
    /// How much the fact says: the number of plies without a mate, or 1000 less the moves of the mate. So each mate says more
    /// than any number of plies, and the shorter of two mates says more.
    pub fn rank(&self) -> u32
        ensures { result ≡ rank_of self.now }
    {
        match self {
            Fact::Mate(line) => 1000 - line.moves().len() as u32,
            Fact::NoneWithin(depth) => u32::from(*depth),
        }
    }

    /// A copy of the fact. Memory is taken for the line of a mate alone.
    pub fn copy(&self, alloc: Global) -> Result<Fact, NoMemory>
        ensures value { IfOk result (λ fact. fact ≡ self.now) }
        ensures refused { IsErr result → IsTrue (is_mate self.now) }
    {
        match self {
            Fact::Mate(line) => match line.copy(alloc) {
                Ok(line) => Ok(Fact::Mate(line)),
                Err(refused) => Err(refused),
            },
            Fact::NoneWithin(depth) => Ok(Fact::NoneWithin(*depth)),
        }
    }
}
