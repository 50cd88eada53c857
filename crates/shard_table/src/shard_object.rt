//! A shard as a value at which passes take turns.

ghost use Rattle.shard_table.specs.Shards.{ShardStep};

use crate::shard::Shard;
use cha_fact::{FactCall, FactReply};
use turn_cell::Object;

impl Object for Shard {
    type Call = FactCall;

    type Reply = FactReply;

    ghost step = { ShardStep };

    /// Makes a call, and answers its reply.
    fn apply(&mut self, call: FactCall) -> FactReply {
        match call {
            FactCall::Probe(key) => FactReply::Probed(self.probe(&key)),
            FactCall::Store(row) => FactReply::Stored(self.store(row)),
        }
    }
}
