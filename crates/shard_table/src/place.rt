//! A shard of one's own as a place that keeps facts.

use crate::shard::Shard;
use cha_fact::{Facts, Key, Probe, Proved, Stored};

impl Facts for Shard {
    ghost use Rattle.shard_table.specs.Shards.{IsReplay};
    ghost use Rattle.shard_table.specs.Replays.{replay_joined};
    ghost use Rattle.std.specs.Prelude.{refl};

    ghost ready = { λ _. Unit {0} };

    ghost made = { IsReplay };

    ghost none_made = { λ s. refl };

    ghost both_made = { replay_joined };

    fn probe(&mut self, key: &Key) -> Probe {
        Shard::probe(self, key)
    }

    fn store(&mut self, row: Proved) -> Stored {
        Shard::store(self, row)
    }
}
