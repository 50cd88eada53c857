//! What an exploration answers.

use cha_cert::Cert;
use cha_moves::Moves;

/// How an exploration ended.
#[derive(Drop)]
pub enum Explored {
    /// These legal moves, one after another, mate for the winner.
    Mate(Moves),
    /// Nothing waits any more. By this certificate no series of legal moves mates for the winner.
    Closed(Cert),
    /// So many positions were expanded, as many as were allowed, and more wait.
    Spent { count: u32 },
}
