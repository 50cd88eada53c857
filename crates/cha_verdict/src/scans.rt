//! From where on a game was dead.

use cha_cert::Cert;

/// Where the search for the earliest dead position of a game ended.
#[derive(Clone, Copy, Debug, PartialEq, Eq)]
pub enum Edge {
    /// At the start of the game.
    Start,
    /// At a position in which a side can still mate.
    Live,
    /// At a position in which nothing was shown about a side, and neither side was shown able to mate.
    Unclear,
}

/// Certificates that neither side can mate in a position.
#[derive(Drop)]
pub struct EarlierCerts {
    /// That White cannot.
    pub white: Cert,
    /// That Black cannot.
    pub black: Cert,
}

/// From where on a game was dead. Ply j is the position after j moves, so ply 0 is the start.
#[derive(Drop)]
pub struct Scan {
    /// The earliest ply that is shown dead (Laws of Chess, Article 5.2.2).
    pub ply: u32,
    /// What stands before it.
    pub edge: Edge,
    /// The certificates for that ply, where it is not the last one of the game.
    pub earlier: Option<EarlierCerts>,
}
