//! Why a game cannot be read.

use cha_list::Text;
use cha_san::SanFault;
use pgn_games::GameFault;

/// Why a game cannot be read.
#[derive(Drop)]
pub enum Unreadable {
    /// Its text is no game.
    Tokens(GameFault),
    /// A word names no move.
    Moves {
        /// The number of the word in the game, from 1.
        ply: u32,
        /// The word.
        word: Text,
        /// What is wrong with the word.
        fault: SanFault,
    },
    /// It has more bytes than are kept of a game whose result may be corrected.
    TooLong,
}
