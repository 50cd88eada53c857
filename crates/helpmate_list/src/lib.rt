//! How soon a helpmate exists, and all of the shortest ones, in the order of moves.
//!
//! `answers` has what comes out, `leading` lists of lines with a move in front of each, `first` the first lines of a number of
//! plies from a position, `parts` the root moves of one worker, `spread` who carries out the parts,
//! `gather` what the parts come to, and `least` the least number of plies.
#![tactic(auto)]

mod answers;
mod first;
mod gather;
mod leading;
mod least;
mod parts;
mod spread;

pub use answers::{Lines, MOST_LINES, Shortest};
pub use least::{least_mates, shortest_says};
pub use parts::{MateTask, RootLines};
pub use spread::{OneByOne, Spread, Threaded};
