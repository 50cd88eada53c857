//! The moves of chess: which are legal, the position after each, and how a position stands (Laws of Chess, Articles 3 and 5).
//!
//! `chess_move` has the move, `sides` the ranks of a side's pawns, `passing` what a pawn passes over or captures in passing,
//! `goes` how men go, `ways` where they may go, `changes` what a move changes, `afterwards` the position after one, `safety` which
//! moves leave the king unattacked, `shields` what checks it and which men shield it, `legally` which ways are legal,
//! `list` the legal moves, `count` how many there are, `any` whether there is one, `ends` how a position stands, `checks` where a man may give check, `mating` which move mates, `lines` the lines that end in mate,
//! `dead` what stays so once a side cannot mate, and `text` the move's text.
#![tactic(auto)]

mod afterwards;
mod any;
mod changes;
mod checks;
mod chess_move;
mod count;
mod dead;
mod ends;
mod goes;
mod legally;
mod lines;
mod list;
mod mating;
mod passing;
mod safety;
mod shields;
mod sides;
mod text;
mod ways;

pub use afterwards::{after, after_by, after_of, after_quiet, quiet_squares};
pub use any::any_legal;
pub use changes::rights_leaving;
pub use chess_move::Move;
pub use count::count_legal;
pub use dead::unwinnable_stays;
pub use ends::{Standing, is_mate, state};
pub use legally::{legal_ways, legal_ways_by};
pub use lines::{mate_lines_mate, replays};
pub use list::{Moves, PROMOTIONS, Positions, is_legal, legal, promoting, promotion};
pub use mating::mating_move;
pub use passing::{captured_on, passed_over};
pub use shields::{Shields, shields_of};
pub use sides::{double_step_rank, first_pawn_rank, promotion_rank};
pub use text::move_text;
