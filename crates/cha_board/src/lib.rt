//! The chess board: squares, men, what men aim at and attack, and valid positions (Laws of Chess, Articles 2 and 3).
//!
//! `men` has colours, kinds and men, `squares` the squares, `letters` how both are written, `sets` sets of squares,
//! `each_square` their squares one after the other, `shifts` ranks, colours of squares, sets moved by one square and steps of kings, and `placement` what stands on the
//! board, kept as sets. `empty_board` has distances and what a man aims at on an empty board, `aiming` the same over occupied
//! squares by the tables of `leaps` and `rays`, and `strikes` what men attack by it. `position` has the valid positions, `build` how one is made, `castling` what a side needs for castling,
//! and `opening` the opening position. `packed` has positions as five words, by which they are compared and found, and
//! `kept` positions in the room of these.
#![tactic(auto)]

mod aiming;
mod build;
mod castling;
mod each_square;
mod empty_board;
mod kept;
mod leaps;
mod letters;
mod men;
mod opening;
mod packed;
mod placement;
mod position;
mod rays;
mod sets;
mod shifts;
mod squares;
mod strikes;

pub use aiming::{aims, aims_alone, squares_between};
pub use build::BuildFault;
pub use castling::{Wing, home, homes};
pub use each_square::Squares;
pub use empty_board::{aims_at, files_between, steps_between};
pub use kept::Kept;
pub use letters::put_square;
pub use men::{Color, Kind, Man, is_man_of};
pub use opening::OPENING_MEN;
pub use packed::{Packed, same_position, words_tell_positions};
pub use placement::Men;
pub use position::{Position, Rights, attacks};
pub use sets::SquareSet;
pub use squares::Square;
