//! Tests of the board, the moves and FEN: tables of values from outside.
//!
//! `attacks` has what men attack, `moves` the moves of the opening and a mate, and `positions` texts in FEN.
#![tactic(auto)]

#[cfg(test)]
mod attacks;
#[cfg(test)]
mod moves;
#[cfg(test)]
mod positions;
