//! Tests of what turns bytes into games and plays them. What whole runs show of games and their moves are rows of data (`rows/`).
//!
//! `reads_and_writes` has sources and sinks that fail, `tokens` texts with their tokens, `games` texts with their games, `ready` games and
//! lines that are given without a read, `results` games that get another result, `words` what is no word of SAN, and `drawn` games that are
//! drawn at random.
#![tactic(auto)]

#[cfg(test)]
mod drawn;
#[cfg(test)]
mod games;
#[cfg(test)]
mod reads_and_writes;
#[cfg(test)]
mod ready;
#[cfg(test)]
mod results;
#[cfg(test)]
mod tokens;
#[cfg(test)]
mod words;
