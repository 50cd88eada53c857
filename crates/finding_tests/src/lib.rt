//! Tests of what looks for mates, sets and certificates, on positions that FEN says. Known helpmates, in how few plies they are and how many
//! there are, are rows of data (`rows/helpmates.txt`).
//!
//! `from_fen` reads positions. `least_sets` and `static_verdicts` have answers of the solver. `facts` has what is known of positions;
//! `cells`, `shards` and `tables` have where it is kept, the first also beside the threads of `busy`. `rounds` and `crews` look for mates by
//! rounds. `guides` and `hunts` have searches that are led, `stores` the positions of an exploration, and `explored` explorations.
#![tactic(auto)]

#[cfg(test)]
mod busy;
#[cfg(test)]
mod cells;
#[cfg(test)]
mod crews;
#[cfg(test)]
mod explored;
#[cfg(test)]
mod facts;
#[cfg(test)]
mod from_fen;
#[cfg(test)]
mod guides;
#[cfg(test)]
mod hunts;
#[cfg(test)]
mod least_sets;
#[cfg(test)]
mod rounds;
#[cfg(test)]
mod shards;
#[cfg(test)]
mod static_verdicts;
#[cfg(test)]
mod stores;
#[cfg(test)]
mod tables;
