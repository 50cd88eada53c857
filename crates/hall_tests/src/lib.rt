//! Tests of the command words: what lines of words allow a search to spend.
#![tactic(auto)]

#[cfg(test)]
mod orders;
