//! The exports for C: a whole run, and the check of a certificate, over memory that the caller lends.
//!
//! `slice` has bytes that are lent, as a source, `command_words` the command words in one text, `grown` a sink that
//! grows, `checking` the check of a certificate, `running` a run into memory of its own, and `exports` the functions
//! that C calls.
#![tactic(auto)]

mod checking;
mod command_words;
mod exports;
mod grown;
mod running;
mod slice;
