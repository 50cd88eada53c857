//! The outside: where bytes come from and where they go.
//!
//! `reading` and `writing` have the two traits, the `*_source` and `*_sink` modules what stands for them in memory,
//! `std_reader` and `std_writer` the adapters to std's readers and writers, and `gathering` the reader of a whole input.
#![tactic(auto)]

mod bytes_source;
mod failing;
mod filling;
mod gathering;
mod kept_sink;
mod pieces_source;
mod reading;
mod repeat_source;
mod std_reader;
mod std_writer;
mod writing;

pub use bytes_source::Bytes;
pub use gathering::{MOST_BYTES, ReadEnd, read_all, take_all};
pub use kept_sink::KeptSink;
pub use pieces_source::Pieces;
pub use reading::{Got, Source};
pub use repeat_source::Repeat;
pub use std_reader::ReadFrom;
pub use std_writer::WriteTo;
pub use writing::{Sink, Wrote};
