//! Lists, texts and bytes, what the other crates keep their items in, and a count of steps.
//!
//! `lists` has the growing list and the text, `memory` the error of a refused allocation, `classes` what a class of bytes
//! is and those that belong to no format, `runs` how many bytes of a class stand at an end of a text, and `steps` the count.
#![tactic(auto)]

mod classes;
mod lists;
mod memory;
mod runs;
mod steps;

pub use classes::{ByteClass, Class};
pub use lists::{Listed, Text, text_of};
pub use memory::NoMemory;
pub use runs::{all_of, count_of, run_back, run_of};
pub use steps::Steps;
