//! The text of a certificate, version 1: written, and read so that one certificate has one text; and the text of a shared
//! certificate, version 2, written and read (this project).
//!
//! `faults` says why a text is refused, `digits` has numbers as digits, `labels` the line of a position, `spelled` and `shared_spelled` write, `rest` and
//! `text_lines` cut a text into lines,
//! `heads` reads the first three lines, `leaves` a leaf's lines, `bodies` the nodes, and `reader` the whole;
//! `shared_bodies` and `shared_reader` do so for version 2, and `versions` tells them apart and leads from the first to the second.
#![tactic(auto)]

mod bodies;
mod digits;
mod faults;
mod heads;
mod labels;
mod leaves;
mod reader;
mod rest;
mod shared_bodies;
mod shared_reader;
mod shared_spelled;
mod spelled;
mod text_lines;
mod versions;

pub use faults::{CertFault, CertKind};
pub use reader::{Certificate, read};
pub use shared_reader::{SharedCertificate, read2};
pub use shared_spelled::write2;
pub use spelled::write;
pub use versions::{migrate, read_any};
