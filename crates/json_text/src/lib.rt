//! Texts in JSON (RFC 8259), written token by token in printable ASCII.
//!
//! `writer` has the text that grows, and `law` that what is written reads back as the value that was meant.
#![tactic(auto)]

mod law;
mod writer;

pub use law::a_text_reads_back;
pub use writer::JsonText;
