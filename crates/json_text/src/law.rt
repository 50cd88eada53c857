//! What is written reads back.

ghost use Rattle.json.specs.Json.{Json};
ghost use Rattle.json_text.specs.Meant.{ReadsBack};

/// The law: the text of a value is read, by the grammar of RFC 8259, as the value that was meant. Each byte of a string is the
/// character of its number.
pub fn a_text_reads_back()
    ensures { (j : Json) → ReadsBack j }
{}
