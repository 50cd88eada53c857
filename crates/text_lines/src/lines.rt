//! A line of a text.

ghost use Rattle.std.specs.Prelude.{◌≡◌};
ghost use Rattle.text_lines.specs.Lines.{without_return as without_return_of};

use cha_list::Text;

/// A line that is not blank: it has a byte other than a space and a tab.
#[derive(Drop)]
pub struct TextLine {
    /// Its number among all lines of its text, from 1.
    pub number: u64,
    /// Its first 4,097 bytes, without the line feed that ends it and without one carriage return right before that.
    pub text: Text,
}

/// The line with one carriage return at its end taken off, if there is one.
pub fn without_return(line: &[u8]) -> &[u8]
    ensures { result.now ≡ without_return_of line.now }
{
    let end = line.len();
    if end > 0 && line[end - 1] == b'\r' {
        line.split_at(end - 1).0
    } else {
        line
    }
}
