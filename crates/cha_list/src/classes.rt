//! Classes of bytes: what a run of bytes is made of.

ghost use Rattle.std.specs.Prelude.{ℕ, Bool, ◌≡◌};
ghost use Rattle.cha_list.specs.Bytes.{is_digit, is_letter, in_class};

/// A class of bytes. A format has its own beside those of `Class`.
pub trait ByteClass: Copy {
    /// A byte is of the class.
    ghost has: { Self → ℕ → Bool };

    /// Whether a byte is of the class.
    fn is_of(self, byte: u8) -> bool
        ensures { result ≡ has self byte };
}

/// A class of bytes that belongs to no format. The bytes are ASCII where a class names characters; a byte above 127 is in
/// a class only where the class is named for what it leaves out.
#[derive(Clone, Copy, Debug, PartialEq, Eq)]
pub enum Class {
    /// A space or a tab.
    Blank,
    /// No space and no tab.
    NotBlank,
    /// Neither a carriage return nor a line feed.
    InLine,
    /// No line feed.
    NotLineFeed,
    /// A digit.
    Digit,
    /// A letter.
    Letter,
}

impl ByteClass for Class {
    ghost has = { in_class };

    #[tactic(auto, unfolding(crate::specs::Bytes::in_class))]
    fn is_of(self, byte: u8) -> bool {
        match self {
            Class::Blank => byte == b' ' || byte == b'\t',
            Class::NotBlank => !(byte == b' ' || byte == b'\t'),
            Class::InLine => !(byte == b'\r' || byte == b'\n'),
            Class::NotLineFeed => byte != b'\n',
            Class::Digit => digit(byte),
            Class::Letter => letter(byte),
        }
    }
}

/// Whether a byte is a digit.
fn digit(byte: u8) -> bool
    ensures { result ≡ is_digit byte }
{
    b'0' <= byte && byte <= b'9'
}

/// Whether a byte is a letter.
fn letter(byte: u8) -> bool
    ensures { result ≡ is_letter byte }
{
    (b'A' <= byte && byte <= b'Z') || (b'a' <= byte && byte <= b'z')
}
