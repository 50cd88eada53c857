//! The classes of bytes that PGN names.

ghost use Rattle.std.specs.Prelude.{◌≡◌};
ghost use Rattle.pgn_lex.specs.Classes.{is_word_sign, in_pgn_class};

use cha_list::{ByteClass, Class};

/// A class of bytes of PGN. The bytes are ASCII; a byte above 127 is in none but `NotBrace`.
#[derive(Clone, Copy, Debug, PartialEq, Eq)]
pub enum PgnClass {
    /// No closing brace.
    NotBrace,
    /// What a word is made of: a letter, a digit, or one of `_ + # = : - / ! ?`.
    WordByte,
    /// What the name of a tag is made of: a letter, a digit or `_`.
    NameByte,
    /// `!` or `?`, with which moves are judged.
    Mark,
}

impl ByteClass for PgnClass {
    ghost has = { in_pgn_class };

    #[tactic(auto, unfolding(crate::specs::Classes::in_pgn_class, cha_list::specs::Bytes::in_class))]
    fn is_of(self, byte: u8) -> bool {
        match self {
            PgnClass::NotBrace => byte != b'}',
            PgnClass::WordByte => Class::Letter.is_of(byte)
                || Class::Digit.is_of(byte)
                || word_sign(byte),
            PgnClass::NameByte => Class::Letter.is_of(byte)
                || Class::Digit.is_of(byte)
                || byte == b'_',
            PgnClass::Mark => byte == b'!' || byte == b'?',
        }
    }
}

/// Whether a byte is one of the signs that a word may have.
fn word_sign(byte: u8) -> bool
    ensures { result ≡ is_word_sign byte }
{
    byte == b'_'
        || byte == b'+'
        || byte == b'#'
        || byte == b'='
        || byte == b':'
        || byte == b'-'
        || byte == b'/'
        || byte == b'!'
        || byte == b'?'
}
