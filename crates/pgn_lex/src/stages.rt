//! Where a lexer stands that takes single bytes, and where the next byte takes it.

ghost use Rattle.std.specs.Prelude.{◌≡◌, ◌==◌};
ghost use Rattle.pgn_lex.specs.Stages.{begun, spoils, after_part, run_on, in_value, past_backslash, next_stage};

use crate::classes::PgnClass;
use crate::piece_rules::white;
use cha_list::{ByteClass, Class};

/// What a lexer has read last.
#[derive(Clone, Copy, Debug, PartialEq, Eq)]
pub enum Stage {
    /// Nothing at all.
    Start,
    /// EF at the front, which the bytes EF BB BF begin with.
    MarkBegun,
    /// EF BB at the front.
    MarkGrown,
    /// EF BB BF at the front.
    Marked,
    /// White space, or the end of a comment.
    Between,
    /// Some of a line that is passed over.
    RestOfLine,
    /// Some of a comment in braces.
    InComment,
    /// `$`.
    AfterDollar,
    /// Some digits of an annotation.
    InNumber,
    /// Some of a word.
    InWord,
    /// `[`, and blanks perhaps.
    InTag,
    /// Some of the name of a tag pair.
    InName,
    /// The name of a tag pair, and a blank.
    AfterName,
    /// The opening quote of a tag pair, and some of its value perhaps.
    InValue,
    /// A backslash in a value.
    AfterBackslash,
    /// The closing quote of a tag pair, and blanks perhaps.
    AfterValue,
    /// A whole tag pair.
    TagRead,
    /// A bracket that begins no tag pair, and some of its line.
    Spoilt,
    /// `*`.
    StarRead,
    /// `(`.
    EnterRead,
    /// `)`.
    LeaveRead,
    /// A byte that begins nothing.
    BadRead,
}

/// What a byte does to the piece that is being read.
#[derive(Clone, Copy, Debug, PartialEq, Eq)]
pub enum Next {
    /// It belongs to the piece.
    Stays(Stage),
    /// The piece ended before it.
    Over,
}

/// What the first byte of a piece begins. `first` says that it is the first of its line.
#[tactic(auto, unfolding(crate::specs::Stages::begun))]
pub fn what_begins(first: bool, byte: u8) -> Stage
    ensures { result ≡ begun first byte }
{
    if first && byte == b'%' {
        return Stage::RestOfLine;
    }
    if white(byte) {
        return Stage::Between;
    }
    match byte {
        b';' => Stage::RestOfLine,
        b'{' => Stage::InComment,
        b'[' => Stage::InTag,
        b'(' => Stage::EnterRead,
        b')' => Stage::LeaveRead,
        b'*' => Stage::StarRead,
        b'$' => Stage::AfterDollar,
        _ => {
            if PgnClass::WordByte.is_of(byte) {
                return Stage::InWord;
            }
            Stage::BadRead
        }
    }
}

/// What a byte does that fits nowhere in a tag pair.
fn spoilt_by(byte: u8) -> Next
    ensures { result ≡ spoils byte }
{
    if Class::InLine.is_of(byte) {
        return Next::Stays(Stage::Spoilt);
    }
    Next::Over
}

/// What a byte does between the parts of a tag pair, where this byte ends the part.
fn past_part(byte: u8, stage: Stage, wanted: u8, next: Stage) -> Next
    ensures { result ≡ after_part byte stage wanted next }
{
    if Class::Blank.is_of(byte) {
        return Next::Stays(stage);
    }
    if byte == wanted {
        return Next::Stays(next);
    }
    spoilt_by(byte)
}

/// What a byte does to a piece, where it goes on with it as long as bytes are of a class.
fn while_of<C: ByteClass>(class: C, byte: u8, stage: Stage) -> Next
    ensures { result ≡ run_on (C.has class byte) stage }
{
    if class.is_of(byte) {
        return Next::Stays(stage);
    }
    Next::Over
}

/// What a byte does that is wanted.
fn wants(wanted: u8, byte: u8, stage: Stage) -> Next
    ensures { result ≡ run_on (byte == wanted) stage }
{
    if byte == wanted {
        return Next::Stays(stage);
    }
    Next::Over
}

/// What a byte does in a value.
#[tactic(auto, unfolding(crate::specs::Stages::in_value))]
fn within_value(byte: u8) -> Next
    ensures { result ≡ in_value byte }
{
    if byte == b'"' {
        return Next::Stays(Stage::AfterValue);
    }
    if !Class::InLine.is_of(byte) {
        return Next::Over;
    }
    if byte == b'\\' {
        return Next::Stays(Stage::AfterBackslash);
    }
    Next::Stays(Stage::InValue)
}

/// What a byte does behind a backslash in a value.
#[tactic(auto, unfolding(crate::specs::Stages::past_backslash))]
fn after_backslash(byte: u8) -> Next
    ensures { result ≡ past_backslash byte }
{
    if byte == b'"' || byte == b'\\' {
        return Next::Stays(Stage::InValue);
    }
    while_of(Class::InLine, byte, Stage::InValue)
}

/// What a byte does to the piece that is being read.
#[tactic(auto, unfolding(crate::specs::Stages::next_stage))]
pub fn what_follows(stage: Stage, byte: u8) -> Next
    ensures { result ≡ next_stage stage byte }
{
    match stage {
        Stage::Start => wants(0xEF, byte, Stage::MarkBegun),
        Stage::MarkBegun => wants(0xBB, byte, Stage::MarkGrown),
        Stage::MarkGrown => wants(0xBF, byte, Stage::Marked),
        Stage::RestOfLine => while_of(Class::InLine, byte, Stage::RestOfLine),
        Stage::InComment => {
            if PgnClass::NotBrace.is_of(byte) {
                return Next::Stays(Stage::InComment);
            }
            Next::Stays(Stage::Between)
        }
        Stage::AfterDollar => while_of(Class::Digit, byte, Stage::InNumber),
        Stage::InNumber => while_of(Class::Digit, byte, Stage::InNumber),
        Stage::InWord => while_of(PgnClass::WordByte, byte, Stage::InWord),
        Stage::InTag => {
            if Class::Blank.is_of(byte) {
                return Next::Stays(Stage::InTag);
            }
            if PgnClass::NameByte.is_of(byte) {
                return Next::Stays(Stage::InName);
            }
            spoilt_by(byte)
        }
        Stage::InName => {
            if PgnClass::NameByte.is_of(byte) {
                return Next::Stays(Stage::InName);
            }
            past_part(byte, Stage::AfterName, b'"', Stage::InValue)
        }
        Stage::AfterName => past_part(byte, Stage::AfterName, b'"', Stage::InValue),
        Stage::InValue => within_value(byte),
        Stage::AfterBackslash => after_backslash(byte),
        Stage::AfterValue => past_part(byte, Stage::AfterValue, b']', Stage::TagRead),
        Stage::Spoilt => while_of(Class::InLine, byte, Stage::Spoilt),
        _ => Next::Over,
    }
}
