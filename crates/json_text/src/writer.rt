//! A text in JSON that grows token by token.

ghost use Rattle.std.specs.Prelude.{◌≡◌, ◌<◌, ◌++◌, [], ◌∷◌, false, if◌then◌else◌, OnOk, decimal};
ghost use Rattle.std.specs.Char.{digit_char};
ghost use Rattle.json.specs.Token.{begin_object, end_object, begin_array, end_array, key as key_token, string as string_token, number as number_token, boolean as boolean_token, null as null_token};
ghost use Rattle.json_text.specs.Escapes.{AreBytes, is_plain, escaped, escaped_byte, quoted};
ghost use Rattle.json_text.specs.Texts.{IsPut};

use cha_list::{NoMemory, Text};
use std::alloc::Global;

/// A text in JSON that is written token by token, with a comma where one is due (RFC 8259). It holds the bytes 0x20 to 0x7E alone:
/// others, quotation marks and reverse solidi stand as `\u00XX` in a string, one for each byte. That brackets close and keys stand in
/// objects is the caller's part.
#[derive(Drop)]
pub struct JsonText {
    /// What is written.
    pub text: Text,
    /// Whether a value ended right before.
    pub after_value: bool,
}

/// The digit of a number below 16, as RFC 8259 allows it: `0` to `9`, `a` to `f`.
fn hexadecimal(digit: u8) -> u8
    requires { digit < 16 }
    ensures { result ≡ digit_char digit }
{
    if digit < 10 {
        b'0' + digit
    } else {
        b'a' + (digit - 10)
    }
}

/// Whether a byte stands for itself in a string.
fn is_plain_byte(byte: u8) -> bool
    ensures { result ≡ is_plain byte }
{
    (32..127).contains(&byte) && byte != b'"' && byte != b'\\'
}

/// Appends a byte as it stands in a string.
#[tactic(auto, unfolding(crate::specs::Escapes::escaped_byte))]
fn put_byte(byte: u8, text: &mut Text) -> Result<(), NoMemory>
    ensures { OnOk result (text.new ≡ text.old ++ escaped_byte byte) }
{
    if is_plain_byte(byte) {
        return text.append(&[byte]);
    }
    text.append(&[
        b'\\',
        b'u',
        b'0',
        b'0',
        hexadecimal(byte / 16),
        hexadecimal(byte % 16),
    ])
}

/// Appends bytes as they stand in a string.
fn put_bytes(bytes: &[u8], text: &mut Text) -> Result<(), NoMemory>
    ensures text { OnOk result (text.new ≡ text.old ++ escaped bytes.now) }
    ensures bytes { OnOk result (AreBytes bytes.now) }
{
    for byte in bytes {
        put_byte(*byte, text)?;
    }
    Ok(())
}

/// Appends a string between its quotation marks.
fn put_quoted(bytes: &[u8], text: &mut Text) -> Result<(), NoMemory>
    ensures text { OnOk result (text.new ≡ text.old ++ quoted bytes.now) }
    ensures bytes { OnOk result (AreBytes bytes.now) }
{
    text.append(b"\"")?;
    put_bytes(bytes, text)?;
    text.append(b"\"")
}

impl JsonText {
    /// The empty text. It takes no memory.
    pub fn new(alloc: Global) -> JsonText
        ensures text { result.text ≡ [] }
        ensures after { result.after_value ≡ false }
    {
        JsonText {
            text: Text::new(alloc),
            after_value: false,
        }
    }

    /// The comma before a token that begins a value or a member.
    fn separate(&mut self) -> Result<(), NoMemory>
        ensures text { OnOk result (self.new.text ≡ self.old.text ++ (if self.old.after_value then 44 ∷ [] else [])) }
        ensures after { OnOk result (self.new.after_value ≡ self.old.after_value) }
    {
        if self.after_value {
            return self.text.append(b",");
        }
        Ok(())
    }

    /// Opens an object.
    pub fn begin_object(&mut self) -> Result<(), NoMemory>
        ensures { OnOk result (IsPut self.old begin_object self.new) }
    {
        self.separate()?;
        self.after_value = false;
        self.text.append(b"{")
    }

    /// Closes an object.
    pub fn end_object(&mut self) -> Result<(), NoMemory>
        ensures { OnOk result (IsPut self.old end_object self.new) }
    {
        self.after_value = true;
        self.text.append(b"}")
    }

    /// Opens an array.
    pub fn begin_array(&mut self) -> Result<(), NoMemory>
        ensures { OnOk result (IsPut self.old begin_array self.new) }
    {
        self.separate()?;
        self.after_value = false;
        self.text.append(b"[")
    }

    /// Closes an array.
    pub fn end_array(&mut self) -> Result<(), NoMemory>
        ensures { OnOk result (IsPut self.old end_array self.new) }
    {
        self.after_value = true;
        self.text.append(b"]")
    }

    /// Writes the key of a member of an object.
    pub fn key(&mut self, name: &[u8]) -> Result<(), NoMemory>
        ensures { OnOk result (IsPut self.old (key_token name.now) self.new) }
    {
        self.separate()?;
        self.after_value = false;
        put_quoted(name, &mut self.text)?;
        self.text.append(b":")
    }

    /// Writes a string of these bytes.
    pub fn string(&mut self, bytes: &[u8]) -> Result<(), NoMemory>
        ensures { OnOk result (IsPut self.old (string_token bytes.now) self.new) }
    {
        self.separate()?;
        self.after_value = true;
        put_quoted(bytes, &mut self.text)
    }

    /// Writes a number in decimal digits.
    pub fn number(&mut self, alloc: Global, number: u64) -> Result<(), NoMemory>
        ensures { OnOk result (IsPut self.old (number_token (decimal number)) self.new) }
    {
        self.separate()?;
        self.after_value = true;
        self.text.append_decimal(alloc, number)?;
        Ok(())
    }

    /// Writes `true` or `false`.
    pub fn boolean(&mut self, value: bool) -> Result<(), NoMemory>
        ensures { OnOk result (IsPut self.old (boolean_token value) self.new) }
    {
        self.separate()?;
        self.after_value = true;
        if value {
            self.text.append(b"true")
        } else {
            self.text.append(b"false")
        }
    }

    /// Writes `null`.
    pub fn null(&mut self) -> Result<(), NoMemory>
        ensures { OnOk result (IsPut self.old null_token self.new) }
    {
        self.separate()?;
        self.after_value = true;
        self.text.append(b"null")
    }
}
