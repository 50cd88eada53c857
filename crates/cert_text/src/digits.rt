//! Numbers as digits.

ghost use Rattle.std.specs.Prelude.{◌≡◌, ◌<◌, ◌≤◌, ◌++◌, length, OnOk};
ghost use Rattle.cert_text.specs.Digits.{hex_digit, hex_digits, digit_value, value_of};

use cha_list::{NoMemory, Text};

/// Appends so many of the lowest hexadecimal digits of a number.
#[tactic(auto, unfolding(crate::specs::Digits::hex_digits))]
pub fn put_hex(places: u8, number: u64, text: &mut Text) -> Result<(), NoMemory>
    ensures { OnOk result (text.new ≡ text.old ++ hex_digits places number) }
{
    if places == 0 {
        return Ok(());
    }
    put_hex(places - 1, number / 16, text)?;
    text.push(digit((number % 16) as u8))?;
    Ok(())
}

/// The digit of a number below 16.
fn digit(number: u8) -> u8
    requires { number < 16 }
    ensures { result ≡ hex_digit number }
{
    if number < 10 {
        number + b'0'
    } else {
        number + (b'a' - 10)
    }
}

/// What a digit stands for.
fn value(digit: u8) -> u64
    ensures value { result ≡ digit_value digit }
    ensures bound { result < 16 }
{
    if digit < b'a' {
        u64::from(digit % 16)
    } else {
        (u64::from(digit) + 9) % 16
    }
}

/// The value of up to 16 digits in a base up to 16. It does not check that the bytes are digits.
#[tactic(auto, unfolding(crate::specs::Digits::value_of))]
pub fn number(base: u64, digits: &[u8]) -> u64
    requires base { base ≤ 16 }
    requires few { length digits.now ≤ 16 }
    ensures { result ≡ value_of base digits.now }
{
    let mut number = 0;
    for digit in digits {
        number = number * base + value(*digit);
    }
    number
}
