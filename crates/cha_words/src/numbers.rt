//! Numbers of the command words.

ghost use Rattle.std.specs.Prelude.{◌≡◌};
ghost use Rattle.cha_words.specs.Language.{number as number_of};

/// How many digits a number has at most.
const MOST_DIGITS: usize = 20;

/// The number that 1 to 20 ASCII digits write, leading zeros among them, or None where the word is no such number or the
/// number lies outside its range.
pub fn number(word: &str, least: u64, most: u64) -> Option<u64>
    ensures { result ≡ number_of least most word.now }
{
    if word.len() > MOST_DIGITS {
        return None;
    }
    if word.starts_with('+') {
        return None;
    }
    match word.parse::<u64>() {
        Ok(value) => {
            if value < least {
                return None;
            }
            if most < value {
                return None;
            }
            Some(value)
        }
        Err(_) => None,
    }
}
