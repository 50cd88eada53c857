//! A word read from its end, byte by byte.

ghost use Rattle.std.specs.Prelude.{◌≡◌};
ghost use Rattle.cha_san.specs.Backwards.{last, front, before as before_last, without as without_last};

/// The last byte.
#[tactic(auto, unfolding(crate::specs::Backwards::last))]
pub fn last_byte(word: &[u8]) -> Option<u8>
    ensures { result ≡ last word.now }
{
    word.last().copied()
}

/// All bytes but the last.
#[tactic(auto, unfolding(crate::specs::Backwards::front))]
pub fn all_but_last(word: &[u8]) -> &[u8]
    ensures { result.now ≡ front word.now }
{
    let (front, _last) = word.split_at(word.len().saturating_sub(1));
    front
}

/// The bytes in front of a last byte that has been read, if it has been.
#[tactic(auto, unfolding(crate::specs::Backwards::before))]
pub fn before(read: bool, word: &[u8]) -> &[u8]
    ensures { result.now ≡ before_last read word.now }
{
    if read { all_but_last(word) } else { word }
}

/// The bytes in front of a last byte of this value, if there is one.
#[tactic(auto, unfolding(crate::specs::Backwards::without))]
pub fn without(byte: u8, word: &[u8]) -> &[u8]
    ensures { result.now ≡ without_last byte word.now }
{
    match last_byte(word) {
        Some(last) => before(last == byte, word),
        None => before(false, word),
    }
}
