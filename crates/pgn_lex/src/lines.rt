//! The lines of a text, which line feeds end.

ghost use Rattle.std.specs.Prelude.{◌≡◌, ◌+◌, ◌-◌, ◌^◌, ◌<◌, ◌≤◌, length};
ghost use Rattle.std.specs.List.{fold};
ghost use Rattle.pgn_lex.specs.Tokens.{line_after};

/// The line feeds that were read, with one byte more.
#[tactic(auto, unfolding(crate::specs::Tokens::line_after))]
pub fn feeds_with(feeds: u64, byte: u8) -> u64
    requires { feeds < 2 ^ 64 - 1 }
    ensures value { result + 1 ≡ line_after (feeds + 1) byte }
    ensures bound { result ≤ feeds + 1 }
{
    if byte == b'\n' {
        return feeds + 1;
    }
    feeds
}

/// The line behind a byte.
#[tactic(auto, unfolding(crate::specs::Tokens::line_after))]
fn next_line(line: u64, byte: u8) -> u64
    requires { line < 2 ^ 64 - 1 }
    ensures value { result ≡ line_after line byte }
    ensures bound { result ≤ line + 1 }
{
    if byte == b'\n' {
        return line + 1;
    }
    line
}

/// The line behind some bytes.
pub fn behind(line: u64, bytes: &[u8]) -> u64
    requires { line + length bytes.now < 2 ^ 64 }
    ensures value { result ≡ fold line_after line bytes.now }
    ensures bound { result ≤ line + length bytes.now }
{
    let mut now = line;
    for byte in bytes {
        now = next_line(now, *byte);
    }
    now
}
