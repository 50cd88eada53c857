//! From piece to piece through a whole text.

ghost use Rattle.std.specs.Prelude.{◌≡◌, ◌+◌, ◌<◌, ◌≤◌, ◌++◌, OnOk, OnErr, IfOk, length};
ghost use Rattle.std.specs.Bool.{OnTrue};
ghost use Rattle.pgn_lex.specs.Tokens.{placed, has_mark, tokens};

use crate::kinds::{Extent, Placed, Token};
use crate::lines::behind;
use crate::piece_rules::piece_at;
use cha_list::{ByteClass, Class, NoMemory};
use std::alloc::Global;

/// Whether the bytes EF BB BF stand at the front.
#[tactic(auto, unfolding(crate::specs::Tokens::has_mark))]
fn marked(bytes: &[u8]) -> bool
    ensures value { result ≡ has_mark bytes.now }
    ensures bound { OnTrue result (3 ≤ length bytes.now) }
{
    match bytes {
        [first, second, third, ..] => *first == 0xEF && *second == 0xBB && *third == 0xBF,
        _ => false,
    }
}

/// Adds the token of a piece, if it has one.
// To hand a token on costs more than to add it.
#[inline(always)]
pub fn place(token: Option<Token>, at: Extent, out: &mut Vec<Placed>) -> Result<(), NoMemory>
    ensures ok { OnOk result (out.new.items ≡ out.old.items ++ placed at.start at.end at.line token) }
    ensures err { OnErr result (out.new.items ≡ out.old.items) }
{
    match token {
        None => Ok(()),
        Some(token) => {
            out.push(Placed {
                token,
                offset: at.start,
                end: at.end,
                line: at.line,
            })?;
            Ok(())
        }
    }
}

/// The tokens of a text of games, in order, whatever its bytes are (PGN standard, 5 to 8).
///
/// The bytes EF BB BF at the front are skipped. `1. e4 {best} e5!? *` gives the words `e4` at 3 and `e5!?` at 13, and
/// the star at 18. The only error is want of memory. The time grows as the length of the text.
#[tactic(auto, unfolding(crate::specs::Tokens::tokens))]
pub fn tokens_of(alloc: Global, bytes: &[u8]) -> Result<Vec<Placed>, NoMemory>
    ensures { IfOk result (λ out. out.items ≡ tokens bytes.now) }
{
    let mut out = Vec::new(alloc);
    let mut at = if marked(bytes) { 3 } else { 0 };
    let mut line = 1;
    let mut first = true;
    while at < bytes.len() {
        let (_, rest) = bytes.split_at(at + 1);
        let piece = piece_at(alloc, first, bytes[at], rest)?;
        let last = at + piece.more;
        first = !Class::InLine.is_of(bytes[last]);
        let extent = Extent {
            start: at as u64,
            end: last as u64 + 1,
            line,
        };
        place(piece.token, extent, &mut out)?;
        line = behind(line, &bytes[at..last + 1]);
        at = last + 1;
    }
    Ok(out)
}
