//! A text, line by line.

ghost use Rattle.std.specs.Prelude.{◌≤◌, drop, length, ◌≡◌, ◌+◌, ◌<◌, [], ◌∷◌, IfSome, IfNone, IfOk, true};
ghost use Rattle.cert_text.specs.TextLines.{lines_of, tail_of};
ghost use Rattle.cert_text.specs.Texts.{fixed_of, wanted};
ghost use Rattle.cert_text.specs.Agreeing.{Agrees, seen};

use crate::faults::{CertFault, CertKind};
use crate::rest::Left;
use cha_list::{Class, run_of};

/// The next line, without its line feed, and what is left behind it. None where no line feed follows.
pub fn next_line(bytes: &[u8], left: Left) -> Option<(&[u8], Left)>
    requires { left.at ≤ length bytes.now }
    ensures line { IfSome result (λ next. lines_of (drop left.at bytes.now) ≡ next.0.now ∷ lines_of (drop next.1.at bytes.now)) }
    ensures tail { IfSome result (λ next. tail_of (drop next.1.at bytes.now) ≡ tail_of (drop left.at bytes.now)) }
    ensures number { IfSome result (λ next. next.1.number ≡ left.number + 1) }
    ensures more { IfSome result (λ next. left.at < next.1.at) }
    ensures inside { IfSome result (λ next. next.1.at ≤ length bytes.now) }
    ensures no_line { IfNone result (lines_of (drop left.at bytes.now) ≡ []) }
    ensures all_tail { IfNone result (tail_of (drop left.at bytes.now) ≡ drop left.at bytes.now) }
{
    let (_read, rest) = bytes.split_at(left.at);
    let end = run_of(Class::NotLineFeed, rest);
    if end == rest.len() {
        return None;
    }
    let (line, _feed) = rest.split_at(end);
    Some((
        line,
        Left {
            at: left.at + end + 1,
            number: left.number + 1,
        },
    ))
}

/// A line that is always the same.
#[tactic(auto, unfolding(crate::specs::Texts::wanted, crate::specs::Texts::fixed_of))]
pub fn fixed_line(bytes: &[u8], left: Left, text: &[u8], kind: CertKind) -> Result<Left, CertFault>
    requires { left.at ≤ length bytes.now }
    ensures said { Agrees (seen bytes.now true) result (wanted (fixed_of text.now) kind left.number (lines_of (drop left.at bytes.now))) }
    ensures inside { IfOk result (λ rest. rest.at ≤ length bytes.now) }
    ensures tail { IfOk result (λ rest. tail_of (drop rest.at bytes.now) ≡ tail_of (drop left.at bytes.now)) }
{
    match next_line(bytes, left) {
        Some((line, rest)) => {
            if line == text {
                Ok(rest)
            } else {
                Err(misfit(left.number, kind))
            }
        }
        None => Err(misfit(left.number, kind)),
    }
}

/// The fault of a line that does not fit.
pub fn misfit(line: u64, kind: CertKind) -> CertFault
    ensures { result ≡ record { line = line; kind = kind } }
{
    CertFault { line, kind }
}
