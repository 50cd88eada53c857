//! The move that a word names.

ghost use Rattle.std.specs.Prelude.{◌≡◌, ◌≤◌, ◌↔◌, [], ◌∷◌, Err, None, Some, filter, length, IfOk, Contains};
ghost use Rattle.cha_moves.specs.Moves.{moves_between, all_moves};
ghost use Rattle.cha_moves.specs.Moves.{legal as legal_moves};
ghost use Rattle.cha_san.specs.declared.faults.SanFault.TheVariants.{NotSan, NoSuchMove, Ambiguous};
ghost use Rattle.cha_san.specs.Forms.{form_of};
ghost use Rattle.cha_san.specs.Resolving.{fitting, resolved};
ghost use Rattle.cha_san.specs.Seen.{seen};
ghost use Rattle.cha_san.specs.Sources.{names};

use crate::faults::SanFault;
use crate::fitting::fits;
use crate::forms::Form;
use crate::found::Found;
use crate::reading::form;
use crate::sources::{sources, target};
use cha_board::{Kind, Position, Square};
use cha_moves::{Move, is_legal, promotion_rank};

/// What is found once a move was looked at.
fn with_move(
    position: &Position,
    form: &Form,
    found: Found,
    from: Square,
    to: Square,
    promotion: Option<Kind>,
) -> Found
    ensures { result ≡ seen found (filter (names position.now form.now) (record { from = from; to = to; promotion = promotion } ∷ [])) }
{
    let m = Move {
        from,
        to,
        promotion,
    };
    let m = &m;
    m.known();
    if fits(position, form, m) && is_legal(position, *m) {
        found.and(m)
    } else {
        found
    }
}

/// What is found once the moves from one square to another were looked at.
fn with_moves(position: &Position, form: &Form, found: Found, from: Square, to: Square) -> Found
    ensures { result ≡ seen found (filter (names position.now form.now) (moves_between from to)) }
{
    let plain = with_move(position, form, found, from, to, None);
    if to.rank() != promotion_rank(position.side()) {
        return plain;
    }
    let queen = with_move(position, form, plain, from, to, Some(Kind::Queen));
    let rook = with_move(position, form, queen, from, to, Some(Kind::Rook));
    let bishop = with_move(position, form, rook, from, to, Some(Kind::Bishop));
    with_move(position, form, bishop, from, to, Some(Kind::Knight))
}

/// What is found of the legal moves that fit what a word says. Only men that may come to the target of the word are looked at.
pub fn found_for(position: &Position, form: &Form) -> Found
    ensures { result ≡ seen Found.Nothing (filter (names position.now form.now) all_moves) }
{
    let to = target(position, form);
    let _to = to.index();
    let mut found = Found::Nothing;
    for from in sources(position, form) {
        found = with_moves(position, form, found, from, to);
    }
    found
}

/// The one legal move that fits a word of SAN (PGN standard, 8.2.3).
///
/// Signs `+ # ! ?` at the end of the word and the `x` of a capture are not checked. `O-O` and `0-0` are castling on the king's
/// side, `O-O-O` and `0-0-0` on the queen's; nothing else is castling. `P` may stand in front of a pawn's move. A word that
/// names no promotion leaves it open, so that `e8` fits four moves.
///
/// `NotSan` is a word that is not of the form, `NoSuchMove` one that no legal move fits, and `Ambiguous` one that two or more
/// fit. It takes no memory, so it never answers `NoMemory`.
///
/// At the opening position `Nf3` and `Ng1f3+!` are the move from g1 to f3, `Nd2` is no such move, and `knight` is not SAN.
pub fn resolve(position: &Position, word: &[u8]) -> Result<Move, SanFault>
    ensures value { result ≡ resolved position.now word.now }
    ensures not_san { (result ≡ Err NotSan) ↔ (form_of word.now ≡ None) }
    ensures no_such_move { result ≡ Err NoSuchMove → fitting position.now word.now ≡ [] }
    ensures ambiguous { result ≡ Err Ambiguous → 2 ≤ length (fitting position.now word.now) }
    ensures one { IfOk result (λ m. fitting position.now word.now ≡ m ∷ []) }
    ensures legal { IfOk result (λ m. Contains (legal_moves position.now) m) }
{
    let Some(form) = form(word) else {
        return Err(SanFault::NotSan);
    };
    found_for(position, &form).only()
}
