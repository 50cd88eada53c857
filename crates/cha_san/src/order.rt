//! The law of the order in which the parts of a move word stand.

ghost use Rattle.std.specs.Prelude.{◌≡◌, ◌↔◌, List, ℕ, Some};
ghost use Rattle.cha_san.specs.declared.forms.Parts.{Parts as WordParts};
ghost use Rattle.cha_san.specs.Forms.{parts};
ghost use Rattle.cha_san.specs.InOrder.{IsInOrder};

/// The law: a word is read from its end exactly where it is a letter, a file, a rank, an `x`, a square and a promotion, in
/// this order (PGN standard, 8.2.3.1 to 8.2.3.4), and then these are its parts. All but the square may be left out.
pub fn parts_stand_in_order()
    ensures { (word : List ℕ) (p : WordParts) → (parts word ≡ Some p) ↔ IsInOrder word p }
{}
