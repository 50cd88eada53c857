//! The fields of a text, between blanks.

ghost use Rattle.std.specs.Prelude.{◌≡◌, [], ◌∷◌, IfSome, IfNone};
ghost use Rattle.cha_fen.specs.Fields.{fields};

use cha_list::{Class, run_of};

/// The first field and what follows it, or None where all bytes are blanks.
pub fn next_field(bytes: &[u8]) -> Option<(&[u8], &[u8])>
    ensures some { IfSome result (λ found. fields bytes.now ≡ found.0.now ∷ fields found.1.now) }
    ensures none { IfNone result (fields bytes.now ≡ []) }
{
    let (_blanks, rest) = bytes.split_at(run_of(Class::Blank, bytes));
    if rest.is_empty() {
        return None;
    }
    Some(rest.split_at(run_of(Class::NotBlank, rest)))
}
