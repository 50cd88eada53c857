//! The law that sets have one spelling.

ghost use Rattle.std.specs.Prelude.{◌≡◌, length};
ghost use Rattle.mob_sets.specs.Rows.{SetRows, sets_of};
ghost use Rattle.mob_sets.specs.Tidy.{AreTidy};

/// The law: sets in which the same squares are in reach and the same origins are loose have the same rows.
pub fn sets_tell_rows()
    ensures { (a b : SetRows) → AreTidy a.rows → AreTidy b.rows → length a.loose ≡ 64 → length b.loose ≡ 64 → sets_of a ≡ sets_of b → a ≡ b }
{}
