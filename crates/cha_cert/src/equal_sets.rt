//! Whether mobility sets are equal.

ghost use Rattle.std.specs.Prelude.{◌≡◌, ◌↔◌, IsTrue};

use mob_sets::{SetRow, Sets};

/// Whether two sets are equal: the same squares are in reach, and the same origins are loose.
pub(crate) fn same_sets(one: &Sets, other: &Sets) -> bool
    ensures { IsTrue result ↔ (one.now ≡ other.now) }
{
    one.loose().bits() == other.loose().bits() && same_rows(one.rows(), other.rows())
}

/// Whether two lists of rows are equal.
fn same_rows(one: &[SetRow], other: &[SetRow]) -> bool
    ensures { IsTrue result ↔ (one.now ≡ other.now) }
{
    if one.len() != other.len() {
        return false;
    }
    for index in 0..one.len() {
        if !same_row(one[index], other[index]) {
            return false;
        }
    }
    true
}

/// Whether two rows are equal.
fn same_row(one: SetRow, other: SetRow) -> bool
    ensures { IsTrue result ↔ (one ≡ other) }
{
    one.origin.index() == other.origin.index()
        && one.kind.is(other.kind)
        && one.squares.bits() == other.squares.bits()
}
