//! Material that mates nowhere.

use crate::army::Army;

/// Whether a lone knight stands against queens alone, or against a bare king.
fn is_knight_against_queens(own: &Army, other: &Army) -> bool {
    own.is_one_knight() && other.others().within(other.queens)
}

/// Whether bishops of one colour stand alone against rooks, queens and bishops of that colour alone.
fn are_bishops_against_their_color(own: &Army, other: &Army) -> bool {
    match own.bishops_color() {
        None => false,
        Some(color) => {
            let harmless = other.heavy().joined(other.bishops.common(color));
            other.others().within(harmless)
        }
    }
}

/// Whether a side that has minor pieces alone, or none, has nothing to mate with: a bare king, a lone knight against queens alone, or
/// bishops of one colour against rooks, queens and bishops of that colour alone.
pub fn is_hopeless(own: &Army, other: &Army) -> bool {
    own.others().is_empty()
        || is_knight_against_queens(own, other)
        || are_bishops_against_their_color(own, other)
}
