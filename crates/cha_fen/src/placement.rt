//! The men of the first field (PGN standard, 16.1.3.1).

ghost use Rattle.std.specs.Prelude.{◌≡◌, ◌+◌, ◌*◌, ◌≤◌, ◌++◌, Option, None, length, replicate};
ghost use Rattle.std.specs.Bool.{OnTrue};
ghost use Rattle.cha_board.specs.declared.men.Man.{Man};
ghost use Rattle.cha_fen.specs.Placement.{in_row, squares_of, if_size, row_squares, rows, men_of_rows, placement_of};
ghost use Rattle.cha_fen.specs.Adding.{Adds, if_room};

use arrayvec::ArrayVec;
use cha_board::Man;
use cha_list::{ByteClass, run_of};

/// Any byte but a slash: a row is a run of these.
#[derive(Clone, Copy)]
struct InRow;

impl ByteClass for InRow {
    ghost has = { λ _. in_row };

    fn is_of(self, byte: u8) -> bool {
        byte != b'/'
    }
}

/// Adds empty squares.
fn add_empty(count: u8, men: &mut ArrayVec<Option<Man>, 64>)
    requires { length men.old.items + count ≤ 64 }
    ensures { men.new.items ≡ men.old.items ++ replicate count None }
{
    for _added in 0..count {
        men.push(None);
    }
}

/// Adds the squares of one byte of a row, if there is room for them.
#[tactic(auto, unfolding(crate::specs::Placement::squares_of))]
fn add_squares(byte: u8, room: usize, men: &mut ArrayVec<Option<Man>, 64>) -> bool
    requires { length men.old.items + room ≤ 64 }
    ensures added { Adds result men.old.items men.new.items (if_room room (squares_of byte)) }
    ensures size { OnTrue result (length men.new.items ≤ length men.old.items + room) }
    ensures grown { length men.old.items ≤ length men.new.items }
{
    if b'1' <= byte && byte <= b'8' {
        let count = byte - b'0';
        if usize::from(count) > room {
            return false;
        }
        add_empty(count, men);
        return true;
    }
    match Man::of_letter(byte) {
        None => false,
        Some(man) => {
            if room == 0 {
                return false;
            }
            men.push(Some(man));
            true
        }
    }
}

/// Adds the eight squares of a row.
fn add_row(bytes: &[u8], men: &mut ArrayVec<Option<Man>, 64>) -> bool
    requires { length men.old.items + 8 ≤ 64 }
    ensures added { Adds result men.old.items men.new.items (if_size 8 (row_squares bytes.now)) }
    ensures eight { OnTrue result (length men.new.items ≡ length men.old.items + 8) }
{
    let end = men.len() + 8;
    for byte in bytes {
        if !add_squares(*byte, end - men.len(), men) {
            return false;
        }
    }
    men.len() == end
}

/// Adds the squares of so many rows, those of the last row first.
#[tactic(auto, unfolding(crate::specs::Placement::men_of_rows))]
fn add_rows(count: u8, bytes: &[u8], men: &mut ArrayVec<Option<Man>, 64>) -> bool
    requires { length men.old.items + 8 * count ≤ 64 }
    ensures added { Adds result men.old.items men.new.items (men_of_rows count (rows bytes.now)) }
    ensures size { OnTrue result (length men.new.items ≡ length men.old.items + 8 * count) }
{
    if count == 0 {
        return false;
    }
    let end = run_of(InRow, bytes);
    if end == bytes.len() {
        if count == 1 {
            return add_row(bytes, men);
        }
        return false;
    }
    if !add_rows(count - 1, &bytes[end + 1..], men) {
        return false;
    }
    add_row(&bytes[..end], men)
}

/// The men of the first field, from a1 to h8.
pub fn men_placed(field: &[u8]) -> Option<[Option<Man>; 64]>
    ensures { result ≡ placement_of field.now }
{
    let mut men: ArrayVec<Option<Man>, 64> = ArrayVec::new();
    if !add_rows(8, field, &mut men) {
        return None;
    }
    let mut placed = [None; 64];
    placed.copy_from_slice(men.as_slice());
    Some(placed)
}
