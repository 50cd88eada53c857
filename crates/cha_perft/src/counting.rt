//! Counts of lines of legal moves, of which the last are counted and not made.

ghost use Rattle.std.specs.Prelude.{◌≡◌, ◌≤◌, ◌^◌, Err, IfOk};
ghost use Rattle.cha_perft.specs.Counts.{lines_from};

use cha_board::Position;
use cha_moves::{after, count_legal, legal};
use std::alloc::Global;

/// Why lines were not counted.
#[derive(Clone, Copy, Debug, PartialEq, Eq)]
pub enum CountFault {
    /// The allocator refused memory.
    NoMemory,
    /// The count passes 64 bits.
    TooMany,
}

/// How many lines of `depth` legal moves begin in a position. The last moves are counted and not made.
#[tactic(auto, using(crate::proofs::Sums::one_line, crate::proofs::Sums::last_lines, crate::proofs::Sums::no_lines, crate::proofs::Sums::all_lines))]
pub fn count_lines(alloc: Global, position: &Position, depth: u8) -> Result<u64, CountFault>
    ensures count { IfOk result (λ count. count ≡ lines_from depth position.now) }
    ensures too_many { result ≡ Err CountFault.TooMany → 2 ^ 64 ≤ lines_from depth position.now }
{
    if depth == 0 {
        return Ok(1);
    }
    if depth == 1 {
        return Ok(count_legal(position));
    }
    let Ok(moves) = legal(alloc, position) else {
        return Err(CountFault::NoMemory);
    };
    let mut total: u64 = 0;
    for m in &moves {
        let next = after(position, *m);
        let lines = match count_lines(alloc, &next, depth - 1) {
            Ok(lines) => lines,
            Err(fault) => return Err(fault),
        };
        let Some(sum) = total.checked_add(lines) else {
            return Err(CountFault::TooMany);
        };
        total = sum;
    }
    Ok(total)
}
