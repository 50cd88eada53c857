//! The least number of plies of a mate.

ghost use Rattle.std.specs.Prelude.{◌≡◌, ◌≢◌, ◌≤◌, ◌<◌, ◌↔◌, ℕ, Bool, List, [], take, length, nat_lt, IfOk, Contains};
ghost use Rattle.cha_board.specs.declared.men.Color.{Color as Side};
ghost use Rattle.cha_board.specs.Board.{Board};
ghost use Rattle.cha_moves.specs.Step.{Move as Step};
ghost use Rattle.cha_moves.specs.Ends.{IsMatingLine, HasNoMateWithin};
ghost use Rattle.cha_moves.specs.MateLines.{mate_lines};
ghost use Rattle.helpmate_list.specs.Shortest.{shortest, found_or, HasNoMateBelow};
ghost use Rattle.helpmate_list.specs.declared.answers.Shortest.{Shortest as Answer};
ghost use Rattle.helpmate_list.specs.declared.answers.Shortest.TheVariants.{NoneWithin, Found};

use crate::answers::{Lines, MOST_LINES, Shortest};
use crate::gather::root_lines;
use crate::parts::{MOST_KEPT, MateTask};
use crate::spread::Spread;
use cha_board::{Color, Position};
use cha_list::NoMemory;
use cha_moves::legal;
use std::alloc::Global;

/// The answer where these are the first lines, of which there is one.
fn found(plies: u8, kept: Lines) -> Shortest
    requires { kept ≢ [] }
    ensures { (all : List (List Step)) (later : Answer) → kept ≡ take MOST_KEPT all → result ≡ found_or plies all later }
{
    let more = MOST_LINES < kept.items().len();
    let mut lines = kept.into_vec();
    lines.truncate(MOST_LINES);
    Shortest::Found {
        plies,
        lines: Lines::from_vec(lines),
        more,
    }
}

/// The shortest mates of a side within `depth` plies, whose root moves this many workers share out.
///
/// Numbers of plies after which the winner is to move are passed over, since no mate has so many. `NoMemory` means that memory
/// ran out.
pub fn least_mates<S: Spread>(
    hands: &S,
    alloc: Global,
    position: &Position,
    winner: Color,
    depth: u8,
    workers: u32,
) -> Result<Shortest, NoMemory>
    requires ready { S.ready hands.now }
    requires few { depth ≤ 6 }
    requires a_worker { 1 ≤ workers }
    ensures { IfOk result (λ answer. answer ≡ shortest position.now winner depth) }
{
    let moves = legal(alloc, position)?;
    let mut mover = position.side();
    let mut plies = 0;
    while plies <= depth {
        if !mover.is(winner) {
            let task = MateTask {
                position: *position,
                winner,
                plies,
            };
            let lines = root_lines(hands, alloc, &task, &moves, workers as usize)?;
            if !lines.items().is_empty() {
                return Ok(found(plies, lines));
            }
        }
        mover = mover.other();
        plies += 1;
    }
    Ok(Shortest::NoneWithin)
}

/// The law of the shortest mates, in terms of lists of moves: there are none exactly where no list of at most so many legal
/// moves mates; and the lines that are found mate, in that least number of moves.
pub fn shortest_says()
    ensures none { (q : Board) (winner : Side) (d : ℕ) → (shortest q winner d ≡ NoneWithin) ↔ HasNoMateWithin q winner d }
    ensures least { (q : Board) (winner : Side) (d n : ℕ) (lines : List (List Step)) (more : Bool) → shortest q winner d ≡ Found n lines more → (n ≤ d) × HasNoMateBelow q winner n }
    ensures first { (q : Board) (winner : Side) (d n : ℕ) (lines : List (List Step)) (more : Bool) → shortest q winner d ≡ Found n lines more → (lines ≡ take MOST_LINES (mate_lines n q winner)) × (more ≡ nat_lt MOST_LINES (length (mate_lines n q winner))) }
    ensures mates { (q : Board) (winner : Side) (d n : ℕ) (lines : List (List Step)) (more : Bool) → shortest q winner d ≡ Found n lines more → (ms : List Step) → Contains lines ms → IsMatingLine q winner ms × (length ms ≡ n) }
{}
