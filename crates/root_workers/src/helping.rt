//! Help for workers that are not done with their root moves.

ghost use Rattle.std.specs.Prelude.{◌≡◌, ◌<◌, ◌≤◌};
ghost use Rattle.cha_moves.specs.Moves.{legal as legal_moves};
ghost use Rattle.root_workers.specs.Helps.{MakesCalls};

use crate::nowhere::Nowhere;
use crate::open_moves::OpenMoves;
use crate::task::RoundTask;
use cha_board::{Color, Position};
use cha_fact::{Facts, Key, Probe, Proved};
use cha_moves::{Move, after, legal};
use helpmate::{RoundAnswer, decided, round};
use std::alloc::Global;

/// The most plies that a helper searches without a look at whether its help is still wanted, and without a call at its place but
/// for what comes out: with four workers at one table that took less time, or as much (measured).
const AT_ONCE: u8 = 3;

/// A worker that is done with its own root moves, and helps with those of others.
///
/// It searches what these have still before them, and gives what comes out to the same table: there they find it, and need not
/// expand it. What it finds out answers nothing by itself.
#[derive(Drop)]
pub(crate) struct Helper<'a> {
    alloc: Global,
    task: &'a RoundTask,
    open: &'a OpenMoves,
    /// How many open positions it leaves to others: those before it are searched by whom it helps, and by other helpers.
    ahead: usize,
}

/// Whether a fact decides a position for so many plies.
fn is_known<F: Facts>(position: &Position, winner: Color, depth: u8, facts: &mut F) -> bool
    requires ready { F.ready facts.old }
    ensures stays_ready { F.ready facts.new }
    ensures calls { MakesCalls F.made facts.old facts.new }
{
    match facts.probe(&Key::of(position, winner)) {
        Probe::Found(row) => decided(position, winner, &row, depth).is_some(),
        Probe::Miss => false,
        Probe::Refused => false,
    }
}

impl<'a> Helper<'a> {
    /// The worker with a number among `count` workers.
    pub(crate) fn new(
        alloc: Global,
        task: &'a RoundTask,
        open: &'a OpenMoves,
        number: u32,
        count: u32,
    ) -> Helper<'a>
        ensures task { result.task.now ≡ task.now }
    {
        let ahead = if number == 0 { count } else { number };
        Helper {
            alloc,
            task,
            open,
            ahead: ahead as usize,
        }
    }

    /// Whether nobody waits any longer for the root move below which it searches.
    fn is_over(&self, root_move: Option<usize>) -> bool {
        match root_move {
            Some(index) => !self.open.is_open(index),
            None => false,
        }
    }

    /// The position after one of the moves, and the number of the move, which is still to be searched: it leaves as many before
    /// it to others as it can. `root_move` is the root move below which the position stands, if it is not the root. The moves
    /// before `from` are known or closed, and are not asked for again. It moves `from` on over those behind them that are so too,
    /// up to the first that is open.
    fn next_open<F: Facts>(
        &self,
        position: &Position,
        moves: &[Move],
        depth: u8,
        root_move: Option<usize>,
        from: &mut usize,
        facts: &mut F,
    ) -> Option<(usize, Position)>
        requires ready { F.ready facts.old }
        requires listed { moves.now ≡ legal_moves position.now }
        requires some { 0 < depth }
        ensures stays_ready { F.ready facts.new }
        ensures calls { MakesCalls F.made facts.old facts.new }
    {
        let mut found = None;
        let mut before: usize = 0;
        for index in *from..moves.len() {
            if root_move.is_some() || self.open.is_open(index) {
                let next = after(position, moves[index]);
                if !is_known(&next, self.task.winner, depth - 1, facts) {
                    found = Some((index, next));
                    if before == self.ahead {
                        return found;
                    }
                    before += 1;
                }
            }
            if before == 0 {
                *from = index + 1;
            }
        }
        found
    }

    /// Searches a position without a call at the place, and gives what comes out to keep. What is left of the allowance is
    /// answered, or nothing where the help is to end: a mate was met, all is spent, or memory was refused.
    fn search_alone<F: Facts>(
        &self,
        position: &Position,
        depth: u8,
        left: u32,
        facts: &mut F,
    ) -> u32
        requires ready { F.ready facts.old }
        requires few { depth ≤ 8 }
        ensures stays_ready { F.ready facts.new }
        ensures calls { MakesCalls F.made facts.old facts.new }
        ensures less { result ≤ left }
    {
        let winner = self.task.winner;
        let Ok(done) = round(
            self.alloc,
            position,
            winner,
            depth,
            Some(left),
            &mut Nowhere,
        ) else {
            return 0;
        };
        match done.round {
            RoundAnswer::NoneWithin => {
                let _stored = facts.store(Proved::none(position, winner, depth));
                left - done.positions
            }
            RoundAnswer::Mate(_) => 0,
            RoundAnswer::Spent => 0,
        }
    }

    /// Searches a position with the place in one go, and answers as `search_alone` does.
    fn at_once<F: Facts>(&self, position: &Position, depth: u8, left: u32, facts: &mut F) -> u32
        requires ready { F.ready facts.old }
        requires few { depth ≤ 8 }
        ensures stays_ready { F.ready facts.new }
        ensures calls { MakesCalls F.made facts.old facts.new }
        ensures less { result ≤ left }
    {
        let winner = self.task.winner;
        let Ok(done) = round(self.alloc, position, winner, depth, Some(left), facts) else {
            return 0;
        };
        match done.round {
            RoundAnswer::NoneWithin => left - done.positions,
            RoundAnswer::Mate(_) => 0,
            RoundAnswer::Spent => 0,
        }
    }

    /// Searches below a position what others have not searched yet, and answers what is left of the allowance.
    #[cycle(helping)]
    fn help_below<F: Facts>(
        &self,
        position: &Position,
        depth: u8,
        root_move: Option<usize>,
        left: u32,
        facts: &mut F,
    ) -> u32
        requires ready { F.ready facts.old }
        requires few { depth ≤ 8 }
        ensures stays_ready { F.ready facts.new }
        ensures calls { MakesCalls F.made facts.old facts.new }
        ensures less { result ≤ left }
    {
        if depth <= AT_ONCE {
            return self.search_alone(position, depth, left, facts);
        }
        let Ok(moves) = legal(self.alloc, position) else {
            return 0;
        };
        let mut left = left;
        let mut from: usize = 0;
        for _ in 0..moves.len() {
            if left == 0 || self.is_over(root_move) {
                return left;
            }
            let Some((index, next)) = self.next_open(
                position, &moves, depth, root_move, &mut from, facts,
            ) else {
                break;
            };
            let below = Some(root_move.unwrap_or(index));
            left = self.help_below(&next, depth - 1, below, left, facts);
        }
        match root_move {
            Some(_) => self.at_once(position, depth, left, facts),
            None => left,
        }
    }

    /// Helps with the root moves that are open, until none is or what is left of an allowance is spent. Without one it does
    /// nothing.
    pub(crate) fn help<F: Facts>(&self, left: Option<u32>, facts: &mut F)
        requires ready { F.ready facts.old }
        requires few { self.now.task.now.depth ≤ 8 }
        ensures stays_ready { F.ready facts.new }
        ensures calls { MakesCalls F.made facts.old facts.new }
    {
        if self.open.is_none() {
            return;
        }
        if let Some(left) = left {
            let _left = self.help_below(&self.task.position, self.task.depth, None, left, facts);
        }
    }
}
