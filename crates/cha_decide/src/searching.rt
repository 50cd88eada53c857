//! The searches of a crew for a mate, one after the other, of which each is tried where those before it decided nothing.

ghost use Rattle.std.specs.Prelude.{◌≡◌, ◌≤◌, ◌⊎◌, IfOk, IfSome};
ghost use Rattle.cha_board.specs.Men.{other_color};
ghost use Rattle.cha_moves.specs.Ends.{IsMated, IsMatingLine, HasNoMateWithin};
ghost use Rattle.cha_moves.specs.Lines.{HasLines};
ghost use Rattle.cha_cert.specs.AtOnce.{IsShownAtOnce};
ghost use Rattle.cha_verdict.specs.Sound.{IsUndecided};
ghost use Rattle.cha_fact.specs.Entries.{MadeSome};
ghost use Rattle.forced_graph.specs.Outcomes.{HasExpanded};
ghost use Rattle.cha_decide.specs.Shown.{IsFound};

use crate::showing::checked;
use cha_board::{Color, Position};
use cha_fact::{Facts, Line, Proved};
use cha_limits::Limits;
use cha_list::NoMemory;
use cha_moves::Moves;
use cha_verdict::Verdict;
use forced_graph::{Explored, explore};
use helpmate::{RoundAnswer, round};
use mate_hunt::{Width, hunt};
use root_workers::{Crew, Nowhere, RoundsEnd, rounds};
use search_guide::Guide;
use std::alloc::Global;

/// The moves of a line, as a verdict has them.
fn moves_of(alloc: Global, line: &Line) -> Result<Moves, NoMemory>
    ensures { IfOk result (λ moves. moves ≡ line.now) }
{
    let mut moves = Vec::new(alloc);
    match moves.extend_from_slice(line.moves()) {
        Ok(()) => Ok(Moves::from_vec(moves)),
        Err(_) => Err(NoMemory),
    }
}

/// The last hunts, in their order: their guides, and which moves they follow.
const LAST_HUNTS: [(Guide, Width); 4] = [
    (Guide::Flights, Width::All),
    (Guide::Balance, Width::Broad),
    (Guide::Balance, Width::All),
    (Guide::Balance, Width::Telling),
];

/// The verdict on a side whose budget was spent: the last hunts may yet find a mate.
fn hunted_last(
    alloc: Global,
    position: &Position,
    winner: Color,
    limits: &Limits,
    positions: u32,
    depth: u8,
) -> Result<Verdict, NoMemory>
    requires undecided { IsUndecided position.now winner limits.now positions depth }
    requires expanded { HasExpanded position.now winner positions }
    ensures found { IfOk result (IsFound position.now winner limits.now) }
{
    for (by, width) in LAST_HUNTS {
        if let Some(moves) = hunt(alloc, position, winner, limits.budget(), by, width)? {
            return Ok(Verdict::Winnable(moves));
        }
    }
    Ok(Verdict::Undecided { positions, depth })
}

/// The verdict of the exploration of a position on a side that has no mate within so many plies.
#[tactic(auto, using(crate::proofs::Leaves::no_sets))]
fn explored<F: Facts>(
    alloc: Global,
    position: &Position,
    winner: Color,
    limits: &Limits,
    depth: u8,
    facts: &mut F,
) -> Result<Verdict, NoMemory>
    requires ready { F.ready facts.old }
    requires unmated { IsMated position.now (other_color winner) → ⊥ }
    requires unshown { IsShownAtOnce position.now winner → ⊥ }
    requires none { HasNoMateWithin position.now winner depth }
    requires deep { 2 ≤ depth }
    requires searched { (depth ≡ limits.now.depth) ⊎ HasLines position.now depth limits.now.budget }
    ensures stays_ready { F.ready facts.new }
    ensures found { IfOk result (IsFound position.now winner limits.now) }
    ensures calls { MadeSome F.made facts.old facts.new }
{
    match explore(alloc, position, winner, limits.budget(), facts)? {
        Explored::Mate(moves) => Ok(Verdict::Winnable(moves)),
        Explored::Closed(cert) => Ok(Verdict::Unwinnable(checked(alloc, position, winner, cert)?)),
        Explored::Spent { count } => hunted_last(alloc, position, winner, limits, count, depth),
    }
}

/// The verdict of the rounds, and of the exploration where they find no mate.
fn deepened_further<C: Crew>(
    alloc: Global,
    position: &Position,
    winner: Color,
    limits: &Limits,
    crew: &mut C,
) -> Result<Verdict, NoMemory>
    requires ready { C.ready crew.old }
    requires unmated { IsMated position.now (other_color winner) → ⊥ }
    requires unshown { IsShownAtOnce position.now winner → ⊥ }
    ensures stays_ready { C.ready crew.new }
    ensures found { IfOk result (IsFound position.now winner limits.now) }
    ensures calls { MadeSome C.made crew.old crew.new }
{
    match rounds(alloc, position, winner, limits, crew)? {
        RoundsEnd::Mate(line) => Ok(Verdict::Winnable(moves_of(alloc, &line)?)),
        RoundsEnd::NoneWithin(depth) => explored(alloc, position, winner, limits, depth, crew),
    }
}

/// A mate within two plies. That there is none is given to a place to keep, which is asked for no position on the way.
fn mate_in_two<F: Facts>(
    alloc: Global,
    position: &Position,
    winner: Color,
    facts: &mut F,
) -> Result<Option<Line>, NoMemory>
    requires ready { F.ready facts.old }
    ensures stays_ready { F.ready facts.new }
    ensures found { IfOk result (λ found. IfSome found (λ line. IsMatingLine position.now winner line)) }
    ensures calls { MadeSome F.made facts.old facts.new }
{
    match round(alloc, position, winner, 2, None, &mut Nowhere)?.round {
        RoundAnswer::Mate(line) => Ok(Some(line)),
        RoundAnswer::NoneWithin => {
            let _stored = facts.store(Proved::none(position, winner, 2));
            Ok(None)
        }
        RoundAnswer::Spent => Ok(None),
    }
}

/// The verdict of the searches of a crew on a side that has not mated, and that is not shown unable to mate without a search: two
/// plies, the rounds of the limits, and the exploration.
pub fn deepened<C: Crew>(
    alloc: Global,
    position: &Position,
    winner: Color,
    limits: &Limits,
    crew: &mut C,
) -> Result<Verdict, NoMemory>
    requires ready { C.ready crew.old }
    requires unmated { IsMated position.now (other_color winner) → ⊥ }
    requires unshown { IsShownAtOnce position.now winner → ⊥ }
    ensures stays_ready { C.ready crew.new }
    ensures found { IfOk result (IsFound position.now winner limits.now) }
    ensures calls { MadeSome C.made crew.old crew.new }
{
    match mate_in_two(alloc, position, winner, crew)? {
        Some(line) => Ok(Verdict::Winnable(moves_of(alloc, &line)?)),
        None => deepened_further(alloc, position, winner, limits, crew),
    }
}
