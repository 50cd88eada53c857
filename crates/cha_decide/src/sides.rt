//! The verdict on one side of a position.

ghost use Rattle.std.specs.Prelude.{[], ◌∷◌, IfOk};
ghost use Rattle.cha_fact.specs.Keys.{key_of};
ghost use Rattle.cha_fact.specs.Entries.{probe_entry};
ghost use Rattle.cha_decide.specs.Shown.{IsFound, AskedFor};

use crate::searching::deepened;
use crate::unaided::quick;
use cha_board::{Color, Position};
use cha_fact::{Facts, Key, Probe};
use cha_limits::Limits;
use cha_list::NoMemory;
use cha_verdict::Verdict;
use root_workers::Crew;
use std::alloc::Global;

/// Asks a place of facts for a position and a side.
fn ask<F: Facts>(position: &Position, winner: Color, facts: &mut F) -> Probe
    requires ready { F.ready facts.old }
    ensures stays_ready { F.ready facts.new }
    ensures entered { F.made facts.old (probe_entry (key_of position.now winner) result ∷ []) facts.new }
{
    facts.probe(&Key::of(position, winner))
}

/// The verdict on a side: what is found without a crew, and else by the searches of a crew.
///
/// The place of facts of the first worker is asked for the position. What it knows serves the searches of the crew alone, so that
/// what is found without them depends on nothing but the position.
pub fn examine<C: Crew>(
    alloc: Global,
    position: &Position,
    winner: Color,
    limits: &Limits,
    crew: &mut C,
) -> Result<Verdict, NoMemory>
    requires ready { C.ready crew.old }
    ensures stays_ready { C.ready crew.new }
    ensures found { IfOk result (IsFound position.now winner limits.now) }
    ensures calls { AskedFor C.made crew.old crew.new position.now winner result }
{
    let _known = ask(position, winner, crew);
    match quick(alloc, position, winner, limits.budget())? {
        Some(verdict) => Ok(verdict),
        None => deepened(alloc, position, winner, limits, crew),
    }
}
