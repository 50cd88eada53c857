//! What a place that keeps facts knows of a position.

ghost use Rattle.std.specs.Prelude.{◌≡◌, List, IfSome};
ghost use Rattle.cha_moves.specs.Ends.{IsMatingLine};
ghost use Rattle.cha_fact.specs.Keys.{key_of};
ghost use Rattle.cha_fact.specs.Entries.{Entry};
ghost use Rattle.forced_graph.specs.Asking.{line_of_fact, IsAsked};

use cha_board::{Color, Position};
use cha_fact::{Fact, Facts, Key, Line, Probe, Proved};

/// The line that mates from a position, if a place knows one and is not refused memory for it. It is asked once, and its reply is
/// the answer.
pub fn known_mate<F: Facts>(position: &Position, winner: Color, facts: &mut F) -> Option<Line>
    requires ready { F.ready facts.old }
    ensures stays_ready { F.ready facts.new }
    ensures calls { (entries : List Entry) × F.made facts.old entries facts.new }
    ensures asked { IsAsked F.made facts.old facts.new position.now winner result }
    ensures mates { IfSome result (λ line. IsMatingLine position.now winner line) }
{
    match facts.probe(&Key::of(position, winner)) {
        Probe::Found(row) => mate_of(position, winner, &row),
        Probe::Miss => None,
        Probe::Refused => None,
    }
}

/// The line of a fact of a position and a side, if it is a mate.
fn mate_of(position: &Position, winner: Color, row: &Proved) -> Option<Line>
    requires { key_of row.now.position row.now.winner ≡ key_of position.now winner }
    ensures value { result ≡ line_of_fact row.now.fact }
    ensures mates { IfSome result (λ line. IsMatingLine position.now winner line) }
{
    // Keys tell valid positions.
    position.known();
    row.known();
    match row.fact() {
        Fact::Mate(line) => Some(Line::of(line.moves())),
        Fact::NoneWithin(_) => None,
    }
}
