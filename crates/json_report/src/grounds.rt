//! What a certificate rests on.

ghost use Rattle.std.specs.Prelude.{◌≡◌, OnOk};
ghost use Rattle.json.specs.Json.{Members};
ghost use Rattle.json_report.specs.Spelled.{Leads};
ghost use Rattle.json_report.specs.Verdicts.{ground_by, ground_of as ground_from, ground_members};

use crate::members::{put_count, put_text};
use cha_cert::{Node, Part};
use cha_list::NoMemory;
use json_text::JsonText;
use mob_small::Reason;
use std::alloc::Global;

/// What a certificate rests on.
#[derive(Clone, Copy, Debug, PartialEq, Eq)]
pub enum Ground {
    /// Closed mobility sets of the position itself.
    Sets,
    /// The men on the board alone.
    Men(Reason),
    /// Several positions that lead to each other.
    Graph,
}

/// What a certificate of one node rests on.
fn ground_alone(part: &Part) -> Ground
    ensures { result ≡ ground_by part.now }
{
    match part {
        Part::Inner => Ground::Graph,
        Part::Leaf(_) => Ground::Sets,
        Part::Men(reason) => Ground::Men(*reason),
    }
}

/// What a certificate rests on: of one node that is a leaf, on that leaf; of all else on the graph of its nodes.
pub fn ground_of(nodes: &[Node]) -> Ground
    ensures { result ≡ ground_from nodes.now }
{
    match nodes {
        [node] => ground_alone(&node.part),
        _ => Ground::Graph,
    }
}

/// Writes the members with the name of what a certificate rests on, and of a graph how many nodes it has.
#[tactic(auto, unfolding(crate::specs::Verdicts::ground_members))]
pub fn put_ground(
    alloc: Global,
    ground: Ground,
    nodes: usize,
    json: &mut JsonText,
) -> Result<(), NoMemory>
    ensures { OnOk result ((more : Members) → Leads json.old (ground_members ground nodes more) json.new more) }
{
    match ground {
        Ground::Sets => {
            put_text(b"by", b"sets", json)?;
            Ok(())
        }
        Ground::Men(reason) => {
            put_text(b"by", reason.name(), json)?;
            Ok(())
        }
        Ground::Graph => {
            put_text(b"by", b"graph", json)?;
            put_count(alloc, b"nodes", nodes as u64, json)?;
            Ok(())
        }
    }
}
