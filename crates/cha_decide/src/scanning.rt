//! From where on a game was dead.

ghost use Rattle.std.specs.Prelude.{◌≡◌, ◌+◌, ◌<◌, ◌≤◌, length, IfOk, IfSome};
ghost use Rattle.cha_verdict.specs.Verdicts.{is_winnable as can_mate};
ghost use Rattle.cha_verdict.specs.Scans.{HasScan, IsPrintableScan};
ghost use Rattle.cha_fact.specs.Entries.{MadeSome};
ghost use Rattle.root_workers.specs.Worked.{HasWorked};
ghost use Rattle.cha_decide.specs.Scanning.{IsFoundAt, IsShownAt, IsOpenAt, IsReached, IsScanFound, edge_by, certs_by};

use crate::deciding::decide;
use cha_board::{Color, Position};
use cha_limits::Limits;
use cha_list::NoMemory;
use cha_verdict::{Decision, EarlierCerts, Edge, Scan, Verdict, are_dead, is_winnable};
use root_workers::Crew;
use std::alloc::Global;

/// What is found about a position before the last one.
#[derive(Drop)]
pub enum EarlierPly {
    /// It is dead, as these certificates show.
    Dead(EarlierCerts),
    /// It is not shown dead.
    Open(Edge),
}

/// A ply that is shown dead, by certificates unless it is the last one.
#[derive(Drop)]
pub struct DeadPly {
    pub ply: usize,
    pub certs: Option<EarlierCerts>,
}

/// A ply that is not shown dead.
#[derive(Clone, Copy, Debug, PartialEq, Eq)]
pub struct OpenPly {
    pub ply: usize,
    pub edge: Edge,
}

/// How far was gone back: to a dead ply, and to an open one before it, unless the dead one is the start.
#[derive(Drop)]
pub struct Reached {
    pub dead: DeadPly,
    pub before: Option<OpenPly>,
}

/// What stands before a dead ply, by the verdicts on a position that is not shown dead.
fn edge_of(white: &Verdict, black: &Verdict) -> Edge
    ensures { result ≡ edge_by (can_mate white.now) (can_mate black.now) }
{
    if is_winnable(white) || is_winnable(black) {
        Edge::Live
    } else {
        Edge::Unclear
    }
}

/// The certificates of verdicts that show a position dead.
fn certs_of(decision: Decision) -> Option<EarlierCerts>
    ensures { result ≡ certs_by decision.white decision.black }
{
    let Decision { white, black } = decision;
    match white {
        Verdict::Unwinnable(white) => match black {
            Verdict::Unwinnable(black) => Some(EarlierCerts { white, black }),
            Verdict::Winnable(_) => None,
            Verdict::Undecided { .. } => None,
            Verdict::Skipped => None,
        },
        Verdict::Winnable(_) => None,
        Verdict::Undecided { .. } => None,
        Verdict::Skipped => None,
    }
}

/// Whether a position is shown dead, and how.
fn look<C: Crew>(
    alloc: Global,
    position: &Position,
    first: Color,
    limits: &Limits,
    crew: &mut C,
) -> Result<EarlierPly, NoMemory>
    requires ready { C.ready crew.old }
    ensures stays_ready { C.ready crew.new }
    ensures found { IfOk result (IsFoundAt position.now first limits.now) }
    ensures calls { MadeSome C.made crew.old crew.new }
{
    let decision = decide(alloc, position, first, limits, crew)?;
    let edge = edge_of(&decision.white, &decision.black);
    match certs_of(decision) {
        Some(certs) => Ok(EarlierPly::Dead(certs)),
        None => Ok(EarlierPly::Open(edge)),
    }
}

/// The next ply to look at on the way back from the last one, where this one is dead. One ply is gone back at first, since most
/// dead ends of games are short, and then twice as many each time.
fn sooner_than(ply: usize, last: usize) -> usize
    requires some { 0 < ply }
    requires inside { ply ≤ last }
    ensures { result < ply }
{
    let behind = last - ply;
    let stride = if behind < 4 { 1 } else { behind - 2 };
    ply.saturating_sub(stride)
}

/// Goes back from the last position, which is dead, until a position is not shown dead, or to the start.
fn go_back<C: Crew>(
    alloc: Global,
    positions: &[Position],
    first: Color,
    limits: &Limits,
    crew: &mut C,
) -> Result<Reached, NoMemory>
    requires some { 0 < length positions.now }
    requires few { length positions.now ≤ 12001 }
    requires ready { C.ready crew.old }
    ensures stays_ready { C.ready crew.new }
    ensures reached { IfOk result (IsReached positions.now first limits.now) }
    ensures calls { MadeSome C.made crew.old crew.new }
{
    let last = positions.len() - 1;
    let mut dead = DeadPly {
        ply: last,
        certs: None,
    };
    while dead.ply > 0 {
        let ply = sooner_than(dead.ply, last);
        match look(alloc, &positions[ply], first, limits, crew)? {
            EarlierPly::Dead(certs) => {
                dead = DeadPly {
                    ply,
                    certs: Some(certs),
                };
            }
            EarlierPly::Open(edge) => {
                return Ok(Reached {
                    dead,
                    before: Some(OpenPly { ply, edge }),
                });
            }
        }
    }
    Ok(Reached { dead, before: None })
}

/// A ply between two.
fn halfway(before: usize, behind: usize) -> usize
    requires { before + 1 < behind }
    ensures later { before < result }
    ensures sooner { result < behind }
{
    before + (behind - before) / 2
}

/// Halves what lies between an open ply and a dead one behind it, until they are next to each other.
fn narrow<C: Crew>(
    alloc: Global,
    positions: &[Position],
    dead: DeadPly,
    before: OpenPly,
    first: Color,
    limits: &Limits,
    crew: &mut C,
) -> Result<Scan, NoMemory>
    requires few { length positions.now ≤ 12001 }
    requires dead { IsShownAt positions.now dead }
    requires before { IsOpenAt positions.now first limits.now before }
    requires apart { before.ply < dead.ply }
    requires ready { C.ready crew.old }
    ensures stays_ready { C.ready crew.new }
    ensures found { IfOk result (IsScanFound positions.now first limits.now) }
    ensures calls { MadeSome C.made crew.old crew.new }
{
    let mut dead = dead;
    let mut before = before;
    while before.ply + 1 < dead.ply {
        let ply = halfway(before.ply, dead.ply);
        match look(alloc, &positions[ply], first, limits, crew)? {
            EarlierPly::Dead(certs) => {
                dead = DeadPly {
                    ply,
                    certs: Some(certs),
                };
            }
            EarlierPly::Open(edge) => before = OpenPly { ply, edge },
        }
    }
    Ok(Scan {
        ply: dead.ply as u32,
        edge: before.edge,
        earlier: dead.certs,
    })
}

/// From where on a game was dead, by its positions in order and the verdicts on the last one. There is an answer exactly where
/// these show the last position dead.
///
/// Positions before the last one are decided, with `first` examined first, as `decide` does. Since what comes after a dead
/// position is dead, not each of them is: the plies are gone back by steps that grow, and what lies between the last two steps is
/// halved. The ply that is answered is shown dead, with certificates where it is not the last one, and the ply before it is not,
/// unless there is none. The only error is want of memory.
pub fn scan_back<C: Crew>(
    alloc: Global,
    positions: &[Position],
    first: Color,
    last: &Decision,
    limits: &Limits,
    crew: &mut C,
) -> Result<Option<Scan>, NoMemory>
    requires some { 0 < length positions.now }
    requires few { length positions.now ≤ 12001 }
    requires ready { C.ready crew.old }
    ensures stays_ready { C.ready crew.new }
    ensures scan { IfOk result (HasScan positions.now first limits.now last.now) }
    ensures printable { IfOk result (λ found. IfSome found (λ scan. IsPrintableScan scan.earlier)) }
    ensures calls { MadeSome C.made crew.old crew.new }

    // Whatever the answer is, the workers did nothing but calls, and know of the calls of all what a crew of their kind knows.
    ensures worked { HasWorked C.made_by C.count C.knows crew.old crew.new }
{
    if !are_dead(&last.white, &last.black) {
        return Ok(None);
    }
    let Reached { dead, before } = go_back(alloc, positions, first, limits, crew)?;
    match before {
        Some(before) => {
            let scan = narrow(alloc, positions, dead, before, first, limits, crew)?;
            Ok(Some(scan))
        }
        None => Ok(Some(Scan {
            ply: 0,
            edge: Edge::Start,
            earlier: dead.certs,
        })),
    }
}
