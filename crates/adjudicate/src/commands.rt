//! What each order does.

ghost use Rattle.std.specs.Prelude.{◌≡◌, ◌≤◌, ℕ, None, IsSome};
ghost use Rattle.cha_fact.specs.Entries.{MadeSome};
ghost use Rattle.cha_limits.specs.Bounds.{Bounds};
ghost use Rattle.cha_words.specs.declared.orders.Order.TheVariants.{GenGames, ListMates};
ghost use Rattle.cha_board.specs.declared.men.Color.{Color as Side};
ghost use Rattle.cha_words.specs.Language.{limits_in};
ghost use Rattle.report_style.specs.declared.styles.Style.{Style};
ghost use Rattle.adjudicate.specs.Jobs.{draws_by};
ghost use Rattle.adjudicate.specs.Corrections.{noted};
ghost use Rattle.adjudicate.specs.Orders.{IsRun};
ghost use Rattle.adjudicate.specs.Report.{demand};
ghost use Rattle.adjudicate.specs.Runs.{IsRunOf, outside};

use crate::checking::check_cert;
use crate::correcting::correct_games;
use crate::endings::Status;
use crate::jobs::{report, report_made};
use crate::reports::Form;
use cha_judge::{MatesJudge, PliesJudge, VerdictsJudge};
use cha_outcome::FlaggedDraws;
use cha_outside::{Sink, Source};
use cha_words::Order;
use flag_report::Subject;
use root_workers::Crew;
use side_by_side::{Hands, ItemKind, Purpose};
use std::alloc::Global;

/// What becomes of drawn games whose flag fell.
fn draws_of(flagged: bool) -> FlaggedDraws
    ensures { result ≡ draws_by flagged }
{
    if flagged {
        FlaggedDraws::Examined
    } else {
        FlaggedDraws::Stand
    }
}

/// Reads a source to its end, and writes the report that an order asks for, with a crew of workers that searches.
pub fn carry_out<H: Hands, C: Crew, S: Source, K: Sink, N: Sink>(
    alloc: Global,
    order: &Order,
    hands: &H,
    crew: &mut C,
    source: &mut S,
    sink: &mut K,
    notes: &mut N,
) -> Status
    requires hands { H.ready hands.now }
    requires ready { C.ready crew.old }
    requires searches { IsSome (limits_in order.now) }
    requires some { (spend : Bounds) (seed count : ℕ) → order.now ≡ GenGames spend seed count → (1 ≤ count) × (count ≤ 1000) }
    ensures stays_ready { C.ready crew.new }
    ensures calls { MadeSome C.made crew.old crew.new }
    ensures run { IsRun order.now result (outside (S.left source.old) (S.faults source.old) (K.written sink.old) (K.faults sink.old)) (outside (S.left source.new) (S.faults source.new) (K.written sink.new) (K.faults sink.new)) (noted (N.written notes.old) (N.faults notes.old)) (noted (N.written notes.new) (N.faults notes.new)) }
{
    match order {
        Order::AdjudicateGames {
            limits,
            flagged_draws,
            style,
        } => {
            let mut judge = VerdictsJudge {
                limits: *limits,
                draws: draws_of(*flagged_draws),
                crew,
            };
            let form = Form {
                style: *style,
                subject: Subject::Games,
            };
            let games = ItemKind::Games(Purpose::Judged);
            report(alloc, games, form, hands, &mut judge, source, sink)
        }
        Order::CorrectGames {
            limits,
            flagged_draws,
            changed,
        } => {
            let mut judge = VerdictsJudge {
                limits: *limits,
                draws: draws_of(*flagged_draws),
                crew,
            };
            correct_games(alloc, *changed, hands, &mut judge, source, sink, notes)
        }
        Order::JudgePositions { limits, style } => {
            let mut judge = VerdictsJudge {
                limits: *limits,
                draws: FlaggedDraws::Stand,
                crew,
            };
            let form = Form {
                style: *style,
                subject: Subject::Positions,
            };
            report(
                alloc,
                ItemKind::Lines,
                form,
                hands,
                &mut judge,
                source,
                sink,
            )
        }
        Order::GenGames {
            limits,
            seed,
            count,
        } => {
            let mut judge = VerdictsJudge {
                limits: *limits,
                draws: FlaggedDraws::Stand,
                crew,
            };
            report_made(alloc, *seed, *count, hands, &mut judge, sink)
        }
        _ => unreachable!(),
    }
}

/// Reads a source to its end, and writes what an order asks for that needs no search for verdicts: the answer on a certificate,
/// the shortest mates of each line, or the moves of each game.
pub fn carry_out_plain<H: Hands, S: Source, K: Sink>(
    alloc: Global,
    order: &Order,
    hands: &H,
    source: &mut S,
    sink: &mut K,
) -> Status
    requires hands { H.ready hands.now }
    requires no_search { limits_in order.now ≡ None }
    requires bounded { (side : Side) (workers depth : ℕ) (style : Style) → order.now ≡ ListMates side workers depth style → ((1 ≤ workers) × (workers ≤ 16)) × ((1 ≤ depth) × (depth ≤ 6)) }
    ensures { IsRunOf (demand order.now) result (outside (S.left source.old) (S.faults source.old) (K.written sink.old) (K.faults sink.old)) (outside (S.left source.new) (S.faults source.new) (K.written sink.new) (K.faults sink.new)) }
{
    match order {
        Order::CheckCert => check_cert(alloc, hands, source, sink),
        Order::ListMates {
            side,
            workers,
            depth,
            style,
        } => {
            let mut judge = MatesJudge {
                side: *side,
                depth: *depth,
                workers: *workers,
                hands,
            };
            let form = Form {
                style: *style,
                subject: Subject::Mates,
            };
            report(
                alloc,
                ItemKind::Lines,
                form,
                hands,
                &mut judge,
                source,
                sink,
            )
        }
        Order::ReplayGames { style } => {
            let form = Form {
                style: *style,
                subject: Subject::Plies,
            };
            let games = ItemKind::Games(Purpose::Told);
            report(alloc, games, form, hands, &mut PliesJudge, source, sink)
        }
        _ => unreachable!(),
    }
}
