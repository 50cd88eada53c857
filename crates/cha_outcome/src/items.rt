//! What an input is made of.

ghost use Rattle.std.specs.Prelude.{◌≡◌, ◌≢◌, ◌≤◌, ◌⊎◌, None, length, IfOk};
ghost use Rattle.std.specs.Bool.{OnTrue, OnFalse};
ghost use Rattle.cha_san.specs.Playing.{positions};
ghost use Rattle.cha_limits.specs.Bounds.{Bounds};
ghost use Rattle.cha_outcome.specs.declared.questions.FlaggedDraws.{FlaggedDraws as DrawRule};
ghost use Rattle.cha_outcome.specs.declared.questions.Question.{Question};
ghost use Rattle.cha_outcome.specs.declared.questions.Question.TheVariants.{Verdicts, Plies};
ghost use Rattle.cha_outcome.specs.Outcomes.{CanBeAsked};
ghost use Rattle.cha_outcome.specs.Items.{line_item, game_item, kept_item, played_item, stopped_by, reason_of, start_if_known, moves_before as moves_before_of, replay_item};
ghost use Rattle.cha_outcome.specs.declared.items.Item.TheVariants.{UnreadableGame};

use crate::unreadable::Unreadable;
use cha_board::Position;
use cha_fen::{FenFault, read};
use cha_list::{NoMemory, text_of};
use cha_moves::{Moves, Positions};
use cha_san::{PlayFault, SanFault, moves_of, play};
use pgn_games::{Game, PlacedGame, ResultMark, Span};
use std::alloc::Global;

/// A game that was played to its final position.
#[derive(Drop)]
pub struct PlayedGame {
    /// Where it stands in its text.
    pub span: Span,
    /// The final position.
    pub last: Position,
    /// All positions of the game, from its start to the final one.
    pub positions: Positions,
    /// The result with which its text ends.
    pub recorded: ResultMark,
    /// Whether its text says that it was lost on time.
    pub forfeit: bool,
    /// Whether its text says that a flag fell, also where the game was drawn.
    pub flag_fell: bool,
}

/// The moves of a game, as far as they can be made.
#[derive(Drop)]
pub struct ReplayedGame {
    /// Where it stands in its text.
    pub span: Span,
    /// Where it starts, or None where a tag has a fault, so that nobody knows.
    pub start: Option<Position>,
    /// Its moves: of a game that cannot be read those before its first fault.
    pub moves: Moves,
    /// Why the game cannot be read, or None.
    pub why: Option<Unreadable>,
}

/// One item of an input.
#[derive(Drop)]
pub enum Item {
    /// A line that is a position in FEN.
    Position {
        /// The number of the line, from 1. Blank lines count too.
        line: u64,
        position: Position,
    },
    /// A line that is no position in FEN.
    RefusedLine {
        /// The number of the line, from 1. Blank lines count too.
        line: u64,
        fault: FenFault,
    },
    /// A game that was played to its final position.
    Played(PlayedGame),
    /// A game that cannot be read.
    UnreadableGame {
        /// Where it stands in its text.
        span: Span,
        why: Unreadable,
    },
    /// A game whose moves are listed, and which is not judged.
    Replayed(ReplayedGame),
}

/// The most bytes that a line may have.
const MOST_LINE_BYTES: usize = 4096;

/// The item of a line that is not blank, by its number and its text. A line of over 4,096 bytes has the fault `Shape`.
#[tactic(auto, unfolding(crate::specs::Items::line_item))]
pub fn item_of_line(line: u64, text: &[u8]) -> Item
    ensures item { result ≡ line_item line text.now }
    ensures asked { (question : Question) → question ≢ Plies → CanBeAsked question result }
{
    if text.len() > MOST_LINE_BYTES {
        return Item::RefusedLine {
            line,
            fault: FenFault::Shape,
        };
    }
    match read(text) {
        Ok(position) => Item::Position { line, position },
        Err(fault) => Item::RefusedLine { line, fault },
    }
}

/// The item of a game: its moves are played, unless its text has a fault. The only error is want of memory.
#[tactic(auto, unfolding(crate::specs::Items::game_item))]
pub fn item_of_game(alloc: Global, placed: &PlacedGame) -> Result<Item, NoMemory>
    requires { placed.now.game.fault ≡ None → length placed.now.game.words ≤ 12000 }
    ensures item { IfOk result (λ item. item ≡ game_item placed.now) }
    ensures asked { IfOk result (λ item. (limits : Bounds) (draws : DrawRule) → CanBeAsked (Verdicts limits draws) item) }
{
    match placed.game.fault {
        Some(fault) => Ok(Item::UnreadableGame {
            span: placed.span,
            why: Unreadable::Tokens(fault),
        }),
        None => played_out(alloc, placed.span, &placed.game),
    }
}

/// The most bytes of a game whose result may be corrected, from its first token to its last: 16 MiB.
pub const MOST_GAME_BYTES: u64 = 16_777_216;

/// The item of a game whose result may be corrected: that of `item_of_game`, unless the game has more than 16,777,216 bytes, which are
/// more than are kept of one. The only error is want of memory.
#[tactic(auto, unfolding(crate::specs::Items::kept_item))]
pub fn item_of_kept_game(alloc: Global, placed: &PlacedGame) -> Result<Item, NoMemory>
    requires { placed.now.game.fault ≡ None → length placed.now.game.words ≤ 12000 }
    ensures item { IfOk result (λ item. item ≡ kept_item placed.now) }
    ensures asked { IfOk result (λ item. (limits : Bounds) (draws : DrawRule) → CanBeAsked (Verdicts limits draws) item) }
{
    if placed.span.end.saturating_sub(placed.span.start) > MOST_GAME_BYTES {
        return Ok(Item::UnreadableGame {
            span: placed.span,
            why: Unreadable::TooLong,
        });
    }
    item_of_game(alloc, placed)
}

/// The item of a game whose text has no fault.
fn played_out(alloc: Global, span: Span, game: &Game) -> Result<Item, NoMemory>
    requires readable { game.now.fault ≡ None }
    requires few { length game.now.words ≤ 12000 }
    ensures item { IfOk result (λ item. item ≡ played_item span game.now (positions game.now.start game.now.words)) }
    ensures asked { IfOk result (λ item. (limits : Bounds) (draws : DrawRule) → CanBeAsked (Verdicts limits draws) item) }
{
    game.start.known();
    match play(alloc, game) {
        Ok(positions) => {
            let last = positions.items()[positions.items().len() - 1];
            Ok(Item::Played(PlayedGame {
                span,
                last,
                positions,
                recorded: game.recorded,
                forfeit: game.forfeit,
                flag_fell: game.flag_fell,
            }))
        }
        Err(stop) => stopped(alloc, span, game, stop),
    }
}

/// The item of a game at whose first word that names no move it stops.
fn stopped(alloc: Global, span: Span, game: &Game, stop: PlayFault) -> Result<Item, NoMemory>
    requires inside { (stop.fault ≡ SanFault.NoMemory) ⊎ ((1 ≤ stop.ply) × (stop.ply ≤ length game.now.words)) }
    ensures item { IfOk result (λ item. item ≡ UnreadableGame span (stopped_by game.now stop)) }
    ensures of_word { IfOk result (λ _. stop.fault ≢ SanFault.NoMemory) }
{
    if lacks_memory(stop.fault) {
        return Err(NoMemory);
    }
    let word = &game.words.items()[stop.ply as usize - 1];
    Ok(Item::UnreadableGame {
        span,
        why: Unreadable::Moves {
            ply: stop.ply,
            word: text_of(alloc, word.items())?,
            fault: stop.fault,
        },
    })
}

/// Whether a word named no move because memory was refused.
fn lacks_memory(fault: SanFault) -> bool
    ensures no_memory { OnTrue result (fault ≡ SanFault.NoMemory) }
    ensures of_word { OnFalse result (fault ≢ SanFault.NoMemory) }
{
    match fault {
        SanFault::NoMemory => true,
        SanFault::NotSan => false,
        SanFault::NoSuchMove => false,
        SanFault::Ambiguous => false,
    }
}

/// The item of a game whose moves are listed: those that its words name, up to its first fault. The only error is want of memory.
#[tactic(auto, unfolding(crate::specs::Items::replay_item))]
pub fn item_of_replay(alloc: Global, placed: &PlacedGame) -> Result<Item, NoMemory>
    requires { placed.now.game.fault ≡ None → length placed.now.game.words ≤ 12000 }
    ensures item { IfOk result (λ item. item ≡ replay_item placed.now) }
    ensures asked { IfOk result (λ item. CanBeAsked Plies item) }
{
    let why = reason(item_of_game(alloc, placed)?);
    let start = start_known(&placed.game);
    let moves = moves_before(alloc, &placed.game)?;
    Ok(Item::Replayed(ReplayedGame {
        span: placed.span,
        start,
        moves,
        why,
    }))
}

/// Why an item is no game that can be read.
fn reason(item: Item) -> Option<Unreadable>
    ensures { result ≡ reason_of item }
{
    match item {
        Item::UnreadableGame { why, .. } => Some(why),
        _ => None,
    }
}

/// Where a game starts, if that is known.
fn start_known(game: &Game) -> Option<Position>
    ensures { result ≡ start_if_known game.now.before_fault game.now.start }
{
    match game.before_fault {
        Some(_) => Some(game.start),
        None => None,
    }
}

/// The moves of a game before its first fault.
fn moves_before(alloc: Global, game: &Game) -> Result<Moves, NoMemory>
    ensures { IfOk result (λ moves. moves ≡ moves_before_of game.now.before_fault game.now) }
{
    match game.before_fault {
        Some(number) => {
            let words = game.words.items();
            let (before, _behind) = words.split_at(number.min(words.len()));
            moves_of(alloc, &game.start, before)
        }
        None => Ok(Moves::new(alloc)),
    }
}
