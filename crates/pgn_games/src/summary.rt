//! What the tokens of one game say, as much of it as the game needs.

ghost use Rattle.std.specs.Prelude.{◌≡◌, ◌==◌, ◌-◌, ◌^◌, ◌<◌, ◌≤◌, ◌++◌, ◌∷◌, if◌then◌else◌, [], is_some, length, min, take, codes, OnOk, OnErr};
ghost use Rattle.std.specs.Option.{option_map, option_or};
ghost use Rattle.pgn_games.specs.declared.faults.GameFault.TheVariants.{BadToken};
ghost use Rattle.pgn_games.specs.Fields.{value_named};
ghost use Rattle.pgn_games.specs.Games.{is_open, fault_if, fault_of, has_bad_tag as has_bad_tag_of, words_before_fault, span_of, game_of, placed_game_of};
ghost use Rattle.pgn_games.specs.Summing.{span_with, word_outside, with_word};

use crate::faults::GameFault;
use crate::marks::ResultMark;
use crate::movetext::{bad_outside, keep_word, mark_outside, unclosed};
use crate::played::{Game, PlacedGame, Span, Words};
use crate::tag_pairs::{
    TagValues, flag_fell, forfeited, other_game, start_refused, started, was_cut,
};
use crate::token_turns::deeper;
use cha_list::NoMemory;
use pgn_lex::{History, Placed, Token};
use std::alloc::Global;
use std::marker::Model;
use std::snapshot::Snapshot;

/// The most move words that a game may have.
const MOST_PLIES: usize = 12_000;

/// For how many move words there is room from the start: for those of most games. Where several threads judge, a list that grows often
/// waits for them at the heap.
const ROOM: usize = 128;

/// What the tokens of a game say. It takes no more memory than the game itself and the room for its first words, however many tokens
/// there are.
#[derive(Drop)]
pub struct Summary {
    told: History<Placed>,
    span: Span,
    empty: bool,
    depth: usize,
    bad: Option<u64>,
    unclosed: bool,
    cut: bool,
    recorded: Option<ResultMark>,
    tags: TagValues,
    words: Words,
    sound: usize,
}

/// Contracts see the tokens.
impl Model for Summary {
    ghost use Rattle.std.specs.Prelude.{◌≡◌, List};
    ghost use Rattle.pgn_lex.specs.declared.kinds.Placed.{Placed};
    ghost use Rattle.pgn_games.specs.Games.{span_of};
    ghost use Rattle.pgn_games.specs.Summing.{HasValues, IsSummary, sound_count};

    ghost Value = { List Placed };

    ghost view = { λ s. s.told };

    ghost invariant = { λ s. IsSummary s.told s.empty s.depth s.bad s.unclosed s.cut s.recorded s.words × HasValues s.told s.tags.variant s.tags.fen s.tags.termination × (s.span ≡ span_of s.told) × (s.sound ≡ sound_count s.told) };
}

/// Keeps the words and the values of a token. On a refusal nothing is kept.
fn keep_texts(
    depth: usize,
    token: Token,
    tags: &mut TagValues,
    words: &mut Words,
) -> Result<(), NoMemory>
    requires { length words.old ≤ 12001 }
    ensures words { OnOk result (words.new ≡ take 12001 (with_word words.old (word_outside depth token))) }
    ensures variant { OnOk result (tags.new.variant ≡ option_or tags.old.variant (value_named (codes "Variant") token)) }
    ensures fen { OnOk result (tags.new.fen ≡ option_or tags.old.fen (value_named (codes "FEN") token)) }
    ensures termination { OnOk result (tags.new.termination ≡ option_or tags.old.termination (value_named (codes "Termination") token)) }
    ensures refused { OnErr result ((tags.new ≡ tags.old) × (words.new ≡ words.old)) }
{
    match token {
        Token::Word(word) => keep_word(depth, word, words),
        Token::Tag { name, value, .. } => {
            tags.keep(name.items(), value);
            Ok(())
        }
        _ => Ok(()),
    }
}

/// No words, with room for those of most games, unless memory is refused.
fn no_words(alloc: Global) -> Words
    ensures { result ≡ [] }
{
    match Vec::with_capacity(alloc, ROOM) {
        Ok(room) => Words::from_vec(room),
        Err(_) => Words::new(alloc),
    }
}

/// Where a game stands, with one token more. `empty` says that it is the first.
fn longer(empty: bool, span: Span, placed: &Placed) -> Span
    ensures { result ≡ span_with empty span placed.now }
{
    let end = placed.end;
    if empty {
        return Span {
            start: placed.offset,
            end,
            line: placed.line,
        };
    }
    Span {
        start: span.start,
        end,
        line: span.line,
    }
}

/// How many words stand before the first bad token, at most 12,000: all that are kept, where there is none, or else as many as before.
fn sound_after(bad: Option<u64>, kept: usize, sound: usize) -> usize
    ensures { result ≡ (if is_some bad then sound else min 12000 kept) }
{
    match bad {
        Some(_) => sound,
        None => kept.min(MOST_PLIES),
    }
}

/// The fault of a bad token.
fn bad_token(bad: Option<u64>) -> Option<GameFault>
    ensures { result ≡ option_map BadToken bad }
{
    match bad {
        Some(offset) => Some(GameFault::BadToken(offset)),
        None => None,
    }
}

/// A fault, if there is cause for it.
fn where_caused(cause: bool, fault: GameFault) -> Option<GameFault>
    ensures { result ≡ fault_if cause fault }
{
    if cause {
        return Some(fault);
    }
    None
}

impl Summary {
    /// The summary of no token, with room for the words of most games, unless memory is refused.
    pub fn new(alloc: Global) -> Summary
        ensures { result ≡ [] }
    {
        Summary {
            told: History::new(),
            span: Span {
                start: 0,
                end: 0,
                line: 0,
            },
            empty: true,
            depth: 0,
            bad: None,
            unclosed: false,
            cut: false,
            recorded: None,
            tags: TagValues::new(),
            words: no_words(alloc),
            sound: 0,
        }
    }

    /// Whether there is no token.
    pub fn is_empty(&self) -> bool
        ensures { result ≡ (length self.now == 0) }
    {
        self.empty
    }

    /// Takes the next token. The only error is want of memory, which leaves the summary as it was.
    pub fn take(&mut self, placed: Placed) -> Result<(), NoMemory>
        requires { length self.old < 2 ^ 64 - 1 }
        ensures ok { OnOk result (self.new ≡ self.old ++ placed ∷ []) }
        ensures err { OnErr result (self.new ≡ self.old) }
    {
        let told = Snapshot::of(&placed);
        let bad = self.bad.or(bad_outside(self.depth, &placed));
        let recorded = self.recorded.or(mark_outside(self.depth, &placed.token));
        let unclosed = self.unclosed | unclosed(&placed.token);
        let cut = self.cut | was_cut(&placed.token);
        let depth = deeper(self.depth, &placed.token);
        let span = longer(self.empty, self.span, &placed);
        keep_texts(self.depth, placed.token, &mut self.tags, &mut self.words)?;
        self.empty = false;
        self.span = span;
        self.depth = depth;
        self.bad = bad;
        self.unclosed = unclosed;
        self.cut = cut;
        self.recorded = recorded;
        self.sound = sound_after(bad, self.words.items().len(), self.sound);
        self.told.push(told);
        Ok(())
    }

    /// Whether a comment or a variation is open at the end of the tokens.
    fn is_open(&self) -> bool
        ensures { result ≡ is_open self.now }
    {
        if self.unclosed {
            return true;
        }
        self.depth > 0
    }

    /// The first fault of the game.
    fn fault(&self) -> Option<GameFault>
        ensures { result ≡ fault_of self.now }
    {
        let many = self.words.items().len() > MOST_PLIES;
        bad_token(self.bad)
            .or(where_caused(self.is_open(), GameFault::Unclosed))
            .or(where_caused(self.cut, GameFault::ValueTooLong))
            .or(where_caused(other_game(&self.tags.variant), GameFault::Variant))
            .or(start_refused(&self.tags.fen))
            .or(where_caused(many, GameFault::TooManyPlies))
    }

    /// Whether a tag of the game has a fault.
    #[tactic(auto, unfolding(crate::specs::Games::has_bad_tag))]
    fn has_bad_tag(&self) -> bool
        ensures { result ≡ has_bad_tag_of self.now }
    {
        self.cut || other_game(&self.tags.variant) || start_refused(&self.tags.fen).is_some()
    }

    /// How many of the words stand before the first fault of the movetext.
    fn before_fault(&self) -> Option<usize>
        ensures { result ≡ words_before_fault self.now }
    {
        if self.has_bad_tag() {
            return None;
        }
        Some(self.sound)
    }

    /// Where the game stands.
    fn span(&self) -> Span
        ensures { result ≡ span_of self.now }
    {
        self.span
    }

    /// The game of the tokens, and where it stands.
    pub fn placed_game(self) -> PlacedGame
        ensures { result ≡ placed_game_of self }
    {
        let span = self.span();
        PlacedGame {
            span,
            game: self.game(),
        }
    }

    /// The game of the tokens.
    fn game(self) -> Game
        ensures { result ≡ game_of self }
    {
        let before_fault = self.before_fault();
        let fault = self.fault();
        let start = started(&self.tags.fen);
        let forfeit = forfeited(&self.tags.termination);
        let flag_fell = flag_fell(&self.tags.termination);
        let recorded = self.recorded.unwrap_or(ResultMark::Unknown);
        let Summary { words, .. } = self;
        Game {
            start,
            recorded,
            forfeit,
            flag_fell,
            words,
            before_fault,
            fault,
        }
    }
}
