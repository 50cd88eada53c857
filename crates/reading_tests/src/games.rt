//! Games of texts, shown as texts.

ghost use Rattle.std.specs.Prelude.{◌≡◌, false};

mod real_files;
mod small_texts;

use cha_board::Position;
use cha_fen::{FenFault, write};
use cha_outside::Pieces;
use pgn_games::{Game, GameFault, ReadEnd, Reader, ResultMark};
use real_files::FILES;
use small_texts::{BAD_TOKENS, ENDS, STARTS, TAGS, TWO_FAULTS, VARIATIONS};
use std::alloc::Global;
use std::process::Abort;

const OPENING: &[u8] = b"rnbqkbnr/pppppppp/8/8/8/8/PPPPPPPP/RNBQKBNR w KQkq -";

/// A source that gives a text in pieces of a size, and fails at the numbered call. No call has the number 0.
fn pieces_of(rt: &impl Abort, alloc: Global, bytes: &[u8], size: u32, failing: u32) -> Pieces {
    let bytes = bytes.to_vec(alloc).expect(rt, "memory");
    let sizes = [size].to_vec(alloc).expect(rt, "memory");
    let fails = [failing].to_vec(alloc).expect(rt, "memory");
    Pieces::new(bytes, sizes, fails)
}

/// The games of a text that comes in pieces of a size, as `e4 e5 1-0 | <4k3/8/8/8/8/8/4P3/4K3 w - -> e4 * time #BadToken 12`: the start where it is not the
/// opening position, the move words, the result, `time` where the game was forfeited on time, and the fault.
fn shown(rt: &impl Abort, alloc: Global, bytes: &[u8], size: u32) -> Vec<u8> {
    let mut source = pieces_of(rt, alloc, bytes, size, 0);
    let mut reader = Reader::new(alloc).expect(rt, "memory");
    let mut text = Vec::new(alloc);
    show_all(rt, alloc, &mut reader, &mut source, &mut text);
    text
}

/// Appends the games that a reader gives.
fn show_all(
    rt: &impl Abort,
    alloc: Global,
    reader: &mut Reader,
    source: &mut Pieces,
    text: &mut Vec<u8>,
) {
    for _call in 0..100 {
        if reader.failed() {
            return;
        }
        match reader.next(source).expect(rt, "no fault") {
            Some(found) => show(rt, alloc, &found.game, text),
            None => return,
        }
    }
}

/// Appends a text.
fn put(rt: &impl Abort, text: &mut Vec<u8>, more: &[u8]) {
    text.extend_from_slice(more).expect(rt, "memory");
}

fn show(rt: &impl Abort, alloc: Global, game: &Game, text: &mut Vec<u8>) {
    if !text.is_empty() {
        put(rt, text, b" | ");
    }
    show_start(rt, alloc, &game.start, text);
    for word in game.words.items() {
        put(rt, text, word.items());
        put(rt, text, b" ");
    }
    put(rt, text, marked(game.recorded));
    put(rt, text, if game.forfeit { b" time" } else { b"" });
    show_fault(rt, alloc, game.fault, text);
}

fn show_start(rt: &impl Abort, alloc: Global, start: &Position, text: &mut Vec<u8>) {
    let start = write(alloc, start).expect(rt, "memory");
    if start.items() != OPENING {
        put(rt, text, b"<");
        put(rt, text, start.items());
        put(rt, text, b"> ");
    }
}

fn marked(mark: ResultMark) -> &'static [u8] {
    match mark {
        ResultMark::WhiteWins => b"1-0",
        ResultMark::BlackWins => b"0-1",
        ResultMark::Draw => b"1/2-1/2",
        ResultMark::Unknown => b"*",
    }
}

fn show_fault(rt: &impl Abort, alloc: Global, fault: Option<GameFault>, text: &mut Vec<u8>) {
    let Some(fault) = fault else {
        return;
    };
    put(rt, text, b" #");
    put(rt, text, named(fault).as_bytes());
    if let GameFault::BadToken(offset) = fault {
        let offset = format!(in alloc; " {offset}").expect(rt, "memory");
        put(rt, text, offset.as_bytes());
    }
}

fn named(fault: GameFault) -> &'static str {
    match fault {
        GameFault::BadToken(_) => "BadToken",
        GameFault::Unclosed => "Unclosed",
        GameFault::ValueTooLong => "ValueTooLong",
        GameFault::Variant => "Variant",
        GameFault::BadStart(FenFault::Shape) => "BadStart Shape",
        GameFault::BadStart(FenFault::Kings) => "BadStart Kings",
        GameFault::BadStart(FenFault::PawnRank) => "BadStart PawnRank",
        GameFault::BadStart(FenFault::OpponentInCheck) => "BadStart OpponentInCheck",
        GameFault::TooManyPlies => "TooManyPlies",
    }
}

/// Asserts the games of a text that comes in pieces of a size.
fn gives_games(rt: &impl Abort, alloc: Global, text: &[u8], size: u32, want: &[u8]) {
    let found = shown(rt, alloc, text, size);
    assert!(rt; found.as_slice() == want, "{text:?}");
}

/// Asserts the games of a text, whatever pieces it comes in.
fn has_games(rt: &impl Abort, alloc: Global, text: &[u8], want: &[u8]) {
    gives_games(rt, alloc, text, 1, want);
    gives_games(rt, alloc, text, 2, want);
    gives_games(rt, alloc, text, 7, want);
    gives_games(rt, alloc, text, 4096, want);
}

/// Asserts the games of each text of a table.
fn have_games(rt: &impl Abort, alloc: Global, table: &[(&str, &str)]) {
    for (text, want) in table {
        has_games(rt, alloc, text.as_bytes(), want.as_bytes());
    }
}

#[test]
fn texts_have_their_games(rt: HostRuntime) {
    have_games(&rt, rt.alloc(), ENDS);
    have_games(&rt, rt.alloc(), VARIATIONS);
    have_games(&rt, rt.alloc(), STARTS);
    have_games(&rt, rt.alloc(), TAGS);
    have_games(&rt, rt.alloc(), TWO_FAULTS);
    have_games(&rt, rt.alloc(), FILES);
    for (text, want) in BAD_TOKENS {
        has_games(&rt, rt.alloc(), text, want.as_bytes());
    }
}

/// Asserts that the first game cannot be read where this says so, and is read else.
fn has_first(rt: &impl Abort, reader: &mut Reader, source: &mut Pieces, fails: bool)
    requires { reader.old.failed ≡ false }
{
    let end = reader.next(source).err();
    assert!(rt;
        end == if fails {
            Some(ReadEnd::ReadFault)
        } else {
            None
        }
    );
    assert!(rt; reader.failed() == fails);
}

/// Asserts whether the first game is read where a read fails.
fn fails_at(rt: &impl Abort, alloc: Global, failing: u32) {
    let mut source = pieces_of(rt, alloc, b"e4 * d4 ", 3, failing);
    let mut reader = Reader::new(alloc).expect(rt, "memory");
    has_first(rt, &mut reader, &mut source, failing <= 2);
}

/// The first game needs two reads: the byte behind its last token is in the second piece.
#[test]
fn a_reader_fails_where_its_source_fails(rt: HostRuntime) {
    for failing in 1..7 {
        fails_at(&rt, rt.alloc(), failing);
    }
}
