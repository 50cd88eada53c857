//! Games and lines that are whole in what was taken, which are given without a read.

ghost use Rattle.std.specs.Prelude.{◌≡◌, false};

use cha_outside::{Pieces, ReadEnd};
use pgn_games::{PlacedGame, Reader};
use pgn_results::KeptReader;
use std::alloc::Global;
use std::process::Abort;
use text_lines::{LineReader, TextLine};

/// Three games, each on a line of its own, and half of a fourth.
const GAMES: &[u8] = b"e4 *\n\nd4 d5 1-0\nc4 *\ne4 e5";

/// Three lines, the second under the number 3, and half of a fourth.
const LINES: &[u8] = b"one\n\nthree\r\nfour\nfi";

/// A source that gives a text in one piece, and fails when it is asked again.
fn in_one_piece(rt: &impl Abort, alloc: Global, text: &[u8]) -> Pieces {
    let bytes = text.to_vec(alloc).expect(rt, "memory");
    let sizes = [1000].to_vec(alloc).expect(rt, "memory");
    let fails = [2].to_vec(alloc).expect(rt, "memory");
    Pieces::new(bytes, sizes, fails)
}

/// The line where a game begins.
fn begins(found: Option<PlacedGame>) -> Option<u64> {
    match found {
        Some(game) => Some(game.span.line),
        None => None,
    }
}

/// The number of a line.
fn numbered(found: Option<TextLine>) -> Option<u64> {
    match found {
        Some(line) => Some(line.number),
        None => None,
    }
}

/// Asserts that the next game of a reader that is ready begins on this line.
fn is_ready(rt: &impl Abort, reader: &mut Reader, line: Option<u64>)
    requires { reader.old.failed ≡ false }
    ensures { reader.new.failed ≡ false }
{
    let found = reader.ready().expect(rt, "memory");
    assert!(rt; begins(found) == line);
}

/// Asserts what a reader of games gives behind the first read.
fn gives_games(rt: &impl Abort, reader: &mut Reader, source: &mut Pieces)
    requires { reader.old.failed ≡ false }
{
    let first = reader.next(source).expect(rt, "no fault");
    assert!(rt; begins(first) == Some(1));
    is_ready(rt, reader, Some(3));
    is_ready(rt, reader, Some(4));
    is_ready(rt, reader, None);
    is_ready(rt, reader, None);
    assert!(rt; reader.next(source).err() == Some(ReadEnd::ReadFault));
}

#[test]
fn games_that_are_whole_are_given_without_a_read(rt: HostRuntime) {
    let mut source = in_one_piece(&rt, rt.alloc(), GAMES);
    let mut reader = Reader::new(rt.alloc()).expect(&rt, "memory");
    gives_games(&rt, &mut reader, &mut source);
}

/// Asserts that the next game of a reader that is ready begins on this line.
fn is_kept_ready(rt: &impl Abort, reader: &mut KeptReader, line: Option<u64>)
    requires { reader.old.failed ≡ false }
    ensures { reader.new.failed ≡ false }
{
    let found = reader.ready().expect(rt, "memory");
    assert!(rt; begins(found) == line);
}

/// The same of a reader that keeps bytes.
fn gives_kept_games(rt: &impl Abort, reader: &mut KeptReader, source: &mut Pieces)
    requires { reader.old.failed ≡ false }
{
    let first = reader.next(source).expect(rt, "no fault");
    assert!(rt; begins(first) == Some(1));
    is_kept_ready(rt, reader, Some(3));
    is_kept_ready(rt, reader, Some(4));
    is_kept_ready(rt, reader, None);
    assert!(rt; reader.unwritten() == GAMES);
    assert!(rt; reader.next(source).err() == Some(ReadEnd::ReadFault));
}

#[test]
fn kept_games_that_are_whole_are_given_without_a_read(rt: HostRuntime) {
    let mut source = in_one_piece(&rt, rt.alloc(), GAMES);
    let mut reader = KeptReader::new(rt.alloc()).expect(&rt, "memory");
    gives_kept_games(&rt, &mut reader, &mut source);
}

/// Asserts that the next line of a reader that is ready has this number.
fn has_ready_line(rt: &impl Abort, reader: &mut LineReader, number: Option<u64>)
    requires { reader.old.failed ≡ false }
    ensures { reader.new.failed ≡ false }
{
    let found = reader.ready().expect(rt, "memory");
    assert!(rt; numbered(found) == number);
}

/// The same of a reader of lines.
fn gives_lines(rt: &impl Abort, reader: &mut LineReader, source: &mut Pieces)
    requires { reader.old.failed ≡ false }
{
    let first = reader.next(source).expect(rt, "no fault");
    assert!(rt; numbered(first) == Some(1));
    has_ready_line(rt, reader, Some(3));
    has_ready_line(rt, reader, Some(4));
    has_ready_line(rt, reader, None);
    assert!(rt; reader.next(source).err() == Some(ReadEnd::ReadFault));
}

#[test]
fn lines_that_are_whole_are_given_without_a_read(rt: HostRuntime) {
    let mut source = in_one_piece(&rt, rt.alloc(), LINES);
    let mut reader = LineReader::new(rt.alloc());
    gives_lines(&rt, &mut reader, &mut source);
}
