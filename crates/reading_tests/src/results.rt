//! Games that get another result.

use cha_list::Text;
use pgn_games::ResultMark;
use pgn_results::put_with_mark;
use std::alloc::Global;
use std::process::Abort;

/// The bytes of a game, the result that it gets, the bytes behind it, and what is written.
type Row = (&'static str, ResultMark, &'static str, &'static str);

const ROWS: &[Row] = &[
    // comments and variations keep what they say
    (
        "[Result \"*\"]\n\n1. e4 {1-0 [Result \"*\"]} (1. d4 1-0) e5 ; *\n*",
        ResultMark::Draw,
        "\n",
        "[Result \"1/2-1/2\"]\n\n1. e4 {1-0 [Result \"*\"]} (1. d4 1-0) e5 ; *\n1/2-1/2",
    ),
    (
        "[Result \"1/2-1/2\"] e4 1/2-1/2",
        ResultMark::WhiteWins,
        "",
        "[Result \"1-0\"] e4 1-0",
    ),
    (
        "[Result \"1-0\"] e4 1-0",
        ResultMark::Draw,
        "\n",
        "[Result \"1/2-1/2\"] e4 1/2-1/2",
    ),
    (
        "[Event \"1-0\"]\r\n[Result \"1-0\"]\r\n\r\n1. e4\r\n1-0",
        ResultMark::Unknown,
        "\r\n",
        "[Event \"1-0\"]\r\n[Result \"*\"]\r\n\r\n1. e4\r\n*",
    ),
    // the first tag pair of two, and the rest of a tag pair
    (
        "[Result \"1-0\"][Result \"1-0\"] 1-0",
        ResultMark::BlackWins,
        " ",
        "[Result \"0-1\"][Result \"1-0\"] 0-1",
    ),
    (
        "[ Result\t \"a\\\"]b\\\\\" ] *",
        ResultMark::BlackWins,
        " ",
        "[ Result\t \"0-1\" ] 0-1",
    ),
    // no tag pair of the name, and no result
    (
        "[result \"1-0\"] 1-0",
        ResultMark::Draw,
        "\n",
        "[result \"1-0\"] 1/2-1/2",
    ),
    (
        "1. e4 e5 0-1",
        ResultMark::WhiteWins,
        " 1. d4 *",
        "1. e4 e5 1-0",
    ),
    (
        "[Result \"1-0\"] e4",
        ResultMark::BlackWins,
        "\n\n[Event \"\"]",
        "[Result \"0-1\"] e4",
    ),
    ("e4 (1-0", ResultMark::BlackWins, "", "e4 (1-0"),
    // a star needs no space beside it
    ("1. e4*", ResultMark::WhiteWins, "\n", "1. e4 1-0"),
    ("1. e4 {}*", ResultMark::WhiteWins, "d4 *", "1. e4 {}1-0 "),
    ("1. e4*", ResultMark::Unknown, "d4 *", "1. e4*"),
    ("1. e4 1-0", ResultMark::BlackWins, "*", "1. e4 0-1"),
];

/// Asserts what is written.
fn gets(rt: &impl Abort, alloc: Global, row: &Row) {
    let (game, mark, behind, want) = *row;
    let mut text = Text::new(alloc);
    let put = put_with_mark(alloc, mark, game.as_bytes(), behind.as_bytes(), &mut text);
    put.expect(rt, "memory");
    assert_eq!(rt; text.items(), want.as_bytes(), "{game:?}");
}

#[test]
fn games_get_other_results(rt: HostRuntime) {
    for row in ROWS {
        gets(&rt, rt.alloc(), row);
    }
}
