//! Texts and their tokens, by the PGN standard and by the habits of real files.

use pgn_lex::{Placed, Token, tokens_of};
use std::alloc::Global;
use std::process::Abort;

/// Appends a text.
fn put(rt: &impl Abort, text: &mut Vec<u8>, more: &[u8]) {
    text.extend_from_slice(more).expect(rt, "memory");
}

/// Tokens, each with its offset, as `[White=Carlsen]@0 e4@20 (@23 BadTag@30`. A value that was cut has `+` behind it.
fn show_all(rt: &impl Abort, alloc: Global, found: &[Placed], text: &mut Vec<u8>) {
    for placed in found {
        show(rt, alloc, placed, text);
    }
}

fn show(rt: &impl Abort, alloc: Global, placed: &Placed, text: &mut Vec<u8>) {
    if !text.is_empty() {
        put(rt, text, b" ");
    }
    match &placed.token {
        Token::Tag { name, value, cut } => show_tag(rt, name.items(), value.items(), *cut, text),
        Token::Word(word) => put(rt, text, word.items()),
        token => put(rt, text, named(token)),
    }
    let offset = format!(in alloc; "@{}", placed.offset).expect(rt, "memory");
    put(rt, text, offset.as_bytes());
}

fn show_tag(rt: &impl Abort, name: &[u8], value: &[u8], cut: bool, text: &mut Vec<u8>) {
    put(rt, text, b"[");
    put(rt, text, name);
    put(rt, text, b"=");
    put(rt, text, value);
    put(rt, text, if cut { b"+]" } else { b"]" });
}

fn named(token: &Token) -> &'static [u8] {
    match token {
        Token::BadTag => b"BadTag",
        Token::Star => b"*",
        Token::Enter => b"(",
        Token::Leave => b")",
        Token::Bad => b"Bad",
        Token::Unclosed => b"Unclosed",
        _ => b"",
    }
}

/// Asserts the tokens of a text.
fn has_tokens(rt: &impl Abort, alloc: Global, text: &[u8], want: &[u8]) {
    let found = tokens_of(alloc, text).expect(rt, "memory");
    let mut told = Vec::new(alloc);
    show_all(rt, alloc, found.as_slice(), &mut told);
    assert!(rt; told.as_slice() == want, "{text:?}");
}

/// Comments and skipped lines.
const COMMENTS: &[(&str, &str)] = &[
    ("", ""),
    ("{a}", ""),
    ("{} {}", ""),
    ("{a{b}c}", "c@5 Bad@6"),
    ("{a ; b} e4", "e4@8"),
    ("; a {b\n e4 }", "e4@8 Bad@11"),
    ("e4 ; rest", "e4@0"),
    (";\re4", "e4@2"),
    (";\r\ne4", "e4@3"),
    ("{a\nb\r\n%c}d5", "d5@9"),
    ("{[Event \"x\"]}", ""),
    ("{\"}\"}", "Bad@3 Bad@4"),
    ("{é} e4", "e4@5"),
    ("{a", "Unclosed@0"),
    ("e4 {", "e4@0 Unclosed@3"),
    ("e4 {x} {y", "e4@0 Unclosed@7"),
    ("%a b\ne4", "e4@5"),
    ("e4\n%x\nd5", "e4@0 d5@6"),
    ("e4\r%x\rd5", "e4@0 d5@6"),
    ("e4\r\n%x\r\nd5", "e4@0 d5@8"),
    ("e4 %x d5", "e4@0 Bad@3 x@4 d5@6"),
    (" %x", "Bad@1 x@2"),
    ("%", ""),
    ("%%\n%", ""),
    ("%{\n}", "Bad@3"),
    ("{a}%b", "Bad@3 b@4"),
    ("{a\n}%b", "Bad@4 b@5"),
];

/// Words, numbers and annotations.
const WORDS: &[(&str, &str)] = &[
    ("1. e4 e5", "e4@3 e5@6"),
    ("1.e4 e5", "e4@2 e5@5"),
    ("1...e5", "e5@4"),
    ("12.Nf3", "Nf3@3"),
    ("1", ""),
    ("1e4", "1e4@0"),
    ("e4!?", "e4!?@0"),
    ("e4 !? ? 5!", "e4@0 5!@8"),
    ("e4! $5 e5", "e4!@0 e5@7"),
    ("$139", ""),
    ("$ 5", "Bad@0"),
    ("$x", "Bad@0 x@1"),
    ("$5x", "x@2"),
    ("$$1", "Bad@0"),
    ("O-O-O+ 0-0", "O-O-O+@0 0-0@7"),
    ("e8=Q# Nbxd7", "e8=Q#@0 Nbxd7@6"),
    ("1-0 1/2-1/2 *", "1-0@0 1/2-1/2@4 *@12"),
    ("e4*e5", "e4@0 *@2 e5@3"),
    ("a:b_c --", "a:b_c@0 --@6"),
    (
        "(e4) (e5 (d5))",
        "(@0 e4@1 )@3 (@5 e5@6 (@9 d5@10 )@12 )@13",
    ),
    ("e8(Q)", "e8@0 (@2 Q@3 )@4"),
];

/// Tag pairs, and what is none.
const TAGS: &[(&str, &str)] = &[
    ("[White \"Carlsen\"]", "[White=Carlsen]@0"),
    ("[White\"Carlsen\"]", "[White=Carlsen]@0"),
    ("[ \tWhite \t \"C\" \t]", "[White=C]@0"),
    ("[A \"\"]", "[A=]@0"),
    ("[1_a \"b\"]", "[1_a=b]@0"),
    ("[A \"b\"][C \"d\"]", "[A=b]@0 [C=d]@7"),
    ("e4 [A \"b\"]", "e4@0 [A=b]@3"),
    ("[A \"b\"] e4 *\r\n[C \"d\"]", "[A=b]@0 e4@8 *@11 [C=d]@14"),
    ("[A \"[x] {y} (z) ; %\"]", "[A=[x] {y} (z) ; %]@0"),
    ("[A \"é\"]", "[A=é]@0"),
    ("[A \"x\u{0}y\"]", "[A=x\u{0}y]@0"),
    ("[A \"\\\"x\\\"\"]", "[A=\"x\"]@0"),
    ("[A \"a\\\\b\"]", "[A=a\\b]@0"),
    ("[A \"a\\b\"]", "[A=a\\b]@0"),
    ("[A \"a\\\\\"]", "[A=a\\]@0"),
    ("[A \"\\\\\\\"\"]", "[A=\\\"]@0"),
    ("[A \"a\\\"]", "BadTag@0"),
    ("[A \"b\nc\"] e4", "BadTag@0 c@6 Bad@7 Bad@8 e4@10"),
    ("[A \"b\\\nc", "BadTag@0 c@7"),
    ("[A \"b\"\r]", "BadTag@0 Bad@7"),
    ("[A\n\"b\"]", "BadTag@0 Bad@3 b@4 Bad@5 Bad@6"),
    ("[A-B \"c\"] e4", "BadTag@0"),
    ("[\"c\"]", "BadTag@0"),
    ("[[A \"b\"]]", "BadTag@0"),
    ("[A b]", "BadTag@0"),
    ("[", "BadTag@0"),
    ("[A \"b\"", "BadTag@0"),
    ("[A \"b\" c] e4\n*", "BadTag@0 *@13"),
    ("1. e4 [%clk 0:01] e5\n*", "e4@3 BadTag@6 *@21"),
];

/// Bytes that begin nothing.
const BYTES: &[(&[u8], &str)] = &[
    (b"]}\"", "Bad@0 Bad@1 Bad@2"),
    (b"e4,<e5>", "e4@0 Bad@2 Bad@3 e5@4 Bad@6"),
    (b"e4\0e5", "e4@0 Bad@2 e5@3"),
    (b"\0\0", "Bad@0 Bad@1"),
    (b"\x80e4\xFF", "Bad@0 e4@1 Bad@3"),
    (b"\t\x0B\x0C .e4", "e4@5"),
    (b"\x08\x0E", "Bad@0 Bad@1"),
    (b"\xEF", "Bad@0"),
    (b"\xEF\xBB", "Bad@0 Bad@1"),
    (b"\xEF\xBB\xBF", ""),
    (b"\xEF\xBB\xBF\xEF\xBB\xBF", "Bad@3 Bad@4 Bad@5"),
    (b" \xEF\xBB\xBF", "Bad@1 Bad@2 Bad@3"),
    (b"\xEF\xBB\xBF%x\n*", "*@6"),
    (b"\xEF\xBB\xBF[A \"b\"]", "[A=b]@3"),
];

/// Asserts the tokens of each text of a table.
fn have_tokens(rt: &impl Abort, alloc: Global, table: &[(&str, &str)]) {
    for (text, want) in table {
        has_tokens(rt, alloc, text.as_bytes(), want.as_bytes());
    }
}

#[test]
fn texts_have_their_tokens(rt: HostRuntime) {
    have_tokens(&rt, rt.alloc(), COMMENTS);
    have_tokens(&rt, rt.alloc(), WORDS);
    have_tokens(&rt, rt.alloc(), TAGS);
    for (text, want) in BYTES {
        has_tokens(&rt, rt.alloc(), text, want.as_bytes());
    }
}

/// A long text: each part as often as it says.
type Long = &'static [(&'static str, usize)];

/// Texts that are longer than is kept of them, and their tokens: 255 bytes of a word and of a name, 4,096 of a value. Of a
/// word whose first 255 bytes are digits these are kept, so that it is a number.
const LONG: &[(Long, Long)] = &[
    (&[("a", 255), (" *", 1)], &[("a", 255), ("@0 *@256", 1)]),
    (&[("a", 256), (" *", 1)], &[("a", 255), ("@0 *@257", 1)]),
    (
        &[("a", 10_000), (" *", 1)],
        &[("a", 255), ("@0 *@10001", 1)],
    ),
    (&[("7", 255), ("a *", 1)], &[("*@257", 1)]),
    (
        &[("[", 1), ("a", 255), (" \"v\"]", 1)],
        &[("[", 1), ("a", 255), ("=v]@0", 1)],
    ),
    (
        &[("[", 1), ("a", 256), (" \"v\"]", 1)],
        &[("[", 1), ("a", 255), ("=v]@0", 1)],
    ),
    (
        &[("[A \"", 1), ("v", 4096), ("\"]", 1)],
        &[("[A=", 1), ("v", 4096), ("]@0", 1)],
    ),
    (
        &[("[A \"", 1), ("v", 4097), ("\"]", 1)],
        &[("[A=", 1), ("v", 4096), ("+]@0", 1)],
    ),
    (
        &[("[A \"", 1), ("\\\"", 4096), ("\"]", 1)],
        &[("[A=", 1), ("\"", 4096), ("]@0", 1)],
    ),
    (
        &[("[A \"", 1), ("\\\\", 4097), ("\"]", 1)],
        &[("[A=", 1), ("\\", 4096), ("+]@0", 1)],
    ),
];

fn long_text(rt: &impl Abort, alloc: Global, long: Long) -> Vec<u8> {
    let mut text = Vec::new(alloc);
    for (part, count) in long {
        for _part in 0..*count {
            put(rt, &mut text, part.as_bytes());
        }
    }
    text
}

#[test]
fn long_words_names_and_values_are_cut(rt: HostRuntime) {
    for (long, want) in LONG {
        let text = long_text(&rt, rt.alloc(), long);
        let want = long_text(&rt, rt.alloc(), want);
        has_tokens(&rt, rt.alloc(), text.as_slice(), want.as_slice());
    }
}
