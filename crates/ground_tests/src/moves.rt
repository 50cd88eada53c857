//! The opening and the fool's mate: lists, texts, positions and standings against what the Laws give.

ghost use Rattle.std.specs.Prelude.{◌<◌};

use cha_board::{Color, Position, Square};
use cha_list::Text;
use cha_moves::{Move, Standing, after, is_legal, legal, mating_move, move_text, replays, state};
use std::test::Fail;

/// The move between the squares of two numbers, without a promotion.
fn from_to(from: u8, to: u8) -> Move
    requires from { from < 64 }
    requires to { to < 64 }
{
    Move {
        from: Square::at(from),
        to: Square::at(to),
        promotion: None,
    }
}

#[test]
fn the_opening_has_twenty_moves_in_order(rt: HostRuntime) -> Result<(), Fail> {
    let alloc = rt.alloc();
    let mut texts = Text::new(alloc);
    for m in &legal(alloc, &Position::start())? {
        texts.append(move_text(*m).as_str().as_bytes())?;
        texts.append(b" ")?;
    }
    let want =
        "b1a3 b1c3 g1f3 g1h3 a2a3 a2a4 b2b3 b2b4 c2c3 c2c4 d2d3 d2d4 e2e3 e2e4 f2f3 f2f4 g2g3 g2g4 h2h3 h2h4 ";
    assert_eq!(rt; texts.items(), want.as_bytes());
    Ok(())
}

#[test]
fn the_fools_mate_wins_for_black(rt: HostRuntime) {
    let opening = Position::start();
    let last = from_to(59, 31);
    let line = [from_to(13, 21), from_to(52, 36), from_to(14, 30), last];
    let mut now = opening;
    for m in &line {
        assert!(rt; state(&now) == Standing::Running);
        assert!(rt; is_legal(&now, *m));
        let mates = if *m == last { Some(last) } else { None };
        assert!(rt; mating_move(&now, Color::Black) == mates);
        assert!(rt; mating_move(&now, Color::White).is_none());
        now = after(&now, *m);
    }
    assert!(rt; state(&now) == Standing::Mate(Color::Black));
    assert!(rt; replays(&opening, Color::Black, &line));
    assert!(rt; !replays(&opening, Color::White, &line));
    assert!(rt; !replays(&opening, Color::Black, &line[..3]));
}
