//! What true verdicts cannot miss, and what a sound scan shows.

ghost use Rattle.std.specs.Prelude.{◌≡◌, ◌-◌, List, length, Some, slice_get};
ghost use Rattle.cha_board.specs.declared.men.Color.{Color};
ghost use Rattle.cha_board.specs.Board.{Board, IsValid};
ghost use Rattle.cha_verdict.specs.declared.decisions.Decision.{Decision};
ghost use Rattle.cha_moves.specs.Dead.{IsDead, ArePlayed};
ghost use Rattle.cha_verdict.specs.declared.scans.Scan.{Scan};
ghost use Rattle.cha_limits.specs.Bounds.{Bounds};
ghost use Rattle.cha_verdict.specs.Sound.{IsSound, IsComplete, verdict_on};
ghost use Rattle.cha_verdict.specs.Scans.{IsSoundScan, ShowsDead};

/// The law: true verdicts miss no mate within two plies and no side that is shown unable to mate without a search, and leave
/// undecided only positions from which at least as many distinct ones as the budget can be reached.
pub fn sound_is_complete()
    ensures { (q : Board) (first : Color) (limits : Bounds) (d : Decision) → IsValid q → IsSound q first limits d → (winner : Color) → IsComplete q winner limits (verdict_on d winner) }
{}

/// The law: where the last position of a game is dead, each position from the ply of a sound scan on is dead too, and unless the
/// edge is unclear, none before it is (Laws of Chess, Article 5.2.2).
pub fn sound_scan_shows()
    ensures { (qs : List Board) (first : Color) (limits : Bounds) (scan : Scan) → ArePlayed qs → ((q : Board) → slice_get qs (length qs - 1) ≡ Some q → IsDead q) → IsSoundScan qs first limits scan → ShowsDead qs scan }
{}
