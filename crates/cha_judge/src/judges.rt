//! What a judge is.

ghost use Rattle.std.specs.Prelude.{◌≡◌, IfOk, IfErr};
ghost use Rattle.cha_outcome.specs.Outcomes.{Answers, CanBeAsked, IsPrintableOutcome};

use cha_outcome::{Item, Outcome, Question};
use std::alloc::Global;

/// A judge: it answers one question about each item, with workers of its own.
pub trait Judge {
    ghost use Rattle.cha_outcome.specs.declared.questions.Question.{Question};

    /// It may judge.
    ghost ready: { Self → Type 0 };

    /// What is asked about each item.
    ghost question: { Self → Question };

    /// From one state to a later one it did nothing but judge: its workers are those that it had, with what they did since.
    ghost worked: { Self → Self → Type 0 };

    /// What is asked about each item.
    fn question(&self) -> Question
        ensures { result ≡ question self.now };

    /// What is found about an item, which the outcome holds. Where memory was refused, the item comes back.
    fn judge(&mut self, alloc: Global, item: Item) -> Result<Outcome, Item>
        requires ready { ready self.old }
        requires asked { CanBeAsked (question self.old) item }
        ensures stays_ready { ready self.new }
        ensures worked { worked self.old self.new }
        ensures same_question { question self.new ≡ question self.old }
        ensures answers { IfOk result (Answers (question self.old) item) }
        ensures printable { IfOk result IsPrintableOutcome }
        ensures back { IfErr result (λ back. back ≡ item) };

    /// Where nothing is judged, no work is done.
    ghost none_worked: { (s : Self) → worked s s };

    /// The work of two times, one after the other, is the work of both.
    ghost both_worked: { (a b c : Self) → worked a b → worked b c → worked a c };
}
