//! Who works ahead, and checks certificates.

ghost use Rattle.std.specs.Prelude.{◌≡◌, ◌≤◌, ◌<◌, ◌^◌, ◌↔◌, length, IfOk};
ghost use Rattle.cha_cert.specs.declared.checking.Checked.TheVariants.{Accepted};
ghost use Rattle.cha_cert.specs.Certificates.{IsValidCert, Answers};
ghost use Rattle.cha_cert.specs.Shared.{expansion};
ghost use Rattle.cha_outcome.specs.declared.questions.Question.{Question as Asked};
ghost use Rattle.side_by_side.specs.Progresses.{AreAsked, AllGoOn};
ghost use Rattle.side_by_side.specs.Parts.{items_of, IsAbout};

use crate::parts::{GoOn, Part, PartTask, advance_all, bell};
use crate::progress::Progress;
use cert_par::check_par;
use cha_board::{Color, Position};
use cha_cert::{Checked, SharedCert, check_shared};
use cha_list::NoMemory;
use cha_outcome::Question;
use helpmate_list::{OneByOne, Spread, Threaded};
use std::alloc::Global;
use std::mem::ManuallyDrop;
use std::snapshot::Snapshot;
use std::thread;
use std::thread::Threads;

/// A part of fewer items is not worth a thread.
const WORTH_A_THREAD: usize = 8;

/// Who works ahead on the items of a batch, before they are finished one after the other, and who checks the nodes of a certificate:
/// threads, or the one thread that asks.
pub trait Hands: Spread {
    ghost use Rattle.side_by_side.specs.declared.parts.Part.{Part};

    /// These hands can end the work on a part: they began it.
    ghost mine: { Part → Type 0 };

    /// How many parts may be worked on at a time, at least 1: just 1 where nobody works ahead. A part counts no more once the work on it
    /// has ended.
    fn most_parts(&self) -> usize
        ensures { 1 ≤ result };

    /// Lets somebody read each of these items, and judge it as far as that needs no crew. Where memory is refused or a crew is needed,
    /// an item stays as far as it has come.
    fn begin(&self, alloc: Global, question: &Question, items: Vec<Progress>) -> Part
        requires ready { Self.ready self.now }
        requires about { AreAsked question.now items.items }
        ensures size { length (items_of result) ≡ length items.items }
        ensures same { AllGoOn question.now items.items (items_of result) }
        ensures about { IsAbout question.now result }
        ensures mine { mine result };

    /// The items of a part, when nobody works on them any more.
    fn end(&self, part: Part) -> Vec<Progress>
        requires ready { Self.ready self.now }
        requires mine { mine part }
        ensures size { length result.items ≡ length (items_of part) }
        ensures same { (question : Asked) → IsAbout question part → AllGoOn question (items_of part) result.items };

    /// Checks that a shared certificate shows that no series of legal moves from a position mates for a side.
    fn check(
        &self,
        alloc: Global,
        position: &Position,
        winner: Color,
        cert: &SharedCert,
    ) -> Result<Checked, NoMemory>
        requires ready { Self.ready self.now }
        requires few { length cert.now.nodes < 2 ^ 32 }
        ensures answer { IfOk result (λ checked. Answers position.now winner (expansion cert.now) checked) }
        ensures accepted { IfOk result (λ checked. (checked ≡ Accepted) ↔ IsValidCert position.now winner (expansion cert.now)) };
}

impl Hands for OneByOne {
    ghost use Rattle.side_by_side.specs.Parts.{IsHere};

    ghost mine = { IsHere };

    fn most_parts(&self) -> usize {
        1
    }

    fn begin(&self, _alloc: Global, _question: &Question, items: Vec<Progress>) -> Part {
        Part::Here(items)
    }

    fn end(&self, part: Part) -> Vec<Progress> {
        match part {
            Part::Here(items) => items,
            Part::There(_) => unreachable!(),
        }
    }

    fn check(
        &self,
        alloc: Global,
        position: &Position,
        winner: Color,
        cert: &SharedCert,
    ) -> Result<Checked, NoMemory> {
        check_shared(alloc, position, winner, cert)
    }
}

impl<'a, R: Threads + Sync> Hands for Threaded<'a, R> {
    ghost mine = { λ _. Unit {0} };

    fn most_parts(&self) -> usize {
        self.most.max(1) as usize
    }

    fn begin(&self, alloc: Global, question: &Question, items: Vec<Progress>) -> Part {
        if items.len() < WORTH_A_THREAD {
            return Part::Here(items);
        }
        let promise = GoOn {
            question: *question,
            items: Snapshot::of(&items),
        };
        let asked = *question;
        let (theirs, told) = bell(alloc);
        let work = move ||
            requires { AreAsked asked items.items }
            ensures { (length result.items ≡ length items.items) × AllGoOn asked items.items result.items }
        { advance_all(alloc, asked, items, theirs) };
        match thread::spawn_with(self.rt, promise, work) {
            Ok(handle) => Part::There(ManuallyDrop::new(PartTask { handle, told })),
            Err(refused) => Part::Here((refused.value)()),
        }
    }

    fn end(&self, part: Part) -> Vec<Progress> {
        match part {
            Part::Here(items) => items,
            Part::There(task) => {
                let PartTask { handle, told } = ManuallyDrop::into_inner(task);
                drop(told);
                handle.join(self.rt)
            }
        }
    }

    fn check(
        &self,
        alloc: Global,
        position: &Position,
        winner: Color,
        cert: &SharedCert,
    ) -> Result<Checked, NoMemory> {
        check_par(self.rt, alloc, position, winner, cert)
    }
}
