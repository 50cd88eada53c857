//! Passes that take turns at a sum: in threads beside busy ones, with one still out, and split off and taken back many times.

ghost use Rattle.std.specs.Prelude.{◌≡◌, ◌+◌, ◌^◌, ◌%◌};
ghost use Rattle.turn_cell.specs.Passes.{number, splits, IsOf, IsFirst};

use crate::busy::Busy;
use std::rt::HostRuntime;
use std::sync::Wait;
use std::sync::atomic::{AtomicU64, Ordering};
use std::thread;
use turn_cell::{Object, Pass, Still, TurnCell};

// A sum. A call adds a number, and the reply is the sum then.
struct Sum {
    total: u64,
}

impl Object for Sum {
    type Call = u64;

    type Reply = u64;

    ghost step = { λ old call reply new. (new.total ≡ (old.total + call) % 2 ^ 64) × (reply ≡ new.total) };

    fn apply(&mut self, call: u64) -> u64 {
        self.total = self.total.wrapping_add(call);
        self.total
    }
}

impl Drop for Sum {
    fn drop(self) {
        let Sum { total: _ } = self;
    }
}

// Adds one, fifty thousand times and until another pass has added something too; then adds the sum of the replies to `replies`.
fn add_beside_another<R: Wait>(
    rt: &R,
    cell: &TurnCell<Sum>,
    mut pass: Pass<Sum>,
    replies: &AtomicU64,
) -> Pass<Sum>
    requires { IsOf cell.now pass }
    ensures { IsOf cell.now result × (number result ≡ number pass) }
{
    let mut own = 0u64;
    let mut sum = 0u64;
    for _ in rt.forever() {
        let total = cell.turn(rt, &mut pass, 1);
        own = own.wrapping_add(1);
        sum = sum.wrapping_add(total);
        if 50_000 <= own && own < total {
            replies.fetch_add(sum, Ordering::SeqCst);
            return pass;
        }
    }
    unreachable!()
}

// Splits a pass off, adds a number with it and takes it back, for each number from 0 to 99.
fn split_and_join<R: Wait>(rt: &R, cell: &TurnCell<Sum>, mut first: Pass<Sum>) -> Pass<Sum>
    requires { IsOf cell.now first × IsFirst first × (splits first ≡ 0) }
    ensures { IsOf cell.now result × IsFirst result }
{
    for number in 0..100 {
        let mut other = cell.split(&mut first);
        cell.turn(rt, &mut other, number);
        cell.join(&mut first, other);
    }
    first
}

// While a thread for each processor is busy, passes are stopped in the middle of turns and while they wait. Neither ends before
// the other has had a turn, and each sum from 1 on is one reply to one of them.
#[test]
fn two_threads_take_turns_beside_busy_ones(rt: HostRuntime) {
    let Ok((cell, mut first)) = TurnCell::new(rt.alloc(), Sum { total: 0 }) else {
        panic!(rt; "no memory");
    };
    let second = cell.split(&mut first);
    let busy = Busy::start(&rt, rt.alloc()).expect(&rt, "threads");
    let replies = AtomicU64::new(0);
    let (mut first, second) = thread::join(
        &rt,
        || add_beside_another(&rt, &cell, first, &replies),
        || add_beside_another(&rt, &cell, second, &replies),
    );
    assert!(rt; busy.end(&rt));
    cell.join(&mut first, second);
    match cell.close(first) {
        Ok(sum) => {
            assert!(rt; 100_000 <= sum.total);
            let all = sum.total.wrapping_mul(sum.total.wrapping_add(1)) / 2;
            assert_eq!(rt; replies.load(Ordering::SeqCst), all);
        }
        Err(_) => panic!(rt; "a pass is still out"),
    }
}

#[test]
fn a_cell_with_a_pass_still_out_is_handed_back(rt: HostRuntime) {
    let Ok((cell, mut first)) = TurnCell::new(rt.alloc(), Sum { total: 5 }) else {
        panic!(rt; "no memory");
    };
    let mut second = cell.split(&mut first);
    assert_eq!(rt; cell.turn(&rt, &mut second, 2), 7);
    assert_eq!(rt; first.others(), 1);
    let Err(still) = cell.close(first) else {
        panic!(rt; "closed with a pass still out");
    };
    let Still {
        cell,
        pass: mut first,
        passes,
    } = still;
    assert_eq!(rt; passes, 2);
    cell.join(&mut first, second);
    match cell.close(first) {
        Ok(sum) => assert_eq!(rt; sum.total, 7),
        Err(_) => panic!(rt; "a pass is still out"),
    }
}

#[test]
fn a_hundred_passes_come_and_go(rt: HostRuntime) {
    let Ok((cell, first)) = TurnCell::new(rt.alloc(), Sum { total: 0 }) else {
        panic!(rt; "no memory");
    };
    let first = split_and_join(&rt, &cell, first);
    assert_eq!(rt; first.splits(), 100);
    match cell.close(first) {
        Ok(sum) => assert_eq!(rt; sum.total, 4950),
        Err(_) => panic!(rt; "a pass is still out"),
    }
}
