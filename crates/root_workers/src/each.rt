//! A call at each value of a list, in threads that are all made by the caller.

ghost use Rattle.std.specs.Prelude.{ℕ, ◌+◌, ◌<◌, ◌^◌, length, slice_index_or};
ghost use denote.Param.Send.{IsSync, IsSend};
ghost use Rattle.std.specs.Fork.{AcceptsAt, ChangesAt, AcceptsEach, ChangesEach};

use std::thread::{Threads, join_mut};

/// Calls `f(i, &mut s[i])` at each place, each but the last in a thread of its own where one can be made. The caller makes
/// them all, one after the other: where new threads made others, four of them took longer on one of two machines that were
/// measured, and as long on the other.
pub(crate) fn each_mut<R: Threads + Sync, T: Send, F: Fn(usize, &mut T) + Sync>(
    rt: &R,
    s: &mut [T],
    f: &F,
)
    requires accepts { AcceptsEach F.Fn f.now s.old }
    ensures { ChangesEach F.Fn f.now s.old s.new }
{
    each_from(rt, f, 0, s);
}

// The values at the places from `from` on.
#[cycle(each)]
fn each_from<R: Threads + Sync, T: Send, F: Fn(usize, &mut T) + Sync>(
    rt: &R,
    f: &F,
    from: usize,
    s: &mut [T],
)
    requires room { from + length s.old < 2 ^ 64 }
    requires accepts { (k : ℕ) (d : T) → k < length s.old → AcceptsAt F.Fn f.now (from + k) (slice_index_or s.old k d) }
    ensures { (k : ℕ) (d : T) → k < length s.old → ChangesAt F.Fn f.now (from + k) (slice_index_or s.old k d) (slice_index_or s.new k d) }
{
    let Some((first, rest)) = s.split_first_mut() else {
        return;
    };
    if rest.is_empty() {
        at_one(f, from, first);
        return;
    }
    both(rt, f, from, first, rest);
}

// The first of them in a new thread, and those behind it in threads that this one makes.
#[cycle(each)]
fn both<R: Threads + Sync, T: Send, F: Fn(usize, &mut T) + Sync>(
    rt: &R,
    f: &F,
    from: usize,
    first: &mut T,
    rest: &mut [T],
)
    requires room { from + 1 + length rest.old < 2 ^ 64 }
    requires first { AcceptsAt F.Fn f.now from first.old }
    requires rest { (k : ℕ) (d : T) → k < length rest.old → AcceptsAt F.Fn f.now (from + 1 + k) (slice_index_or rest.old k d) }
    ensures first { ChangesAt F.Fn f.now from first.old first.new }
    ensures rest { (k : ℕ) (d : T) → k < length rest.old → ChangesAt F.Fn f.now (from + 1 + k) (slice_index_or rest.old k d) (slice_index_or rest.new k d) }
{
    let next = from + 1;
    let mut there = ||
        requires { AcceptsAt F.Fn f.now from first.now }
        ensures { ChangesAt F.Fn f.entry.now from first.entry.now first.exit.now }
    { at_one(f, from, first) };
    let mut here = ||
        requires { IsSync R.row × IsSync F.row × IsSend T.row × (next + length rest.now < 2 ^ 64) × ((k : ℕ) (d : T) → k < length rest.now → AcceptsAt F.Fn f.now (next + k) (slice_index_or rest.now k d)) }
        ensures { (k : ℕ) (d : T) → k < length rest.entry.now → ChangesAt F.Fn f.entry.now (next + k) (slice_index_or rest.entry.now k d) (slice_index_or rest.exit.now k d) }
    { each_from(rt, f, next, rest) };
    join_mut(rt, &mut there, &mut here);
}

fn at_one<T, F: Fn(usize, &mut T)>(f: &F, i: usize, it: &mut T)
    requires { AcceptsAt F.Fn f.now i it.old }
    ensures { ChangesAt F.Fn f.now i it.old it.new }
{
    f(i, it);
}
