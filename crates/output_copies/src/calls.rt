// Calls of closures, beside each other.
ghost use Rattle.std.specs.Prelude.{◌≡◌, ◌+◌, ◌<◌, ◌^◌, length, slice_index_or};
ghost use Rattle.std.specs.Fork.{AcceptsAt, AcceptsEach, ChangesAt, ChangesEach};
ghost use Rattle.std.specs.Thread.{IsSend, IsSync};
ghost use Rattle.output_copies.specs.Calls.{Accepts, AcceptsFrom, Changes, ChangesAll, ChangesOne};

use std::thread::{Threads, join_mut};

fn call<T, F: Fn(&mut T)>(f: &F, it: &mut T)
    requires { Accepts F.Fn f.now it.old }
    ensures { Changes F.Fn f.now it.old it.new }
{
    f(it);
}

/// Calls a closure at a value in a new thread, and another closure at another value in this one. Where no thread can be
/// started the second is called first, and then the first. `T` and `U` may hold references: what a closure captures
/// beside a `&mut` to them would be lost.
pub fn at_once<R: Threads, T: Send, U, F: Fn(&mut T) + Sync, G: Fn(&mut U)>(
    rt: &R,
    f: &F,
    there: &mut T,
    g: &G,
    here: &mut U,
)
    requires there { Accepts F.Fn f.now there.old }
    requires here { Accepts G.Fn g.now here.old }
    ensures there { Changes F.Fn f.now there.old there.new }
    ensures here { Changes G.Fn g.now here.old here.new }
{
    let mut one = ||
        requires { IsSync F.row × IsSend T.row × Accepts F.Fn f.now there.now }
        ensures { Changes F.Fn f.entry.now there.entry.now there.exit.now }
    { call(f, there) };
    let mut other = ||
        requires { Accepts G.Fn g.now here.now }
        ensures { Changes G.Fn g.entry.now here.entry.now here.exit.now }
    { call(g, here) };
    join_mut(rt, &mut one, &mut other);
}

fn call_at<T, F: Fn(usize, &mut T)>(f: &F, at: usize, it: &mut T)
    requires { AcceptsAt F.Fn f.now at it.old }
    ensures { ChangesAt F.Fn f.now at it.old it.new }
{
    f(at, it);
}

// Calls a closure at the one value of a list, which has this number.
fn call_first<T, F: Fn(usize, &mut T)>(f: &F, from: usize, one: &mut [T])
    requires one { length one.old ≡ 1 }
    requires accepts { (d : T) → AcceptsAt F.Fn f.now from (slice_index_or one.old 0 d) }
    ensures { ChangesOne F.Fn f.now from one.old one.new }
{
    call_at(f, from, &mut one[0]);
}

// Calls a closure at one value in a new thread, and at each of the others, of which the first has the number `next`,
// from this one. In each call the list comes last: what a closure reads behind a list that it lends would be lost.
#[cycle(each)]
fn one_and_others<R: Threads + Sync, T: Send, F: Fn(usize, &mut T) + Sync>(
    rt: &R,
    f: &F,
    from: usize,
    one: &mut [T],
    next: usize,
    others: &mut [T],
)
    requires one { length one.old ≡ 1 }
    requires some { 0 < length others.old }
    requires few { next + length others.old < 2 ^ 64 }
    requires front { (d : T) → AcceptsAt F.Fn f.now from (slice_index_or one.old 0 d) }
    requires back { AcceptsFrom F.Fn f.now next others.old }
    ensures front { ChangesOne F.Fn f.now from one.old one.new }
    ensures back { ChangesAll F.Fn f.now next others.old others.new }
{
    let mut front = ||
        requires { IsSync F.row × IsSend T.row × (length one.now ≡ 1) ×
            ((d : T) → AcceptsAt F.Fn f.now from (slice_index_or one.now 0 d)) }
        ensures { ChangesOne F.Fn f.entry.now from one.entry.now one.exit.now }
    { call_first(f, from, one) };
    let mut back = ||
        requires { IsSync R.row × IsSync F.row × IsSend T.row × (0 < length others.now) ×
            (next + length others.now < 2 ^ 64) × AcceptsFrom F.Fn f.now next others.now }
        ensures { ChangesAll F.Fn f.entry.now next others.entry.now others.exit.now }
    { each_from(rt, f, next, others) };
    join_mut(rt, &mut front, &mut back);
}

// Calls a closure at each value of a list, of which the first has the number `from`, beside each other.
#[cycle(each)]
fn each_from<R: Threads + Sync, T: Send, F: Fn(usize, &mut T) + Sync>(
    rt: &R,
    f: &F,
    from: usize,
    values: &mut [T],
)
    requires some { 0 < length values.old }
    requires few { from + length values.old < 2 ^ 64 }
    requires accepts { AcceptsFrom F.Fn f.now from values.old }
    ensures { ChangesAll F.Fn f.now from values.old values.new }
{
    let count = values.len();
    if count == 1 {
        call_first(f, from, values);
        return;
    }
    let (one, others) = values.split_at_mut(1);
    one_and_others(rt, f, from, one, from + 1, others);
}

/// Calls a closure at each value of a list, with its number, which counts from 0 on, beside each other: each but the
/// last in a new thread, where one can be started. All threads are begun by the one that calls: one that has only just
/// begun would begin the next late, by up to a tick of the system's clock.
pub fn each_at_once<R: Threads + Sync, T: Send, F: Fn(usize, &mut T) + Sync>(
    rt: &R,
    f: &F,
    values: &mut [T],
)
    requires some { 0 < length values.old }
    requires accepts { AcceptsEach F.Fn f.now values.old }
    ensures count { length values.new ≡ length values.old }
    ensures changes { ChangesEach F.Fn f.now values.old values.new }
{
    each_from(rt, f, 0, values);
}
