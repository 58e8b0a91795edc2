// Sets of waiting joins, pended times and tracked times.
ghost use Rattle.std.specs.Prelude.{[], ◌∷◌, ◌++◌, map, ◌≡◌, ◌≤◌, length, take};
ghost use Rattle.grid.specs.Times.{joined, puts};
ghost use Rattle.times.specs.Meets.{optional};
ghost use Rattle.joins.specs.Sets.{Set, Put, Made};

use advances::advance_times;
use distinct::{insert_distinct, sort_distinct};
use times::{PackedTime, is_beyond};

// The most moments, waiting joins and pended times of a key.
pub const MOST_MOMENTS: usize = 1024;

// How many times wait, and how many are pended.
#[derive(Clone, Copy)]
pub struct Counts {
    pub waiting: usize,
    pub pended: usize,
}

// Puts t into a set that has not passed the limit.
pub fn put_time(s: &mut [u64], count: usize, t: PackedTime) -> usize
    requires { Set s.old count }
    ensures { Put t.0 s.old count s.new result }
{
    if count > MOST_MOMENTS {
        count
    } else {
        insert_distinct(s, count, t)
    }
}

// The join of n with t, if t is not at or below n: pended if it is beyond upper, else it waits.
fn join_one(
    upper: &[u64],
    n: PackedTime,
    t: PackedTime,
    waiting: &mut [u64],
    pended: &mut [u64],
    counts: Counts,
) -> Counts
    requires { Set waiting.old counts.waiting × Set pended.old counts.pended }
    ensures { (Set waiting.new result.waiting × Set pended.new result.pended) × Made upper.now n.0 (t.0 ∷ []) (take counts.waiting waiting.old) (take result.waiting waiting.new) (take counts.pended pended.old) (take result.pended pended.new) }
{
    if t.below(n) {
        return counts;
    }
    let j = n.join(t);
    if is_beyond(upper, j) {
        Counts {
            pended: put_time(pended, counts.pended, j),
            ..counts
        }
    } else {
        Counts {
            waiting: put_time(waiting, counts.waiting, j),
            ..counts
        }
    }
}

// The joins of n with the times of a buffer, the last first.
fn join_all(
    upper: &[u64],
    n: PackedTime,
    buffer: &[u64],
    waiting: &mut [u64],
    pended: &mut [u64],
    counts: Counts,
) -> Counts
    requires { Set waiting.old counts.waiting × Set pended.old counts.pended }
    ensures { (Set waiting.new result.waiting × Set pended.new result.pended) × Made upper.now n.0 buffer.now (take counts.waiting waiting.old) (take result.waiting waiting.new) (take counts.pended pended.old) (take result.pended pended.new) }
{
    let mut c = counts;
    for i in (0..buffer.len()).rev() {
        c = join_one(upper, n, PackedTime(buffer[i]), waiting, pended, c);
    }
    c
}

// The joins of n with the first times of two buffers, those with the second first.
pub fn join_both(
    upper: &[u64],
    n: PackedTime,
    first: &[u64],
    fcount: usize,
    second: &[u64],
    scount: usize,
    waiting: &mut [u64],
    pended: &mut [u64],
    counts: Counts,
) -> Counts
    requires { (Set waiting.old counts.waiting × Set pended.old counts.pended) × ((fcount ≤ length first.now) × (scount ≤ length second.now)) }
    ensures { (Set waiting.new result.waiting × Set pended.new result.pended) × Made upper.now n.0 (take fcount first.now ++ take scount second.now) (take counts.waiting waiting.old) (take result.waiting waiting.new) (take counts.pended pended.old) (take result.pended pended.new) }
{
    let c = join_all(upper, n, &second[..scount], waiting, pended, counts);
    join_all(upper, n, &first[..fcount], waiting, pended, c)
}

// Joins the tracked times with the meet, if there is one, and removes equals. Returns how many are left.
pub fn retrack(m: Option<PackedTime>, tracked: &mut [u64], count: usize, work: &mut [u64]) -> usize
    requires { (count ≤ length tracked.old) × (count ≤ length work.old) }
    ensures { (result ≤ count) × (take result tracked.new ≡ puts (map (joined (optional m)) (take count tracked.old)) []) }
{
    if count == 0 {
        return 0;
    }
    match m {
        Some(p) => advance_times(tracked, count, Some(p), work),
        None => sort_distinct(&mut tracked[..count], &mut work[..count]),
    }
}
