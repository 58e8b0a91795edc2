// TimeHistory: replays times in ascending order.
ghost use Rattle.std.proofs.Math.Option.{none};
ghost use Rattle.std.specs.Prelude.{◌≡◌, ◌≤◌, eqb, leb, length, take, drop};
ghost use Rattle.grid.specs.Times.{join, meets};
ghost use Rattle.grid.specs.Slices.{laid};
ghost use Rattle.times.specs.Meets.{optional};
ghost use Rattle.rules.specs.Histories.{load_times, suffix_meets};
ghost use Rattle.histories.specs.Advances.{Advanced, Advances};
ghost use Rattle.histories.specs.Loads.{Loads};
ghost use Rattle.histories.specs.Places.{Placed, Steps};
ghost use Rattle.histories.specs.Suffixes.{first_of, Suffixes};

use crate::columns::{copy_joined, end_of_equal, end_through, is_ascending, join_each, move_down};
use crate::{Place, Stepped};
use distinct::sort_distinct;
use sorting::sort_times;
use times::{PackedTime, meet_onto};

// Loads times, each joined with the meet if there is one, in ascending order. The work slice holds the same afterwards.
pub fn load_times(m: Option<PackedTime>, src: &[u64], times: &mut [u64], work: &mut [u64])
    requires { (length src.now ≤ length times.old) × (length src.now ≤ length work.old) }
    ensures { Loads (load_times (optional m) src.now) times.old work.old times.new work.new }
{
    let n = src.len();
    copy_joined(m, src, times);
    sort_times(&mut times[..n], &mut work[..n]);
}

// Writes the meet of each of the first `count` times and all later ones of them.
pub fn suffix_meets(times: &[u64], count: usize, suffixes: &mut [u64])
    requires { (count ≤ length times.now) × (count ≤ length suffixes.old) }
    ensures { suffixes.new ≡ laid (suffix_meets (take count times.now)) suffixes.old }
{
    let mut m = None;
    for i in (0..count).rev() {
        let t = meet_onto(PackedTime(times[i]), m);
        suffixes[i] = t.0;
        m = Some(t);
    }
}

// The next time, absent if nothing is ahead.
pub fn head_of(times: &[u64], at: usize) -> Option<PackedTime>
    ensures { optional result ≡ first_of (drop at times.now) }
{
    times.get(at).map(|t| PackedTime(*t))
}

// The meet of all that is ahead, absent if nothing is.
pub fn meet_ahead(times: &[u64], suffixes: &[u64], at: usize) -> Option<PackedTime>
    requires { Suffixes times.now suffixes.now at }
    ensures { optional result ≡ meets (drop at times.now) none }
{
    if at < times.len() {
        Some(PackedTime(suffixes[at]))
    } else {
        None
    }
}

// Steps times while the next equals n.
pub fn step_while_time_is(times: &mut [u64], p: Place, n: PackedTime) -> Stepped
    requires { Placed (length times.old) p }
    ensures { Steps (eqb n.0) times.old p times.new result }
{
    let to = end_of_equal(times, p.at, n);
    move_down(times, p.count, p.at, to);
    p.stepped_to(to)
}

// Steps times while the next is at most n, in ascending order.
pub fn step_through(times: &mut [u64], p: Place, n: PackedTime) -> Stepped
    requires { Placed (length times.old) p }
    ensures { Steps (λ t. leb t n.0) times.old p times.new result }
{
    let to = end_through(times, p.at, n);
    move_down(times, p.count, p.at, to);
    p.stepped_to(to)
}

// Joins all times with p, sorts them and removes equals. Where the joined times ascend already, they are left as they are.
fn advance_by(p: PackedTime, s: &mut [u64], w: &mut [u64]) -> usize
    requires { length w.old ≡ length s.old }
    ensures { Advanced (join p.0) s.old w.old s.new w.new result }
{
    join_each(p, s);
    if is_ascending(s) {
        s.len()
    } else {
        sort_distinct(s, w)
    }
}

// Advances the first `count` times by the meet, if there is one. Returns how many are left.
pub fn advance_buffer_by(
    times: &mut [u64],
    count: usize,
    m: Option<PackedTime>,
    work: &mut [u64],
) -> usize
    requires { (count ≤ length times.old) × (count ≤ length work.old) }
    ensures { Advances (optional m) count times.old work.old times.new work.new result }
{
    match m {
        Some(p) => advance_by(p, &mut times[..count], &mut work[..count]),
        None => count,
    }
}
