// "Step all five past n. Popped pending and waiting joins become tracked; popped seeds enter the seed buffer, advanced by m if any was popped."
ghost use Rattle.std.specs.Prelude.{◌||◌, ◌≡◌, suc, ◌+◌, ◌-◌, ◌≤◌, ◌<◌, length, take, drop};
ghost use Rattle.times.specs.Meets.{optional};
ghost use Rattle.histories.specs.Places.{Placed};
ghost use Rattle.edits.specs.Edits.{edits};
ghost use Rattle.joins.specs.Sets.{Set};
ghost use Rattle.pops.specs.Popping.{SeedsStepped, Tracking, Taking, Popping};
ghost use Rattle.pops.specs.Standing.{Standing};

use crate::{Popped, Taken, Walk};
use advances::advance_times;
use histories::{Place, Stepped, end_of_equal, step_while_time_is};
use times::PackedTime;

// Steps seeds while the next equals n. If any was popped, the buffer is advanced by m.
fn step_seeds(
    seeds: &mut [u64],
    p: Place,
    n: PackedTime,
    m: Option<PackedTime>,
    work: &mut [u64],
) -> Stepped
    requires { Placed (length seeds.old) p × (length seeds.old ≤ length work.old) }
    ensures { SeedsStepped (optional m) n.0 seeds.old p seeds.new result }
{
    let s = step_while_time_is(seeds, p, n);
    if s.moved {
        let count = advance_times(seeds, s.place.count, m, work);
        Stepped {
            place: Place { count, ..s.place },
            ..s
        }
    } else {
        s
    }
}

// Tracks the pending times while the next equals n.
fn track_pending(
    pending: &[u64],
    at: usize,
    n: PackedTime,
    tracked: &mut [u64],
    count: usize,
) -> Place
    requires { (at ≤ length pending.now) × (count + (length pending.now - at) ≤ length tracked.old) }
    ensures { Tracking n.0 pending.now at tracked.old count tracked.new result }
{
    let end = end_of_equal(pending, at, n);
    let after = count + (end - at);
    tracked[count..after].fill(n.0);
    Place {
        count: after,
        at: end,
    }
}

// Tracks the first waiting join if it equals n. They are distinct, so no second one does.
fn track_waiting(
    waiting: &mut [u64],
    wcount: usize,
    n: PackedTime,
    tracked: &mut [u64],
    tcount: usize,
) -> Taken
    requires { Set waiting.old wcount × (tcount < length tracked.old) }
    ensures { Taking n.0 waiting.old wcount tracked.old tcount waiting.new tracked.new result }
{
    if wcount > 0 && n.0 == waiting[0] {
        tracked[tcount] = n.0;
        waiting.copy_within(1..wcount, 0);
        Taken {
            waiting: wcount - 1,
            tracked: tcount + 1,
        }
    } else {
        Taken {
            waiting: wcount,
            tracked: tcount,
        }
    }
}

// Steps all five past n.
pub fn pop_all(
    n: PackedTime,
    seeds: &mut [u64],
    pending: &[u64],
    times: &mut [u64],
    values: &mut [u64],
    diffs: &mut [i64],
    output: &mut [u64],
    waiting: &mut [u64],
    tracked: &mut [u64],
    work: &mut [u64],
    p: Walk,
) -> Popped
    requires standing { Standing seeds.old pending.now times.old values.old diffs.old output.old p }
    requires set { Set waiting.old p.waiting × ((length seeds.old ≤ length work.old) × (suc (p.tracked + (length pending.now - p.pending)) ≤ length tracked.old)) }
    ensures { Popping n.0 seeds.old pending.now (edits times.old values.old diffs.old) output.old waiting.old tracked.old p seeds.new (edits times.new values.new diffs.new) output.new waiting.new tracked.new result.hit result.walk }
{
    let i = edits::step_while_time_is(times, values, diffs, p.input, n);
    let o = step_while_time_is(output, p.output, n);
    let s = step_seeds(seeds, p.seeds, n, p.m, work);
    let t = track_pending(pending, p.pending, n, tracked, p.tracked);
    let w = track_waiting(waiting, p.waiting, n, tracked, t.count);
    let hit = s.moved || p.pending < t.at || w.waiting < p.waiting;
    Popped {
        walk: Walk {
            seeds: s.place,
            pending: t.at,
            input: i.place,
            output: o.place,
            waiting: w.waiting,
            tracked: w.tracked,
            ..p
        },
        hit,
    }
}
