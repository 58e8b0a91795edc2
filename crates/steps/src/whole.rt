// One step at n.
ghost use Rattle.std.specs.Prelude.{◌≡◌};
ghost use Rattle.pops.specs.Standing.{Standing};
ghost use Rattle.steps.specs.Walks.{over_of, state_of, Known, Roomy, Worked, Calm, Steps};

use crate::acts::{act, finish, is_interesting};
use joins::{MOST_MOMENTS, meet_of_four};
use pops::{Walk, pop_all};
use times::PackedTime;

// Whether a limit was passed.
pub fn is_over(w: Walk) -> bool
    ensures { result ≡ over_of w }
{
    w.moments > MOST_MOMENTS || w.waiting > MOST_MOMENTS || w.pended > MOST_MOMENTS
}

// Steps all five past n, acts upon n, and takes the meet of all that remains. n is gone from `ahead`; m still covers it, and buffers are advanced by m.
pub fn step(
    upper: &[u64],
    n: PackedTime,
    seeds: &mut [u64],
    seedm: &[u64],
    pending: &[u64],
    pendm: &[u64],
    times: &mut [u64],
    values: &mut [u64],
    diffs: &mut [i64],
    inputm: &[u64],
    output: &mut [u64],
    outputm: &[u64],
    waiting: &mut [u64],
    tracked: &mut [u64],
    moments: &mut [u64],
    pended: &mut [u64],
    work: &mut [u64],
    places: &mut [u64],
    wvalues: &mut [u64],
    wdiffs: &mut [i64],
    p: Walk,
) -> Walk
    requires standing { Standing seeds.old pending.now times.old values.old diffs.old output.old p }
    requires known { Known seeds.old seedm.now pending.now pendm.now times.old inputm.now output.old outputm.now p }
    requires roomy { Roomy pending.now waiting.old tracked.old moments.old pended.old p }
    requires worked { Worked seeds.old times.old output.old tracked.old work.old places.old wvalues.old wdiffs.old }
    requires calm { Calm upper.now (state_of seeds.old pending.now times.old values.old diffs.old output.old waiting.old tracked.old moments.old pended.old p) }
    ensures steps { Steps upper.now n.0 (state_of seeds.old pending.now times.old values.old diffs.old output.old waiting.old tracked.old moments.old pended.old p) (state_of seeds.new pending.now times.new values.new diffs.new output.new waiting.new tracked.new moments.new pended.new result) }
    ensures still_standing { Standing seeds.new pending.now times.new values.new diffs.new output.new result }
    ensures still_known { Known seeds.new seedm.now pending.now pendm.now times.new inputm.now output.new outputm.now result }
    ensures still_roomy { Roomy pending.now waiting.new tracked.new moments.new pended.new result }
{
    let s = pop_all(
        n, seeds, pending, times, values, diffs, output, waiting, tracked, work, p,
    );
    let q = s.walk;
    let ahead = meet_of_four(
        seeds,
        seedm,
        q.seeds.at,
        pending,
        pendm,
        q.pending,
        times,
        inputm,
        q.input.at,
        output,
        outputm,
        q.output.at,
    );
    let seed_buffer = &seeds[..q.seeds.count];
    let tracked_times = &tracked[..q.tracked];
    let keen = is_interesting(s.hit, seed_buffer, tracked_times, n);
    let a = act(
        upper, n, keen, q.m, seeds, tracked, times, values, diffs, output, waiting, pended,
        moments, work, places, wvalues, wdiffs, q,
    );
    finish(ahead, waiting, tracked, work, a)
}
