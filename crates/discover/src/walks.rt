// "2. n is the least head of seeds, pending, input, output, waiting joins. None: stop." It stops, too, once a limit was passed.
ghost use Rattle.std.specs.Prelude.{is_some};
ghost use Rattle.rules.specs.Discover.{run};
ghost use Rattle.rules.proofs.Fuel.{measure};
ghost use Rattle.steps.specs.Walks.{state_of};
ghost use Rattle.discover.specs.Walking.{Kept, Short, Turned, Ended, Begun, walk_after};

use joins::next_time;
use pops::Walk;
use steps::{is_over, step};

// The walk after a step, if there is one to make. Without one all stays as it was.
fn turn(
    upper: &[u64],
    seeds: &mut [u64],
    seedm: &[u64],
    pending: &[u64],
    pendm: &[u64],
    times: &mut [u64],
    values: &mut [u64],
    diffs: &mut [i64],
    inputm: &[u64],
    output: &mut [u64],
    outputm: &[u64],
    waiting: &mut [u64],
    tracked: &mut [u64],
    moments: &mut [u64],
    pended: &mut [u64],
    work: &mut [u64],
    places: &mut [u64],
    wvalues: &mut [u64],
    wdiffs: &mut [i64],
    p: Walk,
) -> Option<Walk>
    requires kept { Kept seeds.old seedm.now pending.now pendm.now times.old values.old diffs.old inputm.now output.old outputm.now waiting.old tracked.old moments.old pended.old work.old places.old wvalues.old wdiffs.old p }
    requires short { Short upper.now (state_of seeds.old pending.now times.old values.old diffs.old output.old waiting.old tracked.old moments.old pended.old p) }
    ensures turned { Turned upper.now (state_of seeds.old pending.now times.old values.old diffs.old output.old waiting.old tracked.old moments.old pended.old p) (state_of seeds.new pending.now times.new values.new diffs.new output.new waiting.new tracked.new moments.new pended.new (walk_after p result)) (is_some result) }
    ensures still_kept { Kept seeds.new seedm.now pending.now pendm.now times.new values.new diffs.new inputm.now output.new outputm.now waiting.new tracked.new moments.new pended.new work.new places.new wvalues.new wdiffs.new (walk_after p result) }
{
    if is_over(p) {
        return None;
    }
    let n = next_time(
        seeds,
        p.seeds.at,
        pending,
        p.pending,
        times,
        p.input.at,
        output,
        p.output.at,
        &waiting[..p.waiting],
    )?;
    Some(step(
        upper, n, seeds, seedm, pending, pendm, times, values, diffs, inputm, output, outputm,
        waiting, tracked, moments, pended, work, places, wvalues, wdiffs, p,
    ))
}

// Steps until nothing remains, or a limit was passed.
pub fn walk(
    upper: &[u64],
    seeds: &mut [u64],
    seedm: &[u64],
    pending: &[u64],
    pendm: &[u64],
    times: &mut [u64],
    values: &mut [u64],
    diffs: &mut [i64],
    inputm: &[u64],
    output: &mut [u64],
    outputm: &[u64],
    waiting: &mut [u64],
    tracked: &mut [u64],
    moments: &mut [u64],
    pended: &mut [u64],
    work: &mut [u64],
    places: &mut [u64],
    wvalues: &mut [u64],
    wdiffs: &mut [i64],
    p: Walk,
) -> Walk
    requires kept { Kept seeds.old seedm.now pending.now pendm.now times.old values.old diffs.old inputm.now output.old outputm.now waiting.old tracked.old moments.old pended.old work.old places.old wvalues.old wdiffs.old p }
    requires begun { Begun upper.now (state_of seeds.old pending.now times.old values.old diffs.old output.old waiting.old tracked.old moments.old pended.old p) }
    ensures ended { Ended (run upper.now (measure (state_of seeds.old pending.now times.old values.old diffs.old output.old waiting.old tracked.old moments.old pended.old p)) (state_of seeds.old pending.now times.old values.old diffs.old output.old waiting.old tracked.old moments.old pended.old p)) (state_of seeds.new pending.now times.new values.new diffs.new output.new waiting.new tracked.new moments.new pended.new result) }
    ensures still_kept { Kept seeds.new seedm.now pending.now pendm.now times.new values.new diffs.new inputm.now output.new outputm.now waiting.new tracked.new moments.new pended.new work.new places.new wvalues.new wdiffs.new result }
{
    let mut w = p;
    while let Some(next) = turn(
        upper, seeds, seedm, pending, pendm, times, values, diffs, inputm, output, outputm,
        waiting, tracked, moments, pended, work, places, wvalues, wdiffs, w,
    ) {
        w = next;
    }
    w
}
