// "n short of upper: if interesting, advance the input and output buffers by m, join n with each buffered time not at or below n, and record n as a
// moment. Interesting or not, join n with each seed_buffer and tracked time not at or below n. n beyond upper: pended if interesting."
ghost use Rattle.std.specs.Prelude.{true, false, ◌||◌, ◌++◌, ◌≡◌, ◌≤◌, length, take};
ghost use Rattle.grid.specs.Frontiers.{beyond};
ghost use Rattle.times.specs.Meets.{optional};
ghost use Rattle.edits.specs.Edits.{edits};
ghost use Rattle.steps.specs.Parts.{Ready, Acting, Finishing};

use advances::{advance_edits, advance_times};
use histories::Place;
use joins::{Counts, join_both, put_time, retrack};
use pops::Walk;
use times::{PackedTime, is_beyond, meets};

// n is interesting if one was popped that makes it so, or if a seed_buffer or tracked time is at or below it.
pub fn is_interesting(hit: bool, seeds: &[u64], tracked: &[u64], n: PackedTime) -> bool
    ensures { result ≡ (hit || beyond (seeds.now ++ tracked.now) n.0) }
{
    hit || is_beyond(seeds, n) || is_beyond(tracked, n)
}

// A moment: the histories' buffers are advanced, and n is joined with the four buffers.
fn settle(
    upper: &[u64],
    n: PackedTime,
    m: Option<PackedTime>,
    seeds: &[u64],
    tracked: &[u64],
    times: &mut [u64],
    values: &mut [u64],
    diffs: &mut [i64],
    output: &mut [u64],
    waiting: &mut [u64],
    pended: &mut [u64],
    moments: &mut [u64],
    work: &mut [u64],
    places: &mut [u64],
    wvalues: &mut [u64],
    wdiffs: &mut [i64],
    q: Walk,
) -> Walk
    requires ready { Ready seeds.now tracked.now times.old values.old diffs.old output.old waiting.old pended.old moments.old work.old places.old wvalues.old wdiffs.old q }
    requires n_value { beyond upper.now n.0 ≡ false }
    ensures { Acting upper.now n.0 true (optional m) (take q.seeds.count seeds.now) (take q.tracked tracked.now) (edits times.old values.old diffs.old) output.old waiting.old pended.old moments.old q (edits times.new values.new diffs.new) output.new waiting.new pended.new moments.new result }
{
    moments[q.moments] = n.0;
    let icount = advance_edits(
        times,
        values,
        diffs,
        q.input.count,
        m,
        places,
        wvalues,
        work,
        wdiffs,
    );
    let ocount = advance_times(output, q.output.count, m, work);
    let counts = Counts {
        waiting: q.waiting,
        pended: q.pended,
    };
    let c = join_both(
        upper,
        n,
        seeds,
        q.seeds.count,
        tracked,
        q.tracked,
        waiting,
        pended,
        counts,
    );
    let d = join_both(upper, n, times, icount, output, ocount, waiting, pended, c);
    Walk {
        input: Place {
            count: icount,
            ..q.input
        },
        output: Place {
            count: ocount,
            ..q.output
        },
        waiting: d.waiting,
        moments: q.moments + 1,
        pended: d.pended,
        m,
        ..q
    }
}

// What becomes of n.
pub fn act(
    upper: &[u64],
    n: PackedTime,
    keen: bool,
    m: Option<PackedTime>,
    seeds: &[u64],
    tracked: &[u64],
    times: &mut [u64],
    values: &mut [u64],
    diffs: &mut [i64],
    output: &mut [u64],
    waiting: &mut [u64],
    pended: &mut [u64],
    moments: &mut [u64],
    work: &mut [u64],
    places: &mut [u64],
    wvalues: &mut [u64],
    wdiffs: &mut [i64],
    q: Walk,
) -> Walk
    requires { Ready seeds.now tracked.now times.old values.old diffs.old output.old waiting.old pended.old moments.old work.old places.old wvalues.old wdiffs.old q }
    ensures { Acting upper.now n.0 keen (optional m) (take q.seeds.count seeds.now) (take q.tracked tracked.now) (edits times.old values.old diffs.old) output.old waiting.old pended.old moments.old q (edits times.new values.new diffs.new) output.new waiting.new pended.new moments.new result }
{
    if is_beyond(upper, n) {
        if keen {
            Walk {
                pended: put_time(pended, q.pended, n),
                ..q
            }
        } else {
            q
        }
    } else if keen {
        settle(
            upper, n, m, seeds, tracked, times, values, diffs, output, waiting, pended, moments,
            work, places, wvalues, wdiffs, q,
        )
    } else {
        let counts = Counts {
            waiting: q.waiting,
            pended: q.pended,
        };
        let c = join_both(
            upper,
            n,
            seeds,
            q.seeds.count,
            tracked,
            q.tracked,
            waiting,
            pended,
            counts,
        );
        Walk {
            waiting: c.waiting,
            pended: c.pended,
            ..q
        }
    }
}

// "m becomes the meet of all that remains; tracked times are joined with it, equals removed." `ahead` is the meet of what is ahead in the histories.
pub fn finish(
    ahead: Option<PackedTime>,
    waiting: &[u64],
    tracked: &mut [u64],
    work: &mut [u64],
    a: Walk,
) -> Walk
    requires { (a.waiting ≤ length waiting.now) × ((a.tracked ≤ length tracked.old) × (length tracked.old ≤ length work.old)) }
    ensures { Finishing (optional ahead) (take a.waiting waiting.now) tracked.old tracked.new a result }
{
    let m = meets(&waiting[..a.waiting], ahead);
    Walk {
        tracked: retrack(m, tracked, a.tracked, work),
        m,
        ..a
    }
}
