// discover_times for one key, in memory that is lent for all keys.
ghost use Rattle.std.specs.Prelude.{◌≡◌, take};
ghost use Rattle.rules.specs.Discover.{run, discover};
ghost use Rattle.rules.proofs.Fuel.{measure};
ghost use Rattle.edits.specs.Edits.{edits};
ghost use Rattle.discover.specs.Walking.{Begun, first_walk, first_state};
ghost use Rattle.discover.specs.Finding.{Finds, Lending, Prepared};

use crate::Found;
use crate::loads::{Loaded, load, suffixes};
use crate::walks::walk;
use histories::Place;
use pops::Walk;
use steps::is_over;
use times::PackedTime;

// The walk that starts with the meet m.
fn first_walk(m: Option<PackedTime>) -> Walk
    ensures { result ≡ first_walk m }
{
    Walk {
        seeds: Place { count: 0, at: 0 },
        pending: 0,
        input: Place { count: 0, at: 0 },
        output: Place { count: 0, at: 0 },
        waiting: 0,
        tracked: 0,
        moments: 0,
        pended: 0,
        m,
    }
}

// Walks through what was loaded: `scount` seeds, the edits of the input, and `ocount` outputs. Nothing is found if a limit was passed.
fn walk_from(
    upper: &[u64],
    pending: &[u64],
    column: &[u64],
    scount: usize,
    l: Loaded,
    ocount: usize,
    seeds: &mut [u64],
    times: &mut [u64],
    values: &mut [u64],
    diffs: &mut [i64],
    output: &mut [u64],
    waiting: &mut [u64],
    tracked: &mut [u64],
    moments: &mut [u64],
    pended: &mut [u64],
    work: &mut [u64],
    places: &mut [u64],
    wvalues: &mut [u64],
    wdiffs: &mut [i64],
) -> Option<Found>
    requires prepared { Prepared pending.now column.now scount l.count ocount seeds.old times.old values.old diffs.old output.old waiting.old tracked.old moments.old pended.old work.old places.old wvalues.old wdiffs.old }
    requires begun { Begun upper.now (first_state (take scount seeds.old) pending.now (take l.count times.old) (take l.count values.old) (take l.count diffs.old) (take ocount output.old) l.m) }
    ensures { Finds (run upper.now (measure (first_state (take scount seeds.old) pending.now (take l.count times.old) (take l.count values.old) (take l.count diffs.old) (take ocount output.old) l.m)) (first_state (take scount seeds.old) pending.now (take l.count times.old) (take l.count values.old) (take l.count diffs.old) (take ocount output.old) l.m)) moments.new pended.new result }
{
    let c = l.count;
    let a = scount + pending.len();
    let b = a + c;
    let d = b + ocount;
    let w = walk(
        upper,
        &mut seeds[0..scount],
        &column[0..scount],
        pending,
        &column[scount..a],
        &mut times[0..c],
        &mut values[0..c],
        &mut diffs[0..c],
        &column[a..b],
        &mut output[0..ocount],
        &column[b..d],
        waiting,
        tracked,
        moments,
        pended,
        work,
        places,
        wvalues,
        wdiffs,
        first_walk(l.m),
    );
    if is_over(w) {
        None
    } else {
        Some(Found {
            moments: w.moments,
            pended: w.pended,
        })
    }
}

// Finds the moments and the pended times of one key; none if a limit was passed. `seedtimes` are the new run's own times. The input, old and new together, will not do for
// them: it is consolidated once it is joined with m, so an old edit that m moves onto a new one may cancel it, and the new time would be missed.
pub fn discover_key(
    upper: &[u64],
    seedtimes: &[u64],
    pending: &[u64],
    intimes: &[u64],
    invalues: &[u64],
    indiffs: &[i64],
    outtimes: &[u64],
    seeds: &mut [u64],
    times: &mut [u64],
    values: &mut [u64],
    diffs: &mut [i64],
    output: &mut [u64],
    meets: &mut [u64],
    waiting: &mut [u64],
    tracked: &mut [u64],
    moments: &mut [u64],
    pended: &mut [u64],
    work: &mut [u64],
    places: &mut [u64],
    wvalues: &mut [u64],
    wdiffs: &mut [i64],
) -> Option<Found>
    requires { Lending seedtimes.now pending.now intimes.now invalues.now indiffs.now outtimes.now seeds.old times.old values.old diffs.old output.old meets.old waiting.old tracked.old moments.old pended.old work.old places.old wvalues.old wdiffs.old }
    ensures { Finds (discover upper.now seedtimes.now pending.now (edits intimes.now invalues.now indiffs.now) outtimes.now) moments.new pended.new result }
{
    let l = load(
        seedtimes, pending, intimes, invalues, indiffs, outtimes, seeds, times, values, diffs,
        output, work, places,
    );
    suffixes(
        seeds,
        seedtimes.len(),
        pending,
        times,
        l.count,
        output,
        outtimes.len(),
        meets,
    );
    walk_from(
        upper,
        pending,
        meets,
        seedtimes.len(),
        l,
        outtimes.len(),
        seeds,
        times,
        values,
        diffs,
        output,
        waiting,
        tracked,
        moments,
        pended,
        work,
        places,
        wvalues,
        wdiffs,
    )
}
