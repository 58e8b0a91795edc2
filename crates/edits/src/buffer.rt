// Loads and advances: edits consolidated by (time, value), as a history, and by (value, time), as a buffer.
ghost use Rattle.std.proofs.Math.Option.{some};
ghost use Rattle.std.specs.Prelude.{◌≡◌, length, take};
ghost use Rattle.times.specs.Meets.{optional};
ghost use Rattle.consolidation.specs.Entries.{Lent, LentWork};
ghost use Rattle.edits.specs.Buffers.{LoadsAll, LoadsEdits, LentLoad, AdvancesAll, AdvancesEdits, WorkAfter, LentBuffer};
ghost use Rattle.edits.specs.Edits.{edits};

use crate::order::is_consolidated;
use consolidation::{consolidate, consolidate_into};
use histories::{copy_joined, join_each};
use times::PackedTime;

// Loads edits into columns that are as long.
fn load_all(
    m: Option<PackedTime>,
    fromtimes: &[u64],
    fromvalues: &[u64],
    fromdiffs: &[i64],
    joined: &mut [u64],
    places: &mut [u64],
    times: &mut [u64],
    values: &mut [u64],
    diffs: &mut [i64],
) -> usize
    requires { Lent fromtimes.now fromvalues.now fromdiffs.now × ((length joined.old ≡ length fromtimes.now) × LentWork (length fromtimes.now) places.old times.old values.old diffs.old) }
    ensures { LoadsAll (optional m) fromtimes.now fromvalues.now fromdiffs.now joined.new places.new times.new values.new diffs.new result }
{
    copy_joined(m, fromtimes, joined);
    consolidate_into(joined, fromvalues, fromdiffs, places, times, values, diffs)
}

// Advances a buffer by p. The work slices are as long. What is consolidated already, once its times are joined, is left as it is.
fn advance_by(
    p: PackedTime,
    times: &mut [u64],
    values: &mut [u64],
    diffs: &mut [i64],
    places: &mut [u64],
    firsts: &mut [u64],
    seconds: &mut [u64],
    sums: &mut [i64],
) -> usize
    requires { Lent times.old values.old diffs.old × LentWork (length times.old) places.old firsts.old seconds.old sums.old }
    ensures { AdvancesAll (some p.0) times.old values.old diffs.old times.new values.new diffs.new places.old firsts.old seconds.old sums.old places.new firsts.new seconds.new sums.new result }
{
    join_each(p, times);
    if is_consolidated(times, values, diffs) {
        times.len()
    } else {
        consolidate(values, times, diffs, places, firsts, seconds, sums)
    }
}

// Loads edits, each joined with the meet if there is one, consolidated by (time, value). Returns how many there are.
pub fn load_edits(
    m: Option<PackedTime>,
    fromtimes: &[u64],
    fromvalues: &[u64],
    fromdiffs: &[i64],
    joined: &mut [u64],
    places: &mut [u64],
    times: &mut [u64],
    values: &mut [u64],
    diffs: &mut [i64],
) -> usize
    requires { LentLoad fromtimes.now fromvalues.now fromdiffs.now joined.old places.old times.old values.old diffs.old }
    ensures { LoadsEdits (optional m) fromtimes.now fromvalues.now fromdiffs.now (edits times.old values.old diffs.old) (edits times.new values.new diffs.new) joined.old joined.new places.old places.new result }
{
    let n = fromtimes.len();
    load_all(
        m,
        fromtimes,
        fromvalues,
        fromdiffs,
        &mut joined[..n],
        &mut places[..n],
        &mut times[..n],
        &mut values[..n],
        &mut diffs[..n],
    )
}

// Advances the first `count` edits by the meet, if there is one. Returns how many are left.
pub fn advance_buffer_by(
    times: &mut [u64],
    values: &mut [u64],
    diffs: &mut [i64],
    count: usize,
    m: Option<PackedTime>,
    places: &mut [u64],
    firsts: &mut [u64],
    seconds: &mut [u64],
    sums: &mut [i64],
) -> usize
    requires { LentBuffer count times.old values.old diffs.old places.old firsts.old seconds.old sums.old }
    ensures { AdvancesEdits (optional m) count (edits times.old values.old diffs.old) (edits times.new values.new diffs.new) result × WorkAfter (optional m) count (take count times.old) (take count values.old) (take count diffs.old) (take count times.new) (take count values.new) (take count diffs.new) places.old firsts.old seconds.old sums.old places.new firsts.new seconds.new sums.new }
{
    match m {
        Some(p) => advance_by(
            p,
            &mut times[..count],
            &mut values[..count],
            &mut diffs[..count],
            &mut places[..count],
            &mut firsts[..count],
            &mut seconds[..count],
            &mut sums[..count],
        ),
        None => count,
    }
}
