// ValueHistory's buffer.
ghost use Rattle.std.specs.Prelude.{take};
ghost use Rattle.grid.specs.Consolidate.{consolidate};
ghost use Rattle.times.specs.Meets.{optional};
ghost use Rattle.rules.specs.Histories.{by_value, advance_edits};
ghost use Rattle.edits.specs.Edits.{edits};
ghost use Rattle.edits.specs.Buffers.{LentBuffer};
ghost use Rattle.advances.specs.Renewed.{Renewed, Held, AdvancedInPlace};

use crate::put::{ascent, put_from};
use consolidation::consolidate;
use histories::join_each;
use times::PackedTime;

// Joins the first `count` edits with p. Where all but at most eight stand consolidated then, the others are put in, and no scratch is needed: returns
// how many are left. Otherwise only the times were joined.
pub fn advance_in_place(
    p: PackedTime,
    times: &mut [u64],
    values: &mut [u64],
    diffs: &mut [i64],
    count: usize,
) -> Option<usize>
    requires { Held count times.old values.old diffs.old }
    ensures { AdvancedInPlace p.0 count (edits times.old values.old diffs.old) (edits times.new values.new diffs.new) result }
{
    join_each(p, &mut times[0..count]);
    let q = ascent(times, values, diffs, count);
    if count - q <= 8 {
        Some(put_from(times, values, diffs, q, count))
    } else {
        None
    }
}

// Consolidates the first `count` edits by (value, time). Returns how many are left.
pub fn consolidate_front(
    times: &mut [u64],
    values: &mut [u64],
    diffs: &mut [i64],
    count: usize,
    places: &mut [u64],
    firsts: &mut [u64],
    seconds: &mut [u64],
    sums: &mut [i64],
) -> usize
    requires { LentBuffer count times.old values.old diffs.old places.old firsts.old seconds.old sums.old }
    ensures { Renewed (consolidate by_value (take count (edits times.old values.old diffs.old))) count (edits times.old values.old diffs.old) (edits times.new values.new diffs.new) result }
{
    consolidate(
        &mut values[0..count],
        &mut times[0..count],
        &mut diffs[0..count],
        &mut places[0..count],
        &mut firsts[0..count],
        &mut seconds[0..count],
        &mut sums[0..count],
    )
}

// Advances the first `count` edits by the meet, if there is one. Returns how many are left.
pub fn advance_edits(
    times: &mut [u64],
    values: &mut [u64],
    diffs: &mut [i64],
    count: usize,
    m: Option<PackedTime>,
    places: &mut [u64],
    firsts: &mut [u64],
    seconds: &mut [u64],
    sums: &mut [i64],
) -> usize
    requires { LentBuffer count times.old values.old diffs.old places.old firsts.old seconds.old sums.old }
    ensures { Renewed (advance_edits (optional m) (take count (edits times.old values.old diffs.old))) count (edits times.old values.old diffs.old) (edits times.new values.new diffs.new) result }
{
    match m {
        Some(p) => match advance_in_place(p, times, values, diffs, count) {
            Some(left) => left,
            None => consolidate_front(times, values, diffs, count, places, firsts, seconds, sums),
        },
        None => count,
    }
}
