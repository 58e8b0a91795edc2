// "1. m is the meet of seeds and pending, absent if there are none. Input (old and new) and output are loaded joined with m."
ghost use Rattle.std.specs.Prelude.{◌≡◌, ◌++◌, ◌+◌, ◌≤◌, length, take};
ghost use Rattle.rules.specs.Histories.{suffix_meets};
ghost use Rattle.edits.specs.Edits.{edits};
ghost use Rattle.edits.specs.Buffers.{LentLoad};
ghost use Rattle.discover.specs.Finding.{Loading, all_meets};

use edits::load_edits;
use histories::{load_times, suffix_meets};
use times::{PackedTime, meet_of, meets};

// How many edits were loaded, and the meet of seeds and pending.
#[derive(Clone, Copy)]
pub struct Loaded {
    pub count: usize,
    pub m: Option<PackedTime>,
}

// Loads seeds, input and output.
pub fn load(
    seedtimes: &[u64],
    pending: &[u64],
    intimes: &[u64],
    invalues: &[u64],
    indiffs: &[i64],
    outtimes: &[u64],
    seeds: &mut [u64],
    times: &mut [u64],
    values: &mut [u64],
    diffs: &mut [i64],
    output: &mut [u64],
    work: &mut [u64],
    places: &mut [u64],
) -> Loaded
    requires lent_load { LentLoad intimes.now invalues.now indiffs.now work.old places.old times.old values.old diffs.old }
    requires seedtimes_in_bounds { (length seedtimes.now ≤ length seeds.old) × ((length outtimes.now ≤ length output.old) × ((length seedtimes.now ≤ length work.old) × (length outtimes.now ≤ length work.old))) }
    ensures { Loading seedtimes.now pending.now (edits intimes.now invalues.now indiffs.now) (length intimes.now) outtimes.now seeds.new (edits times.new values.new diffs.new) output.new result }
{
    let m = meets(seedtimes, meet_of(pending));
    load_times(None, seedtimes, seeds, work);
    load_times(m, outtimes, output, work);
    let count = load_edits(
        m, intimes, invalues, indiffs, work, places, times, values, diffs,
    );
    Loaded { count, m }
}

// Appends the meets of all suffixes of the first `count` times to the first `at` of a column. Returns where they end.
fn append_meets(times: &[u64], count: usize, column: &mut [u64], at: usize) -> usize
    requires { (count ≤ length times.now) × (at + count ≤ length column.old) }
    ensures value { result ≡ at + count }
    ensures column_after { take result column.new ≡ take at column.old ++ suffix_meets (take count times.now) }
{
    let to = at + count;
    suffix_meets(times, count, &mut column[at..to]);
    to
}

// Writes the meets of all suffixes of what was loaded, and of the pending times, one after the other.
pub fn suffixes(
    seeds: &[u64],
    scount: usize,
    pending: &[u64],
    times: &[u64],
    count: usize,
    output: &[u64],
    ocount: usize,
    column: &mut [u64],
)
    requires { (scount ≤ length seeds.now) × ((count ≤ length times.now) × ((ocount ≤ length output.now) × (((scount + length pending.now) + count) + ocount ≤ length column.old))) }
    ensures { take (((scount + length pending.now) + count) + ocount) column.new ≡ all_meets (take scount seeds.now) pending.now (take count times.now) (take ocount output.now) }
{
    let a = append_meets(seeds, scount, column, 0);
    let b = append_meets(pending, pending.len(), column, a);
    let c = append_meets(times, count, column, b);
    append_meets(output, ocount, column, c);
}
