// The sums of a segment at a moment.
ghost use Rattle.std.specs.Prelude.{◌+◌, ◌≤◌, ◌≡◌, eqb, length, drop};
ghost use Rattle.grid.specs.Lists.{front};
ghost use Rattle.grid.specs.Times.{below};
ghost use Rattle.grid.proofs.Lists.{All};
ghost use Rattle.grid.proofs.Consolidate.{tally};
ghost use Rattle.rules.specs.Retire.{seen};
ghost use Rattle.diffs.specs.Diffs.{modest};
ghost use Rattle.backends.specs.Columns.{entries, Appended};
ghost use Rattle.moments.specs.Present.{edits, Shows};

use times::PackedTime;

// Whether an entry's time is at or below t.
fn is_seen(time: u64, t: PackedTime) -> bool
    ensures { result ≡ below time t.0 }
{
    PackedTime(time).below(t)
}

// Where the run of the value v ends that begins at `from`.
fn run_end(values: &[u64], from: usize, v: u64) -> usize
    requires { from ≤ length values.now }
    ensures { result ≡ from + length (front (λ x. eqb x v) (drop from values.now)) }
{
    let ahead = &values[from..];
    from + ahead.iter().take_while(|x| **x == v).count()
}

// The sum of the diffs at times at or below t.
fn sum_at(times: &[u64], diffs: &[i64], t: PackedTime) -> i64
    requires { (length diffs.now ≡ length times.now) × ((length times.now ≤ 8192) × All modest diffs.now) }
    ensures { result ≡ tally (λ u. below u t.0) (entries times.now diffs.now) }
{
    let mut sum = 0;
    for (time, diff) in times.iter().zip(diffs) {
        if is_seen(*time, t) {
            sum += *diff;
        }
    }
    sum
}

// Appends at `at` what is seen of the segment at t: each value's sum over the times at or below t, unless it is zero.
pub fn present(
    values: &[u64],
    times: &[u64],
    diffs: &[i64],
    t: PackedTime,
    sv: &mut [u64],
    sd: &mut [i64],
    at: usize,
) -> usize
    requires { Shows values.now times.now diffs.now sv.old sd.old at }
    ensures { Appended sv.old sd.old at (seen t.0 (edits values.now times.now diffs.now)) sv.new sd.new result }
{
    let mut i = 0;
    let mut k = at;
    // A turn passes a run of equal values, so the index goes by the length of the run.
    while i < values.len() {
        let v = values[i];
        let end = run_end(values, i, v);
        let sum = sum_at(&times[i..end], &diffs[i..end], t);
        if sum != 0 {
            sv[k] = v;
            sd[k] = sum;
            k += 1;
        }
        i = end;
    }
    k
}
