// Emissions: the stepped edit with each edit of the other's buffer, appended to four lent columns.
ghost use Rattle.std.specs.Prelude.{map, ◌≡◌, ◌+◌, ◌≤◌, ◌<◌, ◌^◌, nat_abs, ◌*ℤ◌, length, take, set, replicate};
ghost use Rattle.grid.specs.Times.{join};
ghost use Rattle.emissions.specs.Emissions.{over, most_diff, Pairs, LentPairs};
ghost use Rattle.consolidation.specs.Entries.{mass};

use times::PackedTime;

// Writes x at the place k, if there is one.
fn write<T: Copy>(s: &mut [T], k: usize, x: T)
    ensures { s.new ≡ set s.old k x }
{
    if k < s.len() {
        s[k] = x;
    }
}

// Appends times, each joined with p.
fn emit_times(p: PackedTime, from: &[u64], out: &mut [u64], at: usize)
    requires { at + length from.now < 2 ^ 63 }
    ensures { out.new ≡ over (map (join p.0) from.now) at out.old }
{
    for (i, t) in from.iter().enumerate() {
        write(out, at + i, p.join(PackedTime(*t)).0);
    }
}

// Appends values.
fn emit_values(from: &[u64], out: &mut [u64], at: usize)
    requires { at + length from.now < 2 ^ 63 }
    ensures { out.new ≡ over from.now at out.old }
{
    for (i, v) in from.iter().enumerate() {
        write(out, at + i, *v);
    }
}

// Appends one value n times.
fn emit_value(value: u64, n: usize, out: &mut [u64], at: usize)
    requires { at + n < 2 ^ 63 }
    ensures { out.new ≡ over (replicate n value) at out.old }
{
    for i in 0..n {
        write(out, at + i, value);
    }
}

// Appends diffs, each multiplied by d.
fn emit_diffs(d: i64, from: &[i64], out: &mut [i64], at: usize)
    requires { (at + length from.now < 2 ^ 63) × ((nat_abs d ≤ most_diff) × (mass from.now ≤ most_diff)) }
    ensures { out.new ≡ over (map (λ e. d *ℤ e) from.now) at out.old }
{
    for (i, e) in from.iter().enumerate() {
        write(out, at + i, d * *e);
    }
}

// Appends the pairs of one edit with each of the first n of the other's, as far as the columns go. The edit's values go to one column, the
// other's to the next.
pub fn emit_pairs(
    time: PackedTime,
    value: u64,
    diff: i64,
    times: &[u64],
    values: &[u64],
    diffs: &[i64],
    n: usize,
    outtimes: &mut [u64],
    outvalues: &mut [u64],
    outothers: &mut [u64],
    outdiffs: &mut [i64],
    at: usize,
)
    requires { LentPairs diff times.now values.now diffs.now n at }
    ensures { Pairs time.0 value diff (take n times.now) (take n values.now) (take n diffs.now) n at outtimes.old outvalues.old outothers.old outdiffs.old outtimes.new outvalues.new outothers.new outdiffs.new }
{
    emit_times(time, &times[..n], outtimes, at);
    emit_value(value, n, outvalues, at);
    emit_values(&values[..n], outothers, at);
    emit_diffs(diff, &diffs[..n], outdiffs, at);
}
