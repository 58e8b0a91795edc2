// Edits appended to columns.
ghost use Rattle.moments.specs.Present.{edits};
ghost use Rattle.rounds.specs.Merges.{Rows, Lays};

// Appends at `at` the edits of three columns.
pub fn append_edits(
    values: &[u64],
    times: &[u64],
    diffs: &[i64],
    yv: &mut [u64],
    yt: &mut [u64],
    yd: &mut [i64],
    at: usize,
) -> usize
    requires { Lays values.now times.now diffs.now yv.old yt.old yd.old at }
    ensures { Rows yv.old yt.old yd.old at (edits values.now times.now diffs.now) yv.new yt.new yd.new result }
{
    let mut i = 0;
    let mut k = at;
    // There is mostly one to append, for which this costs less than a copy of each column.
    while i < values.len() {
        yv[k] = values[i];
        yt[k] = times[i];
        let d = diffs[i];
        yd[k] = d;
        i += 1;
        k += 1;
    }
    k
}
