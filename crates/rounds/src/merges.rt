// A round's correction, merged by value into a key's output.
ghost use Rattle.backends.specs.Columns.{entries};
ghost use Rattle.moments.specs.Present.{edits};
ghost use Rattle.rounds.specs.Merges.{merged, Merges, Rows};

use sorting::left_first;
use times::PackedTime;

// Appends at `at` the segment (uv, ut, ud) with the corrections (cv, cd) at time t.
pub fn merge_corrections(
    uv: &[u64],
    ut: &[u64],
    ud: &[i64],
    cv: &[u64],
    cd: &[i64],
    t: PackedTime,
    yv: &mut [u64],
    yt: &mut [u64],
    yd: &mut [i64],
    at: usize,
) -> usize
    requires { Merges uv.now ut.now ud.now cv.now cd.now yv.old yt.old yd.old at }
    ensures { Rows yv.old yt.old yd.old at (merged (edits uv.now ut.now ud.now) t.0 (entries cv.now cd.now)) yv.new yt.new yd.new result }
{
    let end = at + uv.len() + cv.len();
    let mut i = 0;
    let mut j = 0;
    for k in at..end {
        if left_first(uv, i, cv, j) {
            yv[k] = uv[i];
            yt[k] = ut[i];
            yd[k] = ud[i];
            i += 1;
        } else {
            yv[k] = cv[j];
            yt[k] = t.0;
            yd[k] = cd[j];
            j += 1;
        }
    }
    end
}
