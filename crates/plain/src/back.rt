// A round's correction, merged by value into the key's output.
ghost use Rattle.std.specs.Prelude.{take};
ghost use Rattle.backends.specs.Columns.{entries};
ghost use Rattle.moments.specs.Present.{edits};
ghost use Rattle.plain.specs.Plain.{MergesBack, MergedBack};

use rounds::merge_corrections;
use slices::copy;
use times::PackedTime;

// The output are the first n edits of uv, ut and ud. With the correction (cv, cd) at t there are as many as it returns.
pub fn merge_back(
    t: PackedTime,
    n: usize,
    cv: &[u64],
    cd: &[i64],
    uv: &mut [u64],
    ut: &mut [u64],
    ud: &mut [i64],
    yv: &mut [u64],
    yt: &mut [u64],
    yd: &mut [i64],
) -> usize
    requires { MergesBack n cv.now cd.now uv.old ut.old ud.old yv.old yt.old yd.old }
    ensures { MergedBack t.0 (take n (edits uv.old ut.old ud.old)) (entries cv.now cd.now) uv.new ut.new ud.new result }
{
    let m = merge_corrections(&uv[0..n], &ut[0..n], &ud[0..n], cv, cd, t, yv, yt, yd, 0);
    copy(&yv[0..m], uv);
    copy(&yt[0..m], ut);
    copy(&yd[0..m], ud);
    m
}
