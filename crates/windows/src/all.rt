// The windows of a call, from the first to the last.
ghost use Rattle.std.specs.Prelude.{min, length};
ghost use Rattle.backends.specs.Modes.{mode_number};
ghost use Rattle.turns.specs.Runs.{runs};
ghost use Rattle.turns.specs.Worked.{LentWork};
ghost use Rattle.looping.specs.Looped.{Loops, Ended};

use answers::Course;
use backends::Mode;
use looping::{course, window_end};
use progress::Progress;
use turns::work_window;

// Works all windows of the changed keys. Once a limit is passed, the others are left out.
pub fn work_windows(
    mode: Mode,
    width: usize,
    upper: &[u64],
    keys: &[u64],
    newkeys: &[u64],
    newtimes: &[u64],
    pendingkeys: &[u64],
    pendingtimes: &[u64],
    tk: &[u64],
    tv: &[u64],
    tt: &[u64],
    td: &[i64],
    outkeys: &[u64],
    outvalues: &[u64],
    outtimes: &[u64],
    outdiffs: &[i64],
    moments: &mut [u64],
    uv: &mut [u64],
    ut: &mut [u64],
    ud: &mut [i64],
    iv: &mut [u64],
    id: &mut [i64],
    ov: &mut [u64],
    od: &mut [i64],
    cd: &mut [i64],
    wv: &mut [u64],
    seeds: &mut [u64],
    output: &mut [u64],
    tracked: &mut [u64],
    nk: &mut [u64],
    nt: &mut [u64],
    fk: &mut [u64],
    fv: &mut [u64],
    ft: &mut [u64],
    fd: &mut [i64],
    res: &mut [u64],
) -> Course
    requires lent_work { LentWork (length fk.old) (min width (length keys.now)) moments.old uv.old ut.old ud.old iv.old id.old ov.old od.old cd.old wv.old seeds.old output.old tracked.old nk.old nt.old fk.old fv.old ft.old fd.old res.old }
    requires loops { Loops (length fk.old) (runs upper.now newkeys.now newtimes.now pendingkeys.now pendingtimes.now tk.now tv.now tt.now td.now outkeys.now outvalues.now outtimes.now outdiffs.now) width keys.now }
    ensures { Ended (length fk.old) (runs upper.now newkeys.now newtimes.now pendingkeys.now pendingtimes.now tk.now tv.now tt.now td.now outkeys.now outvalues.now outtimes.now outdiffs.now) (mode_number mode) width keys.now nk.new nt.new fk.new fv.new ft.new fd.new result }
{
    let n = keys.len();
    let mut p = 0;
    let mut w = Progress::default();
    // A turn works a whole window, so the index goes by the width.
    while p < n && !w.over {
        let e = window_end(p, width, n);
        w = work_window(
            mode,
            upper,
            &keys[p..e],
            newkeys,
            newtimes,
            pendingkeys,
            pendingtimes,
            tk,
            tv,
            tt,
            td,
            outkeys,
            outvalues,
            outtimes,
            outdiffs,
            moments,
            uv,
            ut,
            ud,
            iv,
            id,
            ov,
            od,
            cd,
            wv,
            seeds,
            output,
            tracked,
            nk,
            nt,
            fk,
            fv,
            ft,
            fd,
            res,
            w,
        );
        p = e;
    }
    course(w)
}
