// One window's turn.
ghost use Rattle.std.specs.Prelude.{length};
ghost use Rattle.backends.specs.Modes.{mode_number};
ghost use Rattle.turns.specs.Runs.{runs};
ghost use Rattle.turns.specs.Worked.{LentWork, Takes, Turned};

use crate::first::seek_fronts;
use backends::Mode;
use fronts::correct_fronts;
use progress::Progress;

// Finds a window's parts, moments and pended times, and settles its rounds. Columns of the rounds are scratch in the discovery, and the front of
// result memory is scratch in both.
pub fn work_window(
    mode: Mode,
    upper: &[u64],
    keys: &[u64],
    newkeys: &[u64],
    newtimes: &[u64],
    pendingkeys: &[u64],
    pendingtimes: &[u64],
    tk: &[u64],
    tv: &[u64],
    tt: &[u64],
    td: &[i64],
    outkeys: &[u64],
    outvalues: &[u64],
    outtimes: &[u64],
    outdiffs: &[i64],
    moments: &mut [u64],
    uv: &mut [u64],
    ut: &mut [u64],
    ud: &mut [i64],
    iv: &mut [u64],
    id: &mut [i64],
    ov: &mut [u64],
    od: &mut [i64],
    cd: &mut [i64],
    wv: &mut [u64],
    seeds: &mut [u64],
    output: &mut [u64],
    tracked: &mut [u64],
    nk: &mut [u64],
    nt: &mut [u64],
    fk: &mut [u64],
    fv: &mut [u64],
    ft: &mut [u64],
    fd: &mut [i64],
    res: &mut [u64],
    p: Progress,
) -> Progress
    requires lent_work { LentWork (length fk.old) (length keys.now) moments.old uv.old ut.old ud.old iv.old id.old ov.old od.old cd.old wv.old seeds.old output.old tracked.old nk.old nt.old fk.old fv.old ft.old fd.old res.old }
    requires takes { Takes (length fk.old) (runs upper.now newkeys.now newtimes.now pendingkeys.now pendingtimes.now tk.now tv.now tt.now td.now outkeys.now outvalues.now outtimes.now outdiffs.now) keys.now p }
    ensures { Turned (length fk.old) (runs upper.now newkeys.now newtimes.now pendingkeys.now pendingtimes.now tk.now tv.now tt.now td.now outkeys.now outvalues.now outtimes.now outdiffs.now) (mode_number mode) keys.now p nk.old nt.old fk.old fv.old ft.old fd.old nk.new nt.new fk.new fv.new ft.new fd.new result }
{
    let f = seek_fronts(
        upper,
        keys,
        newkeys,
        newtimes,
        pendingkeys,
        pendingtimes,
        tk,
        tv,
        tt,
        td,
        outkeys,
        outtimes,
        seeds,
        uv,
        ut,
        ud,
        output,
        res,
        tracked,
        moments,
        iv,
        ov,
        wv,
        id,
        nk,
        nt,
        p,
    );
    correct_fronts(
        mode, keys, moments, tv, tt, td, outvalues, outtimes, outdiffs, uv, ut, ud, iv, id, ov, od,
        cd, fk, fv, ft, fd, res, f,
    )
}
