// What is found of a window's keys, in columns by value, and the window's rounds from these.
#![tactic(auto)]

ghost use Rattle.std.specs.Prelude.{length, take};
ghost use Rattle.backends.specs.Modes.{mode_number};
ghost use Rattle.backends.specs.Segments.{segments};
ghost use Rattle.moments.specs.Present.{edits};
ghost use Rattle.moments.specs.Window.{parts_of};
ghost use Rattle.mending.specs.Corrected.{Wide, Corrects, Corrected};
ghost use Rattle.fronts.specs.Filled.{Full};

use backends::Mode;
use mending::correct_window;
use progress::Progress;

// What is found of a window's keys, and how far the call has come: the ends of their moments, and their parts of the input and of the old output,
// in the fronts of columns.
#[derive(Clone, Copy)]
pub struct Fronts {
    pub mends: [usize; 64],
    pub ifrom: [usize; 64],
    pub ito: [usize; 64],
    pub ofrom: [usize; 64],
    pub oto: [usize; 64],
    pub progress: Progress,
}

// Settles a window's rounds, from the fronts of the columns of what was found.
pub fn correct_fronts(
    mode: Mode,
    keys: &[u64],
    moments: &[u64],
    tv: &[u64],
    tt: &[u64],
    td: &[i64],
    outvalues: &[u64],
    outtimes: &[u64],
    outdiffs: &[i64],
    uv: &mut [u64],
    ut: &mut [u64],
    ud: &mut [i64],
    iv: &mut [u64],
    id: &mut [i64],
    ov: &mut [u64],
    od: &mut [i64],
    cd: &mut [i64],
    fk: &mut [u64],
    fv: &mut [u64],
    ft: &mut [u64],
    fd: &mut [i64],
    res: &mut [u64],
    f: Fronts,
) -> Progress
    requires wide { Wide (length fk.old) uv.old ut.old ud.old iv.old id.old ov.old od.old cd.old res.old }
    requires full { Full f × Corrects (length fk.old) keys.now moments.now (take (length keys.now) f.mends) (take (length keys.now) f.ifrom) (take (length keys.now) f.ito) tv.now tt.now td.now (take (length keys.now) f.ofrom) (take (length keys.now) f.oto) outvalues.now outtimes.now outdiffs.now fk.old fv.old ft.old fd.old f.progress }
    ensures { Corrected (length fk.old) (mode_number mode) keys.now (parts_of (take (length keys.now) f.ifrom) (take (length keys.now) f.ito) (edits tv.now tt.now td.now)) (parts_of (take (length keys.now) f.ofrom) (take (length keys.now) f.oto) (edits outvalues.now outtimes.now outdiffs.now)) (segments 0 (take (length keys.now) f.mends) moments.now) f.progress result fk.old fv.old ft.old fd.old fk.new fv.new ft.new fd.new }
{
    let n = keys.len();
    correct_window(
        mode,
        keys,
        moments,
        &f.mends[0..n],
        &f.ifrom[0..n],
        &f.ito[0..n],
        tv,
        tt,
        td,
        &f.ofrom[0..n],
        &f.oto[0..n],
        outvalues,
        outtimes,
        outdiffs,
        uv,
        ut,
        ud,
        iv,
        id,
        ov,
        od,
        cd,
        fk,
        fv,
        ft,
        fd,
        res,
        f.progress,
    )
}
