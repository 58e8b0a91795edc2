// The first half of a window's turn. What it finds of the window's keys stands in columns by value.
ghost use Rattle.std.specs.Prelude.{length};
ghost use Rattle.fronts.specs.Filled.{Full};
ghost use Rattle.seeking.specs.Sought.{found_in, Seeks, Reached, Sought};
ghost use Rattle.turns.specs.Worked.{LentFronts};

use fronts::Fronts;
use progress::Progress;
use seeking::seek_window;

// Finds a window's parts, moments and pended times. The two short columns of its scratch are its own.
pub fn seek_fronts(
    upper: &[u64],
    keys: &[u64],
    newkeys: &[u64],
    newtimes: &[u64],
    pendingkeys: &[u64],
    pendingtimes: &[u64],
    tk: &[u64],
    tv: &[u64],
    tt: &[u64],
    td: &[i64],
    outkeys: &[u64],
    outtimes: &[u64],
    seeds: &mut [u64],
    uv: &mut [u64],
    ut: &mut [u64],
    ud: &mut [i64],
    output: &mut [u64],
    res: &mut [u64],
    tracked: &mut [u64],
    moments: &mut [u64],
    iv: &mut [u64],
    ov: &mut [u64],
    wv: &mut [u64],
    id: &mut [i64],
    nk: &mut [u64],
    nt: &mut [u64],
    p: Progress,
) -> Fronts
    requires lent_fronts { LentFronts (length nk.old) keys.now seeds.old uv.old ut.old ud.old output.old res.old tracked.old moments.old iv.old ov.old wv.old id.old nk.old nt.old p }
    requires seeks { Seeks (length nk.old) newkeys.now newtimes.now pendingkeys.now pendingtimes.now tk.now tv.now tt.now td.now outkeys.now outtimes.now × Reached newkeys.now pendingkeys.now tk.now outkeys.now keys.now p }
    ensures { Full result × Sought (length nk.old) (found_in upper.now newkeys.now newtimes.now pendingkeys.now pendingtimes.now tk.now tv.now tt.now td.now outkeys.now outtimes.now) newkeys.now pendingkeys.now tk.now outkeys.now keys.now p nk.old nt.old moments.new nk.new nt.new result.mends result.ifrom result.ito result.ofrom result.oto result.progress }
{
    let mut waiting = [0u64; 1025];
    let mut pended = [0u64; 1025];
    let mut mends = [0usize; 64];
    let mut ifrom = [0usize; 64];
    let mut ito = [0usize; 64];
    let mut ofrom = [0usize; 64];
    let mut oto = [0usize; 64];
    let progress = seek_window(
        upper,
        keys,
        newkeys,
        newtimes,
        pendingkeys,
        pendingtimes,
        tk,
        tv,
        tt,
        td,
        outkeys,
        outtimes,
        seeds,
        uv,
        ut,
        ud,
        output,
        res,
        &mut waiting,
        tracked,
        moments,
        &mut pended,
        wv,
        ov,
        iv,
        id,
        nk,
        nt,
        &mut mends,
        &mut ifrom,
        &mut ito,
        &mut ofrom,
        &mut oto,
        p,
    );
    Fronts {
        mends,
        ifrom,
        ito,
        ofrom,
        oto,
        progress,
    }
}
