// One round of a key.
ghost use Rattle.std.specs.Prelude.{length, MatchResult};
ghost use Rattle.backends.specs.Modes.{mode_number};
ghost use Rattle.moments.specs.Present.{edits};
ghost use Rattle.replay.specs.Replay.{TurnAsks, TurnTaken, TurnOver};

use crate::Stage;
use backends::Mode;
use fixing::{TooLarge, settle_moment};
use gather::{append_dated, gather_from, gather_within};
use moments::present;
use times::{KeyHash, PackedTime};

// Settles the key's round at t. Its input, of which e edits were loaded, is held and ahead in xv, xt and xd; its output is held in uv, ut and ud, and
// ahead in sv, st and sd. m is the meet of the moments from t on.
pub fn turn_replayed(
    mode: Mode,
    key: KeyHash,
    t: PackedTime,
    m: PackedTime,
    e: usize,
    sv: &[u64],
    st: &[u64],
    sd: &[i64],
    xv: &mut [u64],
    xt: &mut [u64],
    xd: &mut [i64],
    uv: &mut [u64],
    ut: &mut [u64],
    ud: &mut [i64],
    iv: &mut [u64],
    id: &mut [i64],
    ov: &mut [u64],
    od: &mut [i64],
    cv: &mut [u64],
    cd: &mut [i64],
    fk: &mut [u64],
    fv: &mut [u64],
    ft: &mut [u64],
    fd: &mut [i64],
    w: Stage,
) -> Result<Stage, TooLarge>
    requires { TurnAsks (length fk.old) e sv.now st.now sd.now xv.old xt.old xd.old uv.old ut.old ud.old iv.old id.old ov.old od.old cv.old cd.old fk.old fv.old ft.old fd.old w }
    ensures { MatchResult result (λ r. TurnTaken (length fk.old) (mode_number mode) key.0 t.0 m.0 e (edits sv.now st.now sd.now) (edits xv.old xt.old xd.old) (edits uv.old ut.old ud.old) w r (edits xv.new xt.new xd.new) (edits uv.new ut.new ud.new) fk.old fv.old ft.old fd.old fk.new fv.new ft.new fd.new) (λ _. TurnOver (length fk.old) (mode_number mode) key.0 t.0 m.0 e (edits sv.now st.now sd.now) (edits xv.old xt.old xd.old) (edits uv.old ut.old ud.old) w (edits xv.new xt.new xd.new)) }
{
    let x = gather_within(t, m, w.at, e, w.held, xv, xt, xd, cv, iv, ov, od);
    let u = gather_from(
        t, m, w.out, sv, st, sd, w.output, uv, ut, ud, cv, iv, ov, od,
    );
    let n = x.count;
    let o = u.count;
    let a = present(&xv[0..n], &xt[0..n], &xd[0..n], t, iv, id, 0);
    let b = present(&uv[0..o], &ut[0..o], &ud[0..o], t, ov, od, 0);
    if a + b == 0 {
        return Ok(Stage {
            held: n,
            at: x.at,
            output: o,
            out: u.at,
            crossed: false,
            fixes: w.fixes,
        });
    }
    let f = settle_moment(
        mode,
        key,
        t,
        &iv[0..a],
        &id[0..a],
        &ov[0..b],
        &od[0..b],
        cv,
        cd,
        fk,
        fv,
        ft,
        fd,
        w.fixes,
    )?;
    let c = f.count;
    let output = append_dated(&cv[0..c], &cd[0..c], t, uv, ut, ud, o);
    Ok(Stage {
        held: n,
        at: x.at,
        output,
        out: u.at,
        crossed: true,
        fixes: f.fixes,
    })
}
