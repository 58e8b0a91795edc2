// All rounds of a key, once it is loaded.
ghost use Rattle.std.specs.Prelude.{length, take, MatchResult};
ghost use Rattle.backends.specs.Modes.{mode_number};
ghost use Rattle.moments.specs.Present.{edits};
ghost use Rattle.fixing.specs.Settle.{KeySettled, KeyOver};
ghost use Rattle.replay.specs.Replay.{RoundsAsk};

use crate::Stage;
use crate::turn::turn_replayed;
use backends::Mode;
use fixing::TooLarge;
use marks::mark;
use times::{KeyHash, PackedTime};

// Settles the key's rounds, marks those in which it crosses, and returns how many corrections there are, or that they are too large.
// The first e edits of xv, xt and xd are its input, and sv, st and sd its output, loaded.
pub fn replay_rounds(
    mode: Mode,
    key: KeyHash,
    moments: &[u64],
    far: &[u64],
    e: usize,
    sv: &[u64],
    st: &[u64],
    sd: &[i64],
    xv: &mut [u64],
    xt: &mut [u64],
    xd: &mut [i64],
    uv: &mut [u64],
    ut: &mut [u64],
    ud: &mut [i64],
    iv: &mut [u64],
    id: &mut [i64],
    ov: &mut [u64],
    od: &mut [i64],
    cv: &mut [u64],
    cd: &mut [i64],
    marks: &mut [u8],
    fk: &mut [u64],
    fv: &mut [u64],
    ft: &mut [u64],
    fd: &mut [i64],
    fixes: usize,
) -> Result<usize, TooLarge>
    requires { RoundsAsk (length fk.old) moments.now far.now e sv.now st.now sd.now xv.old xt.old xd.old uv.old ut.old ud.old iv.old id.old ov.old od.old cv.old cd.old marks.old fk.old fv.old ft.old fd.old fixes }
    ensures { MatchResult result (λ r. KeySettled (length fk.old) (mode_number mode) key.0 (take e (edits xv.old xt.old xd.old)) (edits sv.now st.now sd.now) moments.now fixes r marks.old marks.new fk.old fv.old ft.old fd.old fk.new fv.new ft.new fd.new) (λ _. KeyOver (length fk.old) (mode_number mode) key.0 (take e (edits xv.old xt.old xd.old)) (edits sv.now st.now sd.now) moments.now fixes) }
{
    let mut w = Stage {
        held: 0,
        at: 0,
        output: 0,
        out: 0,
        crossed: false,
        fixes,
    };
    for (j, t) in moments.iter().enumerate() {
        w = turn_replayed(
            mode,
            key,
            PackedTime(*t),
            PackedTime(far[j]),
            e,
            sv,
            st,
            sd,
            xv,
            xt,
            xd,
            uv,
            ut,
            ud,
            iv,
            id,
            ov,
            od,
            cv,
            cd,
            fk,
            fv,
            ft,
            fd,
            w,
        )?;
        mark(w.crossed, j, marks);
    }
    Ok(w.fixes)
}
