// The keys of a window, one after the other.
ghost use Rattle.std.specs.Prelude.{length, MatchResult};
ghost use Rattle.backends.specs.Modes.{mode_number};
ghost use Rattle.backends.specs.Segments.{segments};
ghost use Rattle.moments.specs.Present.{edits};
ghost use Rattle.moments.specs.Window.{parts_of};
ghost use Rattle.slots.specs.Slots.{slots_of};
ghost use Rattle.fixing.specs.Settle.{WindowSettled, WindowOver};
ghost use Rattle.fixing.specs.Windows.{LentRounds, Slotted};

use crate::key::replay_key;
use backends::Mode;
use fixing::TooLarge;
use times::KeyHash;

// Settles the rounds of all keys of a window, and returns how many corrections there are, or that they are too large. What is loaded and held of a key is local here. Key b's moments end at mends[b]; its input is from from[b] to to[b], its old output from ofrom[b] to oto[b].
pub fn settle_replayed(
    mode: Mode,
    keys: &[u64],
    moments: &[u64],
    mends: &[usize],
    from: &[usize],
    to: &[usize],
    tv: &[u64],
    tt: &[u64],
    td: &[i64],
    ofrom: &[usize],
    oto: &[usize],
    outvalues: &[u64],
    outtimes: &[u64],
    outdiffs: &[i64],
    uv: &mut [u64],
    ut: &mut [u64],
    ud: &mut [i64],
    iv: &mut [u64],
    id: &mut [i64],
    ov: &mut [u64],
    od: &mut [i64],
    cv: &mut [u64],
    cd: &mut [i64],
    marks: &mut [u8],
    fk: &mut [u64],
    fv: &mut [u64],
    ft: &mut [u64],
    fd: &mut [i64],
    fixes: usize,
) -> Result<usize, TooLarge>
    requires { Slotted (length fk.old) (length keys.now) moments.now mends.now from.now to.now tv.now tt.now td.now ofrom.now oto.now outvalues.now outtimes.now outdiffs.now × LentRounds (length fk.old) uv.old ut.old ud.old iv.old id.old ov.old od.old cv.old cd.old marks.old fk.old fv.old ft.old fd.old fixes }
    ensures { MatchResult result (λ r. WindowSettled (length fk.old) (mode_number mode) (slots_of keys.now (parts_of from.now to.now (edits tv.now tt.now td.now)) (parts_of ofrom.now oto.now (edits outvalues.now outtimes.now outdiffs.now)) (segments 0 mends.now moments.now)) fixes r marks.old marks.new fk.old fv.old ft.old fd.old fk.new fv.new ft.new fd.new) (λ _. WindowOver (length fk.old) (mode_number mode) (slots_of keys.now (parts_of from.now to.now (edits tv.now tt.now td.now)) (parts_of ofrom.now oto.now (edits outvalues.now outtimes.now outdiffs.now)) (segments 0 mends.now moments.now)) fixes) }
{
    let mut far = [0u64; 1024];
    let mut xv = [0u64; 8192];
    let mut xt = [0u64; 8192];
    let mut xd = [0i64; 8192];
    let mut sv = [0u64; 4096];
    let mut st = [0u64; 4096];
    let mut sd = [0i64; 4096];
    let mut start = 0;
    let mut fixes = fixes;
    for (b, key) in keys.iter().enumerate() {
        let end = mends[b];
        let f = from[b];
        let e = to[b];
        let of = ofrom[b];
        let oe = oto[b];
        fixes = replay_key(
            mode,
            KeyHash(*key),
            &moments[start..end],
            &tv[f..e],
            &tt[f..e],
            &td[f..e],
            &outvalues[of..oe],
            &outtimes[of..oe],
            &outdiffs[of..oe],
            &mut far,
            &mut xv,
            &mut xt,
            &mut xd,
            &mut sv,
            &mut st,
            &mut sd,
            uv,
            ut,
            ud,
            iv,
            id,
            ov,
            od,
            cv,
            cd,
            marks,
            fk,
            fv,
            ft,
            fd,
            fixes,
        )?;
        start = end;
    }
    Ok(fixes)
}
