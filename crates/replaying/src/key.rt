// All rounds of a key.
ghost use Rattle.std.specs.Prelude.{length, MatchResult};
ghost use Rattle.backends.specs.Modes.{mode_number};
ghost use Rattle.moments.specs.Present.{edits};
ghost use Rattle.fixing.specs.Settle.{KeySettled, KeyOver};
ghost use Rattle.fixing.specs.Windows.{LentRounds};
ghost use Rattle.replaying.specs.Keyed.{KeyAsks};

use backends::Mode;
use fixing::TooLarge;
use gather::load_key;
use replay::replay_rounds;
use times::KeyHash;

// Loads the key's input and output, settles its rounds, and returns how many corrections there are.
pub fn replay_key(
    mode: Mode,
    key: KeyHash,
    moments: &[u64],
    values: &[u64],
    times: &[u64],
    diffs: &[i64],
    outvalues: &[u64],
    outtimes: &[u64],
    outdiffs: &[i64],
    far: &mut [u64],
    xv: &mut [u64],
    xt: &mut [u64],
    xd: &mut [i64],
    sv: &mut [u64],
    st: &mut [u64],
    sd: &mut [i64],
    uv: &mut [u64],
    ut: &mut [u64],
    ud: &mut [i64],
    iv: &mut [u64],
    id: &mut [i64],
    ov: &mut [u64],
    od: &mut [i64],
    cv: &mut [u64],
    cd: &mut [i64],
    marks: &mut [u8],
    fk: &mut [u64],
    fv: &mut [u64],
    ft: &mut [u64],
    fd: &mut [i64],
    fixes: usize,
) -> Result<usize, TooLarge>
    requires { KeyAsks (length fk.old) moments.now values.now times.now diffs.now outvalues.now outtimes.now outdiffs.now far.old xv.old xt.old xd.old sv.old st.old sd.old × LentRounds (length fk.old) uv.old ut.old ud.old iv.old id.old ov.old od.old cv.old cd.old marks.old fk.old fv.old ft.old fd.old fixes }
    ensures { MatchResult result (λ r. KeySettled (length fk.old) (mode_number mode) key.0 (edits values.now times.now diffs.now) (edits outvalues.now outtimes.now outdiffs.now) moments.now fixes r marks.old marks.new fk.old fv.old ft.old fd.old fk.new fv.new ft.new fd.new) (λ _. KeyOver (length fk.old) (mode_number mode) key.0 (edits values.now times.now diffs.now) (edits outvalues.now outtimes.now outdiffs.now) moments.now fixes) }
{
    if moments.is_empty() {
        return Ok(fixes);
    }
    let l = load_key(
        moments, values, times, diffs, outvalues, outtimes, outdiffs, far, xv, xt, xd, sv, st, sd,
        iv, ov,
    );
    let o = l.output;
    replay_rounds(
        mode,
        key,
        moments,
        far,
        l.input,
        &sv[0..o],
        &st[0..o],
        &sd[0..o],
        xv,
        xt,
        xd,
        uv,
        ut,
        ud,
        iv,
        id,
        ov,
        od,
        cv,
        cd,
        marks,
        fk,
        fv,
        ft,
        fd,
        fixes,
    )
}
