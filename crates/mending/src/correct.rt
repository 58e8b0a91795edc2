// The rounds of a window, unless a limit was passed or the corrections are too large already.
ghost use Rattle.std.specs.Prelude.{◌≡◌, length, MatchResult};
ghost use Rattle.backends.specs.Modes.{mode_number};
ghost use Rattle.backends.specs.Segments.{segments};
ghost use Rattle.moments.specs.Present.{edits};
ghost use Rattle.moments.specs.Window.{parts_of};
ghost use Rattle.slots.specs.Slots.{slots_of};
ghost use Rattle.fixing.specs.Settle.{WindowSettled, WindowOver};
ghost use Rattle.fixing.specs.Windows.{LentRounds, Slotted};
ghost use Rattle.mending.specs.Corrected.{Wide, Corrects, Corrected, Weighs};

use backends::Mode;
use fixing::TooLarge;
use marks::{count_marks, longest};
use plain::settle_plainly;
use progress::{Progress, is_done};
use replaying::settle_replayed;

// From where the first part begins to where the last one ends.
fn extent(from: &[usize], to: &[usize]) -> usize
    requires { length to.now ≡ length from.now }
{
    match (from.first(), to.last()) {
        (Some(first), Some(end)) => end.saturating_sub(*first),
        _ => 0,
    }
}

// Whether a collapsed replay is the faster way: some key has many moments, and the keys have many records. Both ways have one contract.
fn pays_to_replay(
    mends: &[usize],
    from: &[usize],
    to: &[usize],
    ofrom: &[usize],
    oto: &[usize],
) -> bool
    requires { Weighs mends.now from.now to.now ofrom.now oto.now }
{
    let least = 64 * mends.len();
    longest(mends) >= 8 && (least <= extent(from, to) || least <= extent(ofrom, oto))
}

// Settles the window's rounds, the faster way, and returns how many corrections there are, or that they are too large.
fn settle(
    mode: Mode,
    keys: &[u64],
    moments: &[u64],
    mends: &[usize],
    from: &[usize],
    to: &[usize],
    tv: &[u64],
    tt: &[u64],
    td: &[i64],
    ofrom: &[usize],
    oto: &[usize],
    outvalues: &[u64],
    outtimes: &[u64],
    outdiffs: &[i64],
    uv: &mut [u64],
    ut: &mut [u64],
    ud: &mut [i64],
    iv: &mut [u64],
    id: &mut [i64],
    ov: &mut [u64],
    od: &mut [i64],
    cv: &mut [u64],
    cd: &mut [i64],
    marks: &mut [u8],
    fk: &mut [u64],
    fv: &mut [u64],
    ft: &mut [u64],
    fd: &mut [i64],
    fixes: usize,
) -> Result<usize, TooLarge>
    requires { Slotted (length fk.old) (length keys.now) moments.now mends.now from.now to.now tv.now tt.now td.now ofrom.now oto.now outvalues.now outtimes.now outdiffs.now × LentRounds (length fk.old) uv.old ut.old ud.old iv.old id.old ov.old od.old cv.old cd.old marks.old fk.old fv.old ft.old fd.old fixes }
    ensures { MatchResult result (λ r. WindowSettled (length fk.old) (mode_number mode) (slots_of keys.now (parts_of from.now to.now (edits tv.now tt.now td.now)) (parts_of ofrom.now oto.now (edits outvalues.now outtimes.now outdiffs.now)) (segments 0 mends.now moments.now)) fixes r marks.old marks.new fk.old fv.old ft.old fd.old fk.new fv.new ft.new fd.new) (λ _. WindowOver (length fk.old) (mode_number mode) (slots_of keys.now (parts_of from.now to.now (edits tv.now tt.now td.now)) (parts_of ofrom.now oto.now (edits outvalues.now outtimes.now outdiffs.now)) (segments 0 mends.now moments.now)) fixes) }
{
    if pays_to_replay(mends, from, to, ofrom, oto) {
        settle_replayed(
            mode, keys, moments, mends, from, to, tv, tt, td, ofrom, oto, outvalues, outtimes,
            outdiffs, uv, ut, ud, iv, id, ov, od, cv, cd, marks, fk, fv, ft, fd, fixes,
        )
    } else {
        settle_plainly(
            mode, keys, moments, mends, from, to, tv, tt, td, ofrom, oto, outvalues, outtimes,
            outdiffs, uv, ut, ud, iv, id, ov, od, cv, cd, marks, fk, fv, ft, fd, fixes,
        )
    }
}

// Settles a window's rounds: its corrections are appended to those so far, and the rounds in which a key crossed are counted. The front of result memory
// serves as a column of values.
pub fn correct_window(
    mode: Mode,
    keys: &[u64],
    moments: &[u64],
    mends: &[usize],
    from: &[usize],
    to: &[usize],
    tv: &[u64],
    tt: &[u64],
    td: &[i64],
    ofrom: &[usize],
    oto: &[usize],
    outvalues: &[u64],
    outtimes: &[u64],
    outdiffs: &[i64],
    uv: &mut [u64],
    ut: &mut [u64],
    ud: &mut [i64],
    iv: &mut [u64],
    id: &mut [i64],
    ov: &mut [u64],
    od: &mut [i64],
    cd: &mut [i64],
    fk: &mut [u64],
    fv: &mut [u64],
    ft: &mut [u64],
    fd: &mut [i64],
    res: &mut [u64],
    p: Progress,
) -> Progress
    requires wide { Wide (length fk.old) uv.old ut.old ud.old iv.old id.old ov.old od.old cd.old res.old }
    requires corrects { Corrects (length fk.old) keys.now moments.now mends.now from.now to.now tv.now tt.now td.now ofrom.now oto.now outvalues.now outtimes.now outdiffs.now fk.old fv.old ft.old fd.old p }
    ensures { Corrected (length fk.old) (mode_number mode) keys.now (parts_of from.now to.now (edits tv.now tt.now td.now)) (parts_of ofrom.now oto.now (edits outvalues.now outtimes.now outdiffs.now)) (segments 0 mends.now moments.now) p result fk.old fv.old ft.old fd.old fk.new fv.new ft.new fd.new }
{
    if is_done(p) {
        return p;
    }
    let long = cd.len();
    let mut marks = [0u8; 1024];
    let settled = settle(
        mode,
        keys,
        moments,
        mends,
        from,
        to,
        tv,
        tt,
        td,
        ofrom,
        oto,
        outvalues,
        outtimes,
        outdiffs,
        uv,
        ut,
        ud,
        iv,
        id,
        ov,
        od,
        &mut res[0..long],
        cd,
        &mut marks,
        fk,
        fv,
        ft,
        fd,
        p.fixes,
    );
    match settled {
        Ok(fixes) => {
            let n = longest(mends);
            let crossed = count_marks(&marks[0..n]);
            Progress {
                fixes,
                crossings: p.crossings + crossed as u64,
                ..p
            }
        }
        Err(TooLarge) => Progress { large: true, ..p },
    }
}
