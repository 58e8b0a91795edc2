// One round of a key.
ghost use Rattle.std.specs.Prelude.{length, take, MatchResult};
ghost use Rattle.backends.specs.Modes.{mode_number};
ghost use Rattle.moments.specs.Present.{edits};
ghost use Rattle.plain.specs.Plain.{TurnAsks, TurnDone, TurnOver};

use crate::Turn;
use crate::back::merge_back;
use backends::Mode;
use fixing::{TooLarge, settle_moment};
use moments::present;
use times::{KeyHash, PackedTime};

// Settles the key's round at t. (values, times, diffs) is its input, and its output, with its corrections so far, are the first n edits of uv, ut and ud,
// ascending by value.
pub fn turn_plainly(
    mode: Mode,
    key: KeyHash,
    t: PackedTime,
    values: &[u64],
    times: &[u64],
    diffs: &[i64],
    n: usize,
    uv: &mut [u64],
    ut: &mut [u64],
    ud: &mut [i64],
    iv: &mut [u64],
    id: &mut [i64],
    ov: &mut [u64],
    od: &mut [i64],
    cv: &mut [u64],
    cd: &mut [i64],
    fk: &mut [u64],
    fv: &mut [u64],
    ft: &mut [u64],
    fd: &mut [i64],
    fixes: usize,
) -> Result<Turn, TooLarge>
    requires { TurnAsks (length fk.old) values.now times.now diffs.now n uv.old ut.old ud.old iv.old id.old ov.old od.old cv.old cd.old fk.old fv.old ft.old fd.old fixes }
    ensures { MatchResult result (λ r. TurnDone (length fk.old) (mode_number mode) key.0 t.0 (edits values.now times.now diffs.now) (take n (edits uv.old ut.old ud.old)) n fixes r uv.new ut.new ud.new fk.old fv.old ft.old fd.old fk.new fv.new ft.new fd.new) (λ _. TurnOver (length fk.old) (mode_number mode) key.0 t.0 (edits values.now times.now diffs.now) (take n (edits uv.old ut.old ud.old)) fixes) }
{
    let a = present(values, times, diffs, t, iv, id, 0);
    let b = present(&uv[0..n], &ut[0..n], &ud[0..n], t, ov, od, 0);
    if a + b == 0 {
        return Ok(Turn {
            output: n,
            crossed: false,
            fixes,
        });
    }
    let f = settle_moment(
        mode,
        key,
        t,
        &iv[0..a],
        &id[0..a],
        &ov[0..b],
        &od[0..b],
        cv,
        cd,
        fk,
        fv,
        ft,
        fd,
        fixes,
    )?;
    let k = f.count;
    let output = merge_back(t, n, &cv[0..k], &cd[0..k], uv, ut, ud, iv, ov, id);
    Ok(Turn {
        output,
        crossed: true,
        fixes: f.fixes,
    })
}
