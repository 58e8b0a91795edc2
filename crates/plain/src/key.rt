// All rounds of a key.
ghost use Rattle.std.specs.Prelude.{length, take, MatchResult};
ghost use Rattle.backends.specs.Modes.{mode_number};
ghost use Rattle.moments.specs.Present.{edits};
ghost use Rattle.fixing.specs.Settle.{KeySettled, KeyOver};
ghost use Rattle.plain.specs.Plain.{KeyAsks};

use crate::round::turn_plainly;
use backends::Mode;
use fixing::TooLarge;
use marks::mark;
use times::{KeyHash, PackedTime};

// Settles the key's rounds at its moments, marks those in which it crosses, and returns how many corrections there are. Its old output are the first n
// edits of uv, ut and ud.
pub fn rounds_plainly(
    mode: Mode,
    key: KeyHash,
    moments: &[u64],
    values: &[u64],
    times: &[u64],
    diffs: &[i64],
    n: usize,
    uv: &mut [u64],
    ut: &mut [u64],
    ud: &mut [i64],
    iv: &mut [u64],
    id: &mut [i64],
    ov: &mut [u64],
    od: &mut [i64],
    cv: &mut [u64],
    cd: &mut [i64],
    marks: &mut [u8],
    fk: &mut [u64],
    fv: &mut [u64],
    ft: &mut [u64],
    fd: &mut [i64],
    fixes: usize,
) -> Result<usize, TooLarge>
    requires { KeyAsks (length fk.old) moments.now values.now times.now diffs.now n uv.old ut.old ud.old iv.old id.old ov.old od.old cv.old cd.old marks.old fk.old fv.old ft.old fd.old fixes }
    ensures { MatchResult result (λ r. KeySettled (length fk.old) (mode_number mode) key.0 (edits values.now times.now diffs.now) (take n (edits uv.old ut.old ud.old)) moments.now fixes r marks.old marks.new fk.old fv.old ft.old fd.old fk.new fv.new ft.new fd.new) (λ _. KeyOver (length fk.old) (mode_number mode) key.0 (edits values.now times.now diffs.now) (take n (edits uv.old ut.old ud.old)) moments.now fixes) }
{
    let mut output = n;
    let mut fixes = fixes;
    for (j, t) in moments.iter().enumerate() {
        let r = turn_plainly(
            mode,
            key,
            PackedTime(*t),
            values,
            times,
            diffs,
            output,
            uv,
            ut,
            ud,
            iv,
            id,
            ov,
            od,
            cv,
            cd,
            fk,
            fv,
            ft,
            fd,
            fixes,
        )?;
        mark(r.crossed, j, marks);
        output = r.output;
        fixes = r.fixes;
    }
    Ok(fixes)
}
