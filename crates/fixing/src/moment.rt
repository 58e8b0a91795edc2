// A key's round.
ghost use Rattle.std.specs.Prelude.{length, MatchResult};
ghost use Rattle.rules.specs.Backends.{correction};
ghost use Rattle.backends.specs.Columns.{entries};
ghost use Rattle.backends.specs.Modes.{mode_number};
ghost use Rattle.fixing.specs.Settle.{Fixes, FixedAt, OverAt};

use crate::appends::append_fixes;
use crate::ranges::is_too_large;
use crate::{Fixed, TooLarge};
use backends::{Mode, correct};
use times::{KeyHash, PackedTime};

// Settles a key's round at t, where (iv, id) is seen of its input and (ov, od) of its output: its correction is written to the front of cv and cd and
// appended to the corrections so far, unless they are too large then.
pub fn settle_moment(
    mode: Mode,
    key: KeyHash,
    t: PackedTime,
    iv: &[u64],
    id: &[i64],
    ov: &[u64],
    od: &[i64],
    cv: &mut [u64],
    cd: &mut [i64],
    fk: &mut [u64],
    fv: &mut [u64],
    ft: &mut [u64],
    fd: &mut [i64],
    fixes: usize,
) -> Result<Fixed, TooLarge>
    requires { Fixes (length fk.old) iv.now id.now ov.now od.now cv.old cd.old fk.old fv.old ft.old fd.old fixes }
    ensures { MatchResult result (λ f. FixedAt (length fk.old) key.0 t.0 (correction (mode_number mode) (entries iv.now id.now) (entries ov.now od.now)) cv.old cd.old fixes f cv.new cd.new fk.old fv.old ft.old fd.old fk.new fv.new ft.new fd.new) (λ _. OverAt (length fk.old) key.0 t.0 (correction (mode_number mode) (entries iv.now id.now) (entries ov.now od.now)) cv.old cd.old fixes cv.new cd.new) }
{
    let count = correct(mode, iv, id, ov, od, cv, cd, 0);
    if is_too_large(fixes, &cd[0..count], fk.len()) {
        return Err(TooLarge);
    }
    let fixes = append_fixes(key, t, &cv[0..count], &cd[0..count], fk, fv, ft, fd, fixes);
    Ok(Fixed { count, fixes })
}
