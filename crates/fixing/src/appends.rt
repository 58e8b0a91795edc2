// A key's correction at a moment, as records.
ghost use Rattle.backends.specs.Columns.{entries};
ghost use Rattle.fixing.specs.Fixes.{fix_rows, RowsListed, Appends};

use times::{KeyHash, PackedTime};

// Appends at `at` the corrections (cv, cd) of the key at time t.
pub fn append_fixes(
    key: KeyHash,
    t: PackedTime,
    cv: &[u64],
    cd: &[i64],
    fk: &mut [u64],
    fv: &mut [u64],
    ft: &mut [u64],
    fd: &mut [i64],
    at: usize,
) -> usize
    requires { Appends cv.now cd.now fk.old fv.old ft.old fd.old at }
    ensures { RowsListed fk.old fv.old ft.old fd.old at (fix_rows key.0 t.0 (entries cv.now cd.now)) fk.new fv.new ft.new fd.new result }
{
    let mut i = 0;
    let mut k = at;
    // There is mostly one to append, for which this costs less than a copy of each column.
    while i < cv.len() {
        fk[k] = key.0;
        fv[k] = cv[i];
        ft[k] = t.0;
        let d = cd[i];
        fd[k] = d;
        i += 1;
        k += 1;
    }
    k
}
