// What is held of a key.
ghost use Rattle.rules.specs.Retire.{dated};
ghost use Rattle.backends.specs.Columns.{entries};
ghost use Rattle.moments.specs.Present.{edits};
ghost use Rattle.rounds.specs.Merges.{Rows};
ghost use Rattle.gather.specs.Gather.{Moves, Moved, Within, WithinDone, From, FromDone, Dates};

use crate::Held;
use advances::advance_edits;
use histories::end_through;
use rounds::append_edits;
use times::PackedTime;

// Copies the edits from a to e of the columns to their places from n on, which are before a.
fn move_back(a: usize, e: usize, n: usize, xv: &mut [u64], xt: &mut [u64], xd: &mut [i64]) -> usize
    requires { Moves a e n xv.old xt.old xd.old }
    ensures { Moved a e n (edits xv.old xt.old xd.old) (edits xv.new xt.new xd.new) result }
{
    xv.copy_within(a..e, n);
    xt.copy_within(a..e, n);
    xd.copy_within(a..e, n);
    n + (e - a)
}

// In one and the same columns n edits are held, and those from a to e are ahead, by time. Those up to t join what is held, which is advanced by m.
pub fn gather_within(
    t: PackedTime,
    m: PackedTime,
    a: usize,
    e: usize,
    n: usize,
    xv: &mut [u64],
    xt: &mut [u64],
    xd: &mut [i64],
    places: &mut [u64],
    firsts: &mut [u64],
    seconds: &mut [u64],
    sums: &mut [i64],
) -> Held
    requires { Within a e n xv.old xt.old xd.old places.old firsts.old seconds.old sums.old }
    ensures { WithinDone t.0 m.0 a e n (edits xv.old xt.old xd.old) (edits xv.new xt.new xd.new) result }
{
    let to = end_through(&xt[0..e], a, t);
    let c = move_back(a, to, n, xv, xt, xd);
    let k = advance_edits(xt, xv, xd, c, Some(m), places, firsts, seconds, sums);
    Held { count: k, at: to }
}

// In the columns uv, ut and ud n edits are held, and those of sv, st and sd from a on are ahead, by time. Those up to t join what is held, which is
// advanced by m.
pub fn gather_from(
    t: PackedTime,
    m: PackedTime,
    a: usize,
    sv: &[u64],
    st: &[u64],
    sd: &[i64],
    n: usize,
    uv: &mut [u64],
    ut: &mut [u64],
    ud: &mut [i64],
    places: &mut [u64],
    firsts: &mut [u64],
    seconds: &mut [u64],
    sums: &mut [i64],
) -> Held
    requires { From a sv.now st.now sd.now n uv.old ut.old ud.old places.old firsts.old seconds.old sums.old }
    ensures { FromDone t.0 m.0 a (edits sv.now st.now sd.now) n (edits uv.old ut.old ud.old) (edits uv.new ut.new ud.new) result }
{
    let to = end_through(st, a, t);
    let c = append_edits(&sv[a..to], &st[a..to], &sd[a..to], uv, ut, ud, n);
    let k = advance_edits(ut, uv, ud, c, Some(m), places, firsts, seconds, sums);
    Held { count: k, at: to }
}

// Appends at `at` the correction (cv, cd) as edits at t.
pub fn append_dated(
    cv: &[u64],
    cd: &[i64],
    t: PackedTime,
    uv: &mut [u64],
    ut: &mut [u64],
    ud: &mut [i64],
    at: usize,
) -> usize
    requires { Dates cv.now cd.now uv.old ut.old ud.old at }
    ensures { Rows uv.old ut.old ud.old at (dated t.0 (entries cv.now cd.now)) uv.new ut.new ud.new result }
{
    let mut i = 0;
    let mut k = at;
    // There is mostly one to append, for which this costs less than a copy of each column.
    while i < cv.len() {
        uv[k] = cv[i];
        ut[k] = t.0;
        let d = cd[i];
        ud[k] = d;
        i += 1;
        k += 1;
    }
    k
}
