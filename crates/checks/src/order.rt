// Check 14, "a run out of order or a diff out of range", and check 15, "pending not strictly ascending by (key, time)".
ghost use Rattle.std.specs.Prelude.{◌≡◌, true, ◌&&◌, ltb, length};
ghost use Rattle.grid.specs.Lists.{ascending};
ghost use Rattle.grid.specs.Consolidate.{lex};
ghost use Rattle.grid.specs.Records.{rank_before};
ghost use Rattle.rules.specs.Memory.{alike};
ghost use Rattle.requests.specs.Runs.{columns_of};
ghost use Rattle.checks.specs.Checks.{zipped, in_order};

use diffs::all_good;
use requests::{Pending, Request, Run};
use rows::pair_before;

// Whether (a, b, c) is before (x, y, z).
fn rank_before(a: u64, b: u64, c: u64, x: u64, y: u64, z: u64) -> bool
    ensures { result ≡ rank_before (a, (b, c)) (x, (y, z)) }
{
    if a == x {
        pair_before(b, c, y, z)
    } else {
        a < x
    }
}

// Whether records ascend strictly by (key, value, time).
fn ranks_ascend(ks: &[u64], vs: &[u64], ts: &[u64]) -> bool
    requires { (length vs.now ≡ length ks.now) × (length ts.now ≡ length ks.now) }
    ensures { result ≡ ascending rank_before (zipped ks.now (zipped vs.now ts.now)) }
{
    for j in 1..ks.len() {
        let i = j - 1;
        if !rank_before(ks[i], vs[i], ts[i], ks[j], vs[j], ts[j]) {
            return false;
        }
    }
    true
}

// Whether a pending list ascends strictly by (key, time).
pub fn pending_ascends(p: &Pending<'_>) -> bool
    requires { length p.now.times.now ≡ length p.now.keys.now }
    ensures { result ≡ ascending (lex ltb ltb) (zipped p.now.keys.now p.now.times.now) }
{
    for j in 1..p.keys.len() {
        let i = j - 1;
        if !pair_before(p.keys[i], p.times[i], p.keys[j], p.times[j]) {
            return false;
        }
    }
    true
}

// Whether a run is in order and its diffs in range.
#[tactic(auto, unfolding(crate::specs::Checks::in_order))]
fn is_good_run(r: &Run<'_>) -> bool
    requires { alike (columns_of r.now) ≡ true }
    ensures { result ≡ in_order (columns_of r.now) }
{
    ranks_ascend(r.keys, r.values, r.times) && all_good(r.diffs)
}

// Check 14, of all three runs.
pub fn are_good_runs(q: &Request<'_>) -> bool
    requires { (alike (columns_of q.now.old) ≡ true) × ((alike (columns_of q.now.new) ≡ true) × (alike (columns_of q.now.out) ≡ true)) }
    ensures { result ≡ (in_order (columns_of q.now.old) && in_order (columns_of q.now.new) && in_order (columns_of q.now.out)) }
{
    is_good_run(&q.old) && is_good_run(&q.new) && is_good_run(&q.out)
}
