// The minimal times of a list.
ghost use Rattle.std.specs.Prelude.{◌≡◌, ◌<◌, length};
ghost use Rattle.grid.specs.Frontiers.{minimal};
ghost use Rattle.grid.specs.Slices.{laid};
ghost use Rattle.times.specs.Fitted.{fitted};
ghost use Rattle.times.specs.Frontiers.{better, First};

use crate::time::{PackedTime, SPAN};

// Whether the time at i is under the bound, and earlier than the best so far if there is one.
fn is_better(ts: &[u64], bound: u64, best: usize, i: usize) -> bool
    requires { i < length ts.now }
    ensures { result ≡ better ts.now bound best i }
{
    let t = PackedTime(ts[i]);
    (t.lo() as u64) < bound && (ts.len() <= best || t < PackedTime(ts[best]))
}

// Where the first of the minimal times under the bound stands: the earliest time under the bound.
fn first_minimal(ts: &[u64], bound: u64) -> usize
    ensures { First ts.now bound result }
{
    let mut best = ts.len();
    for i in 0..ts.len() {
        if is_better(ts, bound, best, i) {
            best = i;
        }
    }
    best
}

// Writes the minimal times of a list, as many as there is room for, and says how many there are, or None where there are more than that. The rest of the
// slice stays as it was.
// The second parts of a frontier descend, so the next minimal time is the earliest under the second part of the last.
pub fn minimal_times(ts: &[u64], out: &mut [u64]) -> Option<usize>
    ensures { (result ≡ fitted (length (minimal ts.now)) (length out.old)) × (out.new ≡ laid (minimal ts.now) out.old) }
{
    let mut bound = SPAN;
    let mut k = 0;
    let mut i = first_minimal(ts, bound);
    // No `for`: each search says where the next one stands.
    while i < ts.len() {
        if k == out.len() {
            return None;
        }
        let t = PackedTime(ts[i]);
        out[k] = t.0;
        k += 1;
        bound = t.lo() as u64;
        i = first_minimal(ts, bound);
    }
    Some(k)
}
