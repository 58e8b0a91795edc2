// Frontiers, as lent slices of packed times.
ghost use Rattle.std.specs.Prelude.{◌&&◌, not, [], ◌∷◌, ◌≡◌, min, ltb, length, drop};
ghost use Rattle.grid.specs.Lists.{every};
ghost use Rattle.grid.specs.Times.{least_time};
ghost use Rattle.grid.specs.Frontiers.{beyond, comparable, is_frontier};
ghost use Rattle.grid.specs.Slices.{laid};

use crate::time::PackedTime;

// The most times that a frontier has.
pub const MOST_TIMES: usize = 16;

// Whether t is beyond the frontier: some element is at or below it.
#[tactic(auto, unfolding(grid::specs::Frontiers::beyond))]
pub fn is_beyond(f: &[u64], t: PackedTime) -> bool
    ensures { result ≡ beyond f.now t.0 }
{
    f.iter().any(|u| PackedTime(*u).below(t))
}

// Whether s is earlier than t and the two are incomparable.
fn apart(s: PackedTime, t: PackedTime) -> bool
    ensures { result ≡ (ltb s.0 t.0 && not (comparable s.0 t.0)) }
{
    s < t && !s.comparable(t)
}

// Whether t is earlier than, and incomparable to, every one of the times.
fn apart_from(t: PackedTime, later: &[u64]) -> bool
    ensures { result ≡ every (λ u. ltb t.0 u && not (comparable t.0 u)) later.now }
{
    later.iter().all(|u| apart(t, PackedTime(*u)))
}

// Whether the slice is a frontier.
pub fn is_frontier(f: &[u64]) -> bool
    ensures { result ≡ is_frontier f.now }
{
    if f.len() > MOST_TIMES {
        return false;
    }
    for i in 0..f.len() {
        let t = PackedTime(f[i]);
        if !apart_from(t, &f[i + 1..]) {
            return false;
        }
    }
    true
}

// Writes the frontier that holds the least time alone, if there is room for it. The rest of the slice stays as it was.
pub fn fresh_frontier(out: &mut [u64]) -> usize
    ensures { (result ≡ min 1 (length out.old)) × (out.new ≡ laid (least_time ∷ []) out.old) }
{
    if out.len() == 0 {
        return 0;
    }
    let least = PackedTime::LEAST;
    out[0] = least.0;
    1
}
