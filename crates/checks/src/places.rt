// Where times lie: checks 12, 13, 16 and 17, and the rows 1 and 2.
ghost use Rattle.std.specs.Prelude.{◌≡◌};
ghost use Rattle.grid.specs.Lists.{every};
ghost use Rattle.grid.specs.Frontiers.{beyond, short_of};
ghost use Rattle.checks.specs.Checks.{held_at, frontiers, above, placed, covered};

use requests::{Frontiers, Request};
use times::{PackedTime, is_beyond, is_frontier};

// Whether every time is beyond the frontier.
pub fn all_beyond(f: &[u64], ts: &[u64]) -> bool
    ensures { result ≡ every (beyond f.now) ts.now }
{
    ts.iter().all(|t| is_beyond(f, PackedTime(*t)))
}

// Whether every time is short of the frontier.
fn all_short(f: &[u64], ts: &[u64]) -> bool
    ensures { result ≡ every (short_of f.now) ts.now }
{
    ts.iter().all(|t| !is_beyond(f, PackedTime(*t)))
}

#[tactic(auto, unfolding(crate::specs::Checks::held_at))]
fn is_held(upper: &[u64], held: &[u64], t: PackedTime) -> bool
    ensures { result ≡ held_at upper.now held.now t.0 }
{
    is_beyond(upper, t) || is_beyond(held, t)
}

// Whether every time that is short of upper has a held time at or below it.
fn all_held(upper: &[u64], held: &[u64], ts: &[u64]) -> bool
    ensures { result ≡ every (held_at upper.now held.now) ts.now }
{
    ts.iter().all(|t| is_held(upper, held, PackedTime(*t)))
}

// Check 12: lower, upper and held are frontiers.
#[tactic(auto, unfolding(crate::specs::Checks::frontiers))]
pub fn are_frontiers(f: &Frontiers<'_>) -> bool
    ensures { result ≡ frontiers f.now.lower.now f.now.upper.now f.now.held.now }
{
    is_frontier(f.lower) && is_frontier(f.upper) && is_frontier(f.held)
}

// Check 13: upper and held times are beyond lower.
#[tactic(auto, unfolding(crate::specs::Checks::above))]
pub fn are_above(f: &Frontiers<'_>) -> bool
    ensures { result ≡ above f.now.lower.now f.now.upper.now f.now.held.now }
{
    all_beyond(f.lower, f.upper) && all_beyond(f.lower, f.held)
}

// Check 16: old input and old output are short of lower, new input is between lower and upper, pending times are beyond lower.
#[tactic(auto, unfolding(crate::specs::Checks::placed))]
pub fn are_placed(q: &Request<'_>) -> bool
    ensures { result ≡ placed q.now.frontiers.lower.now q.now.frontiers.upper.now q.now.old.times.now q.now.new.times.now q.now.out.times.now q.now.pending.times.now }
{
    let Frontiers { lower, upper, .. } = q.frontiers;
    all_short(lower, q.old.times)
        && all_short(lower, q.out.times)
        && all_beyond(lower, q.new.times)
        && all_short(upper, q.new.times)
        && all_beyond(lower, q.pending.times)
}

// Check 17: every new or pending time short of upper has a held time at or below it.
#[tactic(auto, unfolding(crate::specs::Checks::covered))]
pub fn are_held(q: &Request<'_>) -> bool
    ensures { result ≡ covered q.now.frontiers.upper.now q.now.frontiers.held.now q.now.new.times.now q.now.pending.times.now }
{
    let Frontiers { upper, held, .. } = q.frontiers;
    all_held(upper, held, q.new.times) && all_held(upper, held, q.pending.times)
}
