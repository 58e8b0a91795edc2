// What a call says, as it is printed and as it is exported.
#![tactic(auto)]

ghost use Rattle.std.specs.Prelude.{◌++◌, ◌≡◌, ◌≤◌, length, drop};
ghost use Rattle.telling.specs.Said.{results_of, counted};

use answers::Outcome;
use writing::Results;

// As it is printed. A function and no From, since both types are of other crates.
pub fn results_of(o: Outcome) -> Results
    ensures { result ≡ results_of o }
{
    Results {
        status: o.status.number(),
        crossings: o.crossings,
        tiles: o.tiles,
        fixes: o.fixes,
        pending: o.pending,
        frontier: o.frontier,
    }
}

// Writes what a call says to six numbers.
#[tactic(auto, unfolding(crate::specs::Said::counted))]
pub fn tell(r: Outcome, counts: &mut [u64])
    requires { 6 ≤ length counts.old }
    ensures { counts.new ≡ counted r ++ drop 6 counts.old }
{
    counts[..6].copy_from_slice(&[
        r.status.number(),
        r.crossings,
        r.tiles as u64,
        r.fixes as u64,
        r.pending as u64,
        r.frontier as u64,
    ]);
}
