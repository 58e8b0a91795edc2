// "18 over all keys before 19": the answer of a call whose windows are done.
ghost use Rattle.std.specs.Prelude.{◌≡◌, length, take};
ghost use Rattle.grid.specs.Records.{rows, pairs};
ghost use Rattle.requests.specs.Memory.{SameResults};
ghost use Rattle.results.specs.Told.{Ready, published};
ghost use Rattle.answers.specs.Tells.{Tells, Concludes, concluded};

use crate::others::say_nothing;
use crate::{Course, Outcome};
use requests::{Frontiers, Pending, ResultMemory, Run, Status};
use results::{Scratch, publish};
use times::minimal_times;

// Writes the answer of a call that worked.
fn say_worked(
    f: &Frontiers<'_>,
    fixes: &Run<'_>,
    pending: &Pending<'_>,
    frontier: &[u64],
    c: Course,
    scratch: Scratch<'_>,
    results: &mut ResultMemory<'_>,
) -> Outcome
    requires { Ready fixes.now.keys.now fixes.now.values.now fixes.now.times.now fixes.now.diffs.now c.fixes pending.now.keys.now pending.now.times.now c.pended frontier.now f.now.lower.now f.now.upper.now f.now.held.now scratch.tiles.now scratch.places.now scratch.work.now results.old.numbers.now results.old.diffs.now }
    ensures tells { Tells (published c.crossings f.now.lower.now f.now.upper.now f.now.held.now (rows (take c.fixes fixes.now.keys.now) (take c.fixes fixes.now.values.now) (take c.fixes fixes.now.times.now) (take c.fixes fixes.now.diffs.now)) (pairs (take c.pended pending.now.keys.now) (take c.pended pending.now.times.now)) frontier.now) result results.old.numbers.now results.new.numbers.now results.old.diffs.now results.new.diffs.now }
    ensures same { SameResults results.old results.new }
    ensures kept { (length scratch.exit.0.now ≡ length scratch.entry.tiles.now) × ((length scratch.exit.1.0.now ≡ length scratch.entry.places.now) × (length scratch.exit.1.1.0.now ≡ length scratch.entry.work.now)) }
{
    let n = publish(
        fixes, c.fixes, pending, c.pended, frontier, f, scratch, results,
    );
    Outcome {
        status: Status::DONE,
        crossings: c.crossings,
        tiles: n.tiles,
        fixes: n.fixes,
        pending: n.pending,
        frontier: n.frontier,
    }
}

// The answer of a call whose windows are done. The scratch means nothing afterwards.
pub fn conclude(
    f: &Frontiers<'_>,
    fixes: &Run<'_>,
    pending: &Pending<'_>,
    c: Course,
    scratch: Scratch<'_>,
    results: &mut ResultMemory<'_>,
) -> Outcome
    requires { Concludes (length fixes.now.keys.now) c f.now.lower.now f.now.upper.now f.now.held.now fixes.now.keys.now fixes.now.values.now fixes.now.times.now fixes.now.diffs.now pending.now.keys.now pending.now.times.now scratch.tiles.now scratch.places.now scratch.work.now results.old.numbers.now results.old.diffs.now }
    ensures tells { Tells (concluded c f.now.lower.now f.now.upper.now f.now.held.now (rows (take c.fixes fixes.now.keys.now) (take c.fixes fixes.now.values.now) (take c.fixes fixes.now.times.now) (take c.fixes fixes.now.diffs.now)) (pairs (take c.pended pending.now.keys.now) (take c.pended pending.now.times.now))) result results.old.numbers.now results.new.numbers.now results.old.diffs.now results.new.diffs.now }
    ensures same { SameResults results.old results.new }
    ensures kept { (length scratch.exit.0.now ≡ length scratch.entry.tiles.now) × ((length scratch.exit.1.0.now ≡ length scratch.entry.places.now) × (length scratch.exit.1.1.0.now ≡ length scratch.entry.work.now)) }
{
    if c.over {
        return say_nothing(Status::OVER_LIMIT, results);
    }
    let mut frontier = [0u64; 16];
    let Some(n) = minimal_times(&pending.times[..c.pended], &mut frontier) else {
        return say_nothing(Status::OVER_LIMIT, results);
    };
    if c.large {
        return say_nothing(Status::TOO_LARGE, results);
    }
    say_worked(f, fixes, pending, &frontier[..n], c, scratch, results)
}
