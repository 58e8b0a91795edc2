// Steps: the next edits move from what is ahead into the buffer.
ghost use Rattle.std.specs.Prelude.{◌++◌, ◌≡◌, ◌≤◌, ◌<◌, eqb, leb, length, take};
ghost use Rattle.std.proofs.Math.Seq.{slice};
ghost use Rattle.grid.specs.Slices.{laid};
ghost use Rattle.rules.specs.Histories.{time_of};
ghost use Rattle.edits.specs.Edits.{edits, Alike};
ghost use Rattle.histories.specs.Places.{Placed, Steps, StepsOne};

use histories::{Place, Stepped, end_of_equal, end_through, move_down};
use times::PackedTime;

// Moves the edits from `at` up to `to` down to the place `count`.
pub fn move_edits(
    times: &mut [u64],
    values: &mut [u64],
    diffs: &mut [i64],
    count: usize,
    at: usize,
    to: usize,
)
    requires { Alike times.old values.old diffs.old × ((count ≤ at) × ((at ≤ to) × (to ≤ length times.old))) }
    ensures { edits times.new values.new diffs.new ≡ laid (take count (edits times.old values.old diffs.old) ++ slice at to (edits times.old values.old diffs.old)) (edits times.old values.old diffs.old) }
{
    move_down(times, count, at, to);
    move_down(values, count, at, to);
    move_down(diffs, count, at, to);
}

// Moves the next edit into the buffer.
pub fn step(times: &mut [u64], values: &mut [u64], diffs: &mut [i64], p: Place) -> Place
    requires { Alike times.old values.old diffs.old × (Placed (length times.old) p × (p.at < length times.old)) }
    ensures { StepsOne (edits times.old values.old diffs.old) p (edits times.new values.new diffs.new) result }
{
    move_edits(times, values, diffs, p.count, p.at, p.at + 1);
    Place {
        count: p.count + 1,
        at: p.at + 1,
    }
}

// Steps edits while the next one's time equals n.
pub fn step_while_time_is(
    times: &mut [u64],
    values: &mut [u64],
    diffs: &mut [i64],
    p: Place,
    n: PackedTime,
) -> Stepped
    requires { Alike times.old values.old diffs.old × Placed (length times.old) p }
    ensures { Steps (λ e. eqb n.0 (time_of e)) (edits times.old values.old diffs.old) p (edits times.new values.new diffs.new) result }
{
    let to = end_of_equal(times, p.at, n);
    move_edits(times, values, diffs, p.count, p.at, to);
    p.stepped_to(to)
}

// Steps edits while the next one's time is at most n, in ascending order.
pub fn step_through(
    times: &mut [u64],
    values: &mut [u64],
    diffs: &mut [i64],
    p: Place,
    n: PackedTime,
) -> Stepped
    requires { Alike times.old values.old diffs.old × Placed (length times.old) p }
    ensures { Steps (λ e. leb (time_of e) n.0) (edits times.old values.old diffs.old) p (edits times.new values.new diffs.new) result }
{
    let to = end_through(times, p.at, n);
    move_edits(times, values, diffs, p.count, p.at, to);
    p.stepped_to(to)
}
