// A call that does no work: it is refused, or quiet, or nothing changed.
#![tactic(auto)]

ghost use Rattle.std.specs.Prelude.{◌≤◌};
ghost use Rattle.requests.specs.Memory.{SameResults, SameWork, memory_of};
ghost use Rattle.requests.specs.Statuses.{number_of};
ghost use Rattle.idle.specs.Idled.{Idles, SaidIdle, Idled};

use answers::{Outcome, say_nothing, say_quiet};
use requests::{Pending, ResultMemory, Status, WorkMemory};
use results::clear_work;

// 1: pending list and held times are the results; 2: "all results empty".
fn say_idle(
    status: Status,
    held: &[u64],
    pending: &Pending<'_>,
    results: &mut ResultMemory<'_>,
) -> Outcome
    requires status_bound { number_of status ≤ 10 }
    requires idles { Idles (number_of status) held.now pending.now.keys.now pending.now.times.now results.old.numbers.now results.old.diffs.now }
    ensures said { SaidIdle (number_of status) held.now pending.now.keys.now pending.now.times.now result results.old.numbers.now results.new.numbers.now results.old.diffs.now results.new.diffs.now }
    ensures same { SameResults results.old results.new }
{
    if status.number() == 1 {
        return say_quiet(held, pending, results);
    }
    say_nothing(status, results)
}

// 11 to 17: "untouched". At 1 and 2 work memory is zero afterwards.
pub fn stay_idle(
    status: Status,
    held: &[u64],
    pending: &Pending<'_>,
    results: &mut ResultMemory<'_>,
    moments: &mut [u64],
    work: &mut WorkMemory<'_>,
) -> Outcome
    requires { Idles (number_of status) held.now pending.now.keys.now pending.now.times.now results.old.numbers.now results.old.diffs.now }
    ensures idled { Idled (number_of status) held.now pending.now.keys.now pending.now.times.now (memory_of results.old moments.old work.old) result (memory_of results.new moments.new work.new) }
    ensures same_results { SameResults results.old results.new }
    ensures same_work { SameWork work.old work.new }
{
    if status.is_refusal() {
        return Outcome {
            status,
            crossings: 0,
            tiles: 0,
            fixes: 0,
            pending: 0,
            frontier: 0,
        };
    }
    clear_work(moments, work);
    say_idle(status, held, pending, results)
}
