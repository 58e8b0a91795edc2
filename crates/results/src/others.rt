// The answers of calls that do not work.
ghost use Rattle.requests.specs.Memory.{SameResults};
ghost use Rattle.placing.specs.Parts.{Wide};
ghost use Rattle.results.specs.Told.{Quiet, QuietTold, NothingTold};

use crate::worked::Counts;
use placing::{clear_results, publish_lists};
use requests::{Pending, ResultMemory};

// 1: "no tiles, no corrections; pending copied; next frontier = held".
pub fn publish_quiet(held: &[u64], pending: &Pending<'_>, results: &mut ResultMemory<'_>) -> Counts
    requires { Quiet held.now pending.now.keys.now pending.now.times.now results.old.numbers.now results.old.diffs.now }
    ensures told { QuietTold held.now pending.now.keys.now pending.now.times.now results.old.numbers.now results.new.numbers.now results.old.diffs.now results.new.diffs.now result }
    ensures same { SameResults results.old results.new }
{
    clear_results(results);
    publish_lists(pending, held, results.numbers);
    Counts {
        tiles: 0,
        fixes: 0,
        pending: pending.keys.len(),
        frontier: held.len(),
    }
}

// 2: "all results empty"; 18 and 19: "cleared".
pub fn publish_nothing(results: &mut ResultMemory<'_>) -> Counts
    requires { Wide results.old.numbers.now results.old.diffs.now }
    ensures told { NothingTold results.old.numbers.now results.new.numbers.now results.old.diffs.now results.new.diffs.now result }
    ensures same { SameResults results.old results.new }
{
    clear_results(results);
    Counts {
        tiles: 0,
        fixes: 0,
        pending: 0,
        frontier: 0,
    }
}
