// Calls that do no work, and calls whose work came to nothing.
ghost use Rattle.std.specs.Prelude.{false, ◌&&◌, ◌≡◌, leb};
ghost use Rattle.rules.specs.Call.{refused};
ghost use Rattle.requests.specs.Memory.{SameResults};
ghost use Rattle.requests.specs.Statuses.{number_of};
ghost use Rattle.placing.specs.Parts.{Wide};
ghost use Rattle.results.specs.Told.{Quiet};
ghost use Rattle.answers.specs.Tells.{Tells, TellsQuiet};

use crate::Outcome;
use requests::{Pending, ResultMemory, Status};
use results::{publish_nothing, publish_quiet};

// 1: "no tiles, no corrections; pending copied; next frontier = held; crossings 0".
pub fn say_quiet(held: &[u64], pending: &Pending<'_>, results: &mut ResultMemory<'_>) -> Outcome
    requires { Quiet held.now pending.now.keys.now pending.now.times.now results.old.numbers.now results.old.diffs.now }
    ensures tells { TellsQuiet held.now pending.now.keys.now pending.now.times.now result results.old.numbers.now results.new.numbers.now results.old.diffs.now results.new.diffs.now }
    ensures same { SameResults results.old results.new }
{
    let c = publish_quiet(held, pending, results);
    Outcome {
        status: Status::QUIET,
        crossings: 0,
        tiles: c.tiles,
        fixes: c.fixes,
        pending: c.pending,
        frontier: c.frontier,
    }
}

// 2: "all results empty"; 18 and 19: "cleared".
pub fn say_nothing(status: Status, results: &mut ResultMemory<'_>) -> Outcome
    requires { Wide results.old.numbers.now results.old.diffs.now × ((leb 11 (number_of status) && leb (number_of status) 17) ≡ false) }
    ensures tells { Tells (refused (number_of status)) result results.old.numbers.now results.new.numbers.now results.old.diffs.now results.new.diffs.now }
    ensures same { SameResults results.old results.new }
{
    let c = publish_nothing(results);
    Outcome {
        status,
        crossings: 0,
        tiles: c.tiles,
        fixes: c.fixes,
        pending: c.pending,
        frontier: c.frontier,
    }
}
