// The answer of a call, written to result memory.
ghost use Rattle.std.specs.Prelude.{◌≡◌, length, take};
ghost use Rattle.requests.specs.Memory.{SameResults};
ghost use Rattle.results.specs.Told.{Ready, Published};

use crate::fixes::publish_fixes;
use placing::{clear_results, publish_lists, publish_tiles};
use requests::{Frontiers, Pending, ResultMemory, Run};

// How many entries of result memory are used.
#[derive(Clone, Copy)]
pub struct Counts {
    pub tiles: usize,
    pub fixes: usize,
    pub pending: usize,
    pub frontier: usize,
}

// Columns to work in, as long as there are corrections. They mean nothing afterwards.
#[derive(Drop)]
pub struct Scratch<'a> {
    pub tiles: &'a mut [u64],
    pub places: &'a mut [u64],
    pub work: &'a mut [u64],
}

// Writes the answer of a call that worked: the first n corrections, in any order, the first m pending entries, ascending, and the next frontier.
pub fn publish(
    fixes: &Run<'_>,
    n: usize,
    pending: &Pending<'_>,
    m: usize,
    frontier: &[u64],
    f: &Frontiers<'_>,
    scratch: Scratch<'_>,
    results: &mut ResultMemory<'_>,
) -> Counts
    requires { Ready fixes.now.keys.now fixes.now.values.now fixes.now.times.now fixes.now.diffs.now n pending.now.keys.now pending.now.times.now m frontier.now f.now.lower.now f.now.upper.now f.now.held.now scratch.tiles.now scratch.places.now scratch.work.now results.old.numbers.now results.old.diffs.now }
    ensures told { Published (take n fixes.now.keys.now) (take n fixes.now.values.now) (take n fixes.now.times.now) (take n fixes.now.diffs.now) (take m pending.now.keys.now) (take m pending.now.times.now) frontier.now f.now.lower.now f.now.upper.now f.now.held.now results.old.numbers.now results.new.numbers.now results.old.diffs.now results.new.diffs.now result }
    ensures same { SameResults results.old results.new }
    ensures kept { (length scratch.exit.0.now ≡ length scratch.entry.tiles.now) × ((length scratch.exit.1.0.now ≡ length scratch.entry.places.now) × (length scratch.exit.1.1.0.now ≡ length scratch.entry.work.now)) }
{
    let Scratch {
        tiles: beside,
        places,
        work,
    } = scratch;
    clear_results(results);
    let tiles = publish_tiles(f, fixes.times, n, beside, results.numbers);
    publish_fixes(beside, fixes, n, places, work, results);
    publish_lists(&pending.first(m), frontier, results.numbers);
    Counts {
        tiles,
        fixes: n,
        pending: m,
        frontier: frontier.len(),
    }
}
