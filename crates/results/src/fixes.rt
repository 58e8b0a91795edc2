// The corrections, ascending by (tile, key, value, time).
ghost use Rattle.std.specs.Prelude.{◌≤◌, ◌≡◌, map, length, take};
ghost use Rattle.grid.specs.Records.{most_records};
ghost use Rattle.rules.specs.Memory.{numbers_size};
ghost use Rattle.slices.specs.Places.{entry};
ghost use Rattle.arranging.specs.Arranged.{Long, Room};
ghost use Rattle.requests.specs.Memory.{SameResults};
ghost use Rattle.placing.specs.Parts.{laid_at, column_at, Wide};
ghost use Rattle.results.specs.Sorted.{FirstFixes, FixesTold};

use arranging::order_places;
use placing::{FIX_KEYS, FIX_TILES, FIX_TIMES, FIX_VALUES, gather_column};
use requests::{ResultMemory, Run};

// Writes the corrections at the given places to their four columns of result memory.
fn gather_fixes(tiles: &[u64], fixes: &Run<'_>, places: &[u64], res: &mut [u64])
    requires { (length places.now ≤ most_records) × (numbers_size ≤ length res.old) }
    ensures { res.new ≡ laid_at (column_at 3) (map (entry fixes.now.times.now) places.now) (laid_at (column_at 2) (map (entry fixes.now.values.now) places.now) (laid_at (column_at 1) (map (entry fixes.now.keys.now) places.now) (laid_at (column_at 0) (map (entry tiles.now) places.now) res.old))) }
{
    gather_column(tiles, places, res, FIX_TILES);
    gather_column(fixes.keys, places, res, FIX_KEYS);
    gather_column(fixes.values, places, res, FIX_VALUES);
    gather_column(fixes.times, places, res, FIX_TIMES);
}

// Writes corrections to result memory, all columns being of one length.
fn write_fixes(
    tiles: &[u64],
    fixes: &Run<'_>,
    places: &mut [u64],
    work: &mut [u64],
    results: &mut ResultMemory<'_>,
)
    requires { (length tiles.now ≤ most_records) × (Long (length tiles.now) fixes.now.keys.now fixes.now.values.now fixes.now.times.now fixes.now.diffs.now × (Room (length tiles.now) places.old work.old × Wide results.old.numbers.now results.old.diffs.now)) }
    ensures told { FixesTold tiles.now fixes.now.keys.now fixes.now.values.now fixes.now.times.now fixes.now.diffs.now results.old.numbers.now results.new.numbers.now results.old.diffs.now results.new.diffs.now }
    ensures same { SameResults results.old results.new }
{
    order_places(tiles, fixes.keys, fixes.values, fixes.times, places, work);
    gather_fixes(tiles, fixes, places, results.numbers);
    gather_column(fixes.diffs, places, results.diffs, 0);
}

// Writes the first n corrections to result memory. A correction's tile is the place of its tile.
pub fn publish_fixes(
    tiles: &[u64],
    fixes: &Run<'_>,
    n: usize,
    places: &mut [u64],
    work: &mut [u64],
    results: &mut ResultMemory<'_>,
)
    requires { FirstFixes tiles.now fixes.now.keys.now fixes.now.values.now fixes.now.times.now fixes.now.diffs.now n places.old work.old results.old.numbers.now results.old.diffs.now }
    ensures told { FixesTold (take n tiles.now) (take n fixes.now.keys.now) (take n fixes.now.values.now) (take n fixes.now.times.now) (take n fixes.now.diffs.now) results.old.numbers.now results.new.numbers.now results.old.diffs.now results.new.diffs.now }
    ensures same { SameResults results.old results.new }
{
    write_fixes(
        &tiles[..n],
        &fixes.first(n),
        &mut places[..n],
        &mut work[..n],
        results,
    );
}
