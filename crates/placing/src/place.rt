// The tiles, and the place of each correction's tile.
ghost use Rattle.std.specs.Prelude.{map, ◌≡◌, length, take};
ghost use Rattle.tiles.specs.Described.{place_beside};
ghost use Rattle.placing.specs.Placed.{Few, TilesTold};

use crate::memory::{FRONTIER, TILES};
use requests::Frontiers;
use tiles::{tile_descriptions, tile_of};
use times::PackedTime;

// For each time, the place that stands beside the last held time at or below it.
fn place_times(times: &[u64], held: &[u64], places: &[u64], count: u64, out: &mut [u64])
    requires { length out.old ≡ length times.now }
    ensures { out.new ≡ map (place_beside held.now places.now count) times.now }
{
    for (i, t) in times.iter().enumerate() {
        out[i] = tile_of(held, places, count, PackedTime(*t));
    }
}

// Writes the tiles to result memory, and for each of the first n times the place of its tile; says how many tiles there are.
pub fn publish_tiles(
    f: &Frontiers<'_>,
    times: &[u64],
    n: usize,
    out: &mut [u64],
    res: &mut [u64],
) -> usize
    requires { Few f.now.lower.now f.now.upper.now f.now.held.now times.now n out.old res.old }
    ensures { TilesTold f.now.lower.now f.now.upper.now f.now.held.now (take n times.now) (take n out.new) res.old res.new result }
{
    let mut places = [0u64; 16];
    let count = tile_descriptions(
        f.lower,
        f.upper,
        f.held,
        &mut res[TILES..FRONTIER],
        &mut places,
    );
    place_times(&times[..n], f.held, &places, count as u64, &mut out[..n]);
    count
}
