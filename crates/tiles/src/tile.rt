// The tiles, one held time after the other.
ghost use Rattle.std.specs.Prelude.{◌+◌, ◌*◌, ◌≤◌, ◌<◌, length};
ghost use Rattle.rules.specs.Tiles.{tiles};
ghost use Rattle.rules.specs.Memory.{most_bound, tile_size};
ghost use Rattle.tiles.specs.Described.{Kept, Tiled, Roomy};

use crate::{cut, write};

// How many numbers a tile has.
pub const TILE_SIZE: usize = 65;

// Writes the tile of one held time, and that time, unless the tile is skipped: "skipped if the two are equal".
fn write_kept(
    out: &mut [u64],
    times: &mut [u64],
    count: usize,
    lower: &[u64],
    upper: &[u64],
    h: u64,
) -> usize
    requires { ((count * tile_size + tile_size ≤ length out.old) × (count < length times.old)) × ((length lower.now ≤ most_bound) × (length upper.now ≤ most_bound)) }
    ensures { Kept lower.now upper.now h out.old out.new times.old times.new count result }
{
    if upper == lower {
        count
    } else {
        write::write_tile(out, count * TILE_SIZE, lower, upper, h);
        times[count] = h;
        count + 1
    }
}

// Writes all tiles, and their held times. low holds the last cut, and up the next one.
pub fn write_tiles(
    lower: &[u64],
    upper: &[u64],
    held: &[u64],
    out: &mut [u64],
    times: &mut [u64],
    low: &mut [u64],
    up: &mut [u64],
) -> usize
    requires { Roomy (length lower.now) (length upper.now) (length held.now) (length out.old) (length times.old) (length low.old) (length up.old) }
    ensures { Tiled (tiles lower.now upper.now held.now) out.old out.new times.old times.new result }
{
    let mut last = write::write_all(low, 0, lower);
    let mut count = 0;
    for (i, h) in held.iter().enumerate() {
        let next = cut::cut(upper, &held[i + 1..], up);
        count = write_kept(out, times, count, &low[..last], &up[..next], *h);
        last = write::write_all(low, 0, &up[..next]);
    }
    count
}
