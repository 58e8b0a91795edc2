// "tile_descriptions. Cut i is upper with held[i+1..] inserted, dominated times removed. Tile i runs from the last kept cut (at first lower)
// to cut i; skipped if the two are equal."
ghost use Rattle.std.specs.Prelude.{◌≡◌};
ghost use Rattle.tiles.specs.Described.{fitting, Described};

use crate::{place, tile};
use times::MOST_TIMES;

// How many numbers 16 tiles have.
pub const TILES_SIZE: usize = 1040;

// Whether there are at most 16 times each, and room for 16 tiles and 16 places.
#[tactic(auto, unfolding(crate::specs::Described::fitting))]
fn is_fitting(lower: usize, upper: usize, held: usize, out: usize, places: usize) -> bool
    ensures { result ≡ fitting lower upper held out places }
{
    lower <= MOST_TIMES
        && upper <= MOST_TIMES
        && held <= MOST_TIMES
        && out >= TILES_SIZE
        && places >= MOST_TIMES
}

// Writes the tiles, 65 numbers each, and the place of each held time's tile; says how many tiles there are. Frontiers have at most 16 times;
// what has more, and memory too short, is refused: the answer is 0 then, and nothing is written.
pub fn tile_descriptions(
    lower: &[u64],
    upper: &[u64],
    held: &[u64],
    out: &mut [u64],
    places: &mut [u64],
) -> usize
    ensures { Described lower.now upper.now held.now out.old out.new places.old places.new result }
{
    if !is_fitting(
        lower.len(),
        upper.len(),
        held.len(),
        out.len(),
        places.len(),
    ) {
        // The answer stays a number: the caller's contract speaks of a count, and what is refused has no tile.
        return 0;
    }
    let mut times = [0u64; MOST_TIMES];
    let mut low = [0u64; 32];
    let mut up = [0u64; 32];
    let count = tile::write_tiles(lower, upper, held, out, &mut times, &mut low, &mut up);
    place::write_places(held, &times[..count], places);
    count
}
