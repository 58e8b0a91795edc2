// The places of tiles.
ghost use Rattle.std.specs.Prelude.{map, ◌≡◌, ◌≤◌, length};
ghost use Rattle.grid.specs.Slices.{Laid};
ghost use Rattle.tiles.specs.Described.{position, place_beside};

use times::PackedTime;

// How many elements stand before the first x; all of them, if there is none.
fn position(xs: &[u64], x: u64) -> usize
    ensures { result ≡ position x xs.now }
{
    xs.iter().position(|y| *y == x).unwrap_or(xs.len())
}

// Writes, for each held time, its position among the tiles' held times.
pub fn write_places(held: &[u64], times: &[u64], places: &mut [u64]) -> usize
    requires { length held.now ≤ length places.old }
    ensures { Laid (map (λ h. position h times.now) held.now) places.old places.new result }
{
    for (i, h) in held.iter().enumerate() {
        places[i] = position(times, *h) as u64;
    }
    held.len()
}

// The place that stands beside the last held time at or below t; `count`, if there is none.
pub fn tile_of(held: &[u64], places: &[u64], count: u64, t: PackedTime) -> u64
    ensures { result ≡ place_beside held.now places.now count t.0 }
{
    for i in (0..held.len().min(places.len())).rev() {
        if PackedTime(held[i]).below(t) {
            return places[i];
        }
    }
    count
}
