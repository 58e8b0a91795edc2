// A time inserted into a frontier, dominated times removed.
ghost use Rattle.std.specs.Prelude.{false, not, ◌∷◌, ◌++◌, ◌≡◌, ◌≤◌, ◌<◌, length, take, drop};
ghost use Rattle.grid.specs.Lists.{keep};
ghost use Rattle.grid.specs.Times.{below, put};
ghost use Rattle.grid.specs.Frontiers.{beyond};
ghost use Rattle.grid.specs.Slices.{Laid};
ghost use Rattle.times.specs.Frontiers.{Inserted};

use crate::frontier::is_beyond;
use crate::time::PackedTime;

// Removes the times that t is at or below from the first `count`.
fn remove_dominated(f: &mut [u64], count: usize, t: PackedTime) -> usize
    requires { count ≤ length f.old }
    ensures { (result ≤ count) × Laid (keep (λ u. not (below t.0 u)) (take count f.old)) f.old f.new result }
{
    let mut k = 0;
    for i in 0..count {
        let u = f[i];
        if !t.below(PackedTime(u)) {
            f[k] = u;
            k += 1;
        }
    }
    k
}

// Where t belongs among the first `count` times: before the first later one.
fn place_of(t: PackedTime, f: &[u64], count: usize) -> usize
    requires { (count ≤ length f.now) × (beyond (take count f.now) t.0 ≡ false) }
    ensures { (result ≤ count) × (put t.0 (take count f.now) ≡ take result f.now ++ t.0 ∷ drop result (take count f.now)) }
{
    for i in 0..count {
        if t < PackedTime(f[i]) {
            return i;
        }
    }
    count
}

// Moves the times from a place on up by one, and writes t there.
fn put_at(f: &mut [u64], count: usize, place: usize, t: PackedTime) -> usize
    requires { (count < length f.old) × (place ≤ count) }
    ensures { Laid (take place f.old ++ t.0 ∷ drop place (take count f.old)) f.old f.new result }
{
    let mut moved = t.0;
    for i in place..count {
        let u = f[i];
        f[i] = moved;
        moved = u;
    }
    f[count] = moved;
    count + 1
}

// Inserts t into the first `count` times, dominated times removed, and says how many there are now. The rest of the slice stays as it was.
// Where there is no room for one more time, nothing is done.
pub fn insert_time(f: &mut [u64], count: usize, t: PackedTime) -> usize
    ensures { Inserted t.0 f.old count f.new result }
{
    if f.len() <= count {
        return count;
    }
    if is_beyond(&f[0..count], t) {
        return count;
    }
    let kept = remove_dominated(f, count, t);
    let place = place_of(t, f, kept);
    put_at(f, kept, place, t)
}
