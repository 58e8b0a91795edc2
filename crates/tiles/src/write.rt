// Numbers written to a slice from a place on. What lies past them stays as it was.
ghost use Rattle.std.specs.Prelude.{[], ◌∷◌, ◌++◌, ◌+◌, ◌≤◌, length, take, replicate};
ghost use Rattle.grid.specs.Slices.{Laid};
ghost use Rattle.rules.specs.Memory.{most_bound, tile_numbers};
ghost use Rattle.tiles.specs.Described.{bound};

// The most times of a tile's bound.
pub const MOST_BOUND: usize = 31;

pub fn write_all(out: &mut [u64], at: usize, xs: &[u64]) -> usize
    requires { at + length xs.now ≤ length out.old }
    ensures { Laid (take at out.old ++ xs.now) out.old out.new result }
{
    out[at..at + xs.len()].copy_from_slice(xs);
    at + xs.len()
}

fn write_zeros(out: &mut [u64], at: usize, n: usize) -> usize
    requires { at + n ≤ length out.old }
    ensures { Laid (take at out.old ++ replicate n 0) out.old out.new result }
{
    out[at..at + n].fill(0);
    at + n
}

fn write_one(out: &mut [u64], at: usize, x: u64) -> usize
    requires { at + 1 ≤ length out.old }
    ensures { Laid (take at out.old ++ x ∷ []) out.old out.new result }
{
    out[at] = x;
    at + 1
}

// A tile's bound: its length, then its times, padded with zeros.
fn write_bound(out: &mut [u64], at: usize, f: &[u64]) -> usize
    requires { (at + 32 ≤ length out.old) × (length f.now ≤ most_bound) }
    ensures { Laid (take at out.old ++ bound f.now) out.old out.new result }
{
    let first = write_one(out, at, f.len() as u64);
    let past = write_all(out, first, f);
    write_zeros(out, past, MOST_BOUND - f.len())
}

// A tile: its two bounds and its held time.
pub fn write_tile(out: &mut [u64], at: usize, lower: &[u64], upper: &[u64], held: u64) -> usize
    requires { (at + 65 ≤ length out.old) × ((length lower.now ≤ most_bound) × (length upper.now ≤ most_bound)) }
    ensures { Laid (take at out.old ++ tile_numbers (record { lower = lower.entry.now; upper = upper.now; held = held })) out.old out.new result }
{
    let first = write_bound(out, at, lower);
    let second = write_bound(out, first, upper);
    write_one(out, second, held)
}
