// What the histories do to one column at a time.
ghost use Rattle.std.specs.Prelude.{◌++◌, map, ◌≡◌, ◌+◌, ◌≤◌, eqb, leb, ltb, length, take, drop};
ghost use Rattle.std.proofs.Math.Seq.{slice};
ghost use Rattle.grid.specs.Lists.{front, ascending};
ghost use Rattle.grid.specs.Times.{join, joined};
ghost use Rattle.grid.specs.Slices.{laid};
ghost use Rattle.times.specs.Meets.{optional};

use times::{PackedTime, joined};

// The entries from a place on, none past the end. A chain that skips walks what it skips.
pub fn rest(column: &[u64], at: usize) -> &[u64]
    ensures { result.now ≡ drop at column.now }
{
    column.get(at..).unwrap_or(&[])
}

// Where the times equal to n end, from the place `at` on.
pub fn end_of_equal(times: &[u64], at: usize, n: PackedTime) -> usize
    ensures { result ≡ at + length (front (eqb n.0) (drop at times.now)) }
{
    at + rest(times, at).iter().take_while(|t| n.0 == **t).count()
}

// Where the times up to n, in ascending order, end, from the place `at` on.
pub fn end_through(column: &[u64], at: usize, n: PackedTime) -> usize
    ensures { result ≡ at + length (front (λ t. leb t n.0) (drop at column.now)) }
{
    at + rest(column, at).iter().take_while(|t| **t <= n.0).count()
}

// Moves the entries from `at` up to `to` down to the place `count`.
pub fn move_down<T: Copy>(s: &mut [T], count: usize, at: usize, to: usize)
    requires { (count ≤ at) × ((at ≤ to) × (to ≤ length s.old)) }
    ensures { s.new ≡ laid (take count s.old ++ slice at to s.old) s.old }
{
    s.copy_within(at..to, count);
}

// Joins each time with p.
pub fn join_each(p: PackedTime, s: &mut [u64])
    ensures { s.new ≡ map (join p.0) s.old }
{
    for t in s.iter_mut() {
        *t = p.join(PackedTime(*t)).0;
    }
}

// Copies times into the front of a column, each joined with the meet if there is one.
pub fn copy_joined(m: Option<PackedTime>, src: &[u64], dst: &mut [u64])
    requires { length src.now ≤ length dst.old }
    ensures { dst.new ≡ laid (map (joined (optional m)) src.now) dst.old }
{
    for (i, t) in src.iter().enumerate() {
        dst[i] = joined(m, PackedTime(*t)).0;
    }
}

// Whether the times ascend strictly.
pub fn is_ascending(s: &[u64]) -> bool
    ensures { result ≡ ascending ltb s.now }
{
    s.is_sorted_by(|a, b| a < b)
}
