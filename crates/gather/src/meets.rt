// The meets of the moments that are left.
ghost use Rattle.std.specs.Prelude.{◌≡◌, ◌+◌, ◌≤◌, ◌<◌, ◌^◌, length, take, drop};
ghost use Rattle.gather.specs.Meets.{meet_of, meets_of};

use times::PackedTime;

// The meet of the moments from the i-th on, if those after it have the meet `next`.
fn meet_onto(i: usize, moments: &[u64], next: u64) -> u64
    requires { (i < length moments.now) × (next ≡ meet_of (drop (i + 1) moments.now)) }
    ensures { result ≡ meet_of (drop i moments.now) }
{
    if i + 1 < moments.len() {
        PackedTime(moments[i]).meet(PackedTime(next)).0
    } else {
        moments[i]
    }
}

// Writes the meet of the moments from each one on, from the last to the first.
pub fn meets_back(moments: &[u64], far: &mut [u64])
    requires { length moments.now ≤ length far.old }
    ensures { take (length moments.now) far.new ≡ meets_of moments.now }
{
    let mut next = 0;
    for i in (0..moments.len()).rev() {
        next = meet_onto(i, moments, next);
        far[i] = next;
    }
}
