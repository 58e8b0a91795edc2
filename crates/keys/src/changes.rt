// The changed keys.
ghost use Rattle.std.specs.Prelude.{[], ◌++◌, ◌≡◌, ◌+◌, ◌<◌, length, drop};
ghost use Rattle.grid.specs.Times.{puts};
ghost use Rattle.grid.specs.Slices.{Laid};
ghost use Rattle.keys.specs.Changed.{lesser_head, LentKeys};

use crate::parts::end_equal;
use times::KeyHash;

// The lesser of two heads, of which there is at least one.
fn lesser_head(first: &[u64], i: usize, second: &[u64], j: usize) -> u64
    requires { i + j < length first.now + length second.now }
    ensures { result ≡ lesser_head (drop i first.now) (drop j second.now) }
{
    if i >= first.len() {
        second[j]
    } else if j >= second.len() {
        first[i]
    } else {
        first[i].min(second[j])
    }
}

// Merges two ascending columns of keys, those of the new run and those of the pending list, and removes equals. What lies past the keys stays
// as it was.
pub fn changed_keys(newkeys: &[u64], pendingkeys: &[u64], out: &mut [u64]) -> usize
    requires { LentKeys newkeys.now pendingkeys.now out.old }
    ensures { Laid (puts (newkeys.now ++ pendingkeys.now) []) out.old out.new result }
{
    let mut i = 0;
    let mut j = 0;
    let mut k = 0;
    // A merge: i and j go past all equal keys at once.
    while i + j < newkeys.len() + pendingkeys.len() {
        let key = lesser_head(newkeys, i, pendingkeys, j);
        out[k] = key;
        k += 1;
        i = end_equal(newkeys, i, KeyHash(key));
        j = end_equal(pendingkeys, j, KeyHash(key));
    }
    k
}
