// Sets of times: strictly ascending lists at the front of a lent slice.
#![tactic(auto)]

ghost use Rattle.std.specs.Prelude.{◌≡◌, true, [], ◌<◌, eqb, leb, ltb, length, take, drop, MatchResult};
ghost use Rattle.grid.specs.Lists.{sort, ascending};
ghost use Rattle.grid.specs.Times.{puts};
ghost use Rattle.distinct.specs.Sets.{ends_run, Squeezed, Removed, StandsAt, BelongsAt, Inserted};

use slices::clear_from;
use sorting::sort_times;
use times::PackedTime;

// Whether the element at i differs from the next one.
fn ends_run(s: &[u64], i: usize) -> bool
    requires { i < length s.now }
    ensures { result ≡ ends_run eqb (drop i s.now) }
{
    s.len() <= i + 1 || s[i] != s[i + 1]
}

// Moves the last of each run of equals to the front.
fn squeeze(s: &mut [u64]) -> usize
    requires { sort leb s.old ≡ s.old }
    ensures { Squeezed s.old s.new result }
{
    let mut k = 0;
    for i in 0..s.len() {
        if ends_run(s, i) {
            s[k] = s[i];
            k += 1;
        }
    }
    k
}

// Removes equals from a sorted list, and clears what is left over. Returns how many elements remain.
pub fn remove_equals(s: &mut [u64]) -> usize
    requires { sort leb s.old ≡ s.old }
    ensures { Removed (puts s.old []) (length s.old) s.new result }
{
    let k = squeeze(s);
    clear_from(s, k);
    k
}

// Sorts times and removes equals. The work slice is as long, and holds the sorted list afterwards.
pub fn sort_distinct(s: &mut [u64], w: &mut [u64]) -> usize
    requires { length w.old ≡ length s.old }
    ensures { Removed (puts s.old []) (length s.old) s.new result × (w.new ≡ sort leb s.old) }
{
    sort_times(s, w);
    remove_equals(s)
}

// Where t stands in an ascending list, or where it would, by halving. As the library's binary_search, but the element at the place goes along with it:
// so a half is chosen without a branch, which is often guessed wrong.
fn place_of(s: &[u64], t: u64) -> Result<usize, usize>
    requires { ascending ltb s.now ≡ true }
    ensures { MatchResult result (StandsAt t s.now) (BelongsAt t s.now) }
{
    let mut size = s.len();
    if size == 0 {
        return Err(0);
    }
    let mut place = 0;
    let mut here = s[0];
    while size > 1 {
        let half = size / 2;
        let middle = s[place + half];
        size -= half;
        if middle <= t {
            place += half;
            here = middle;
        }
    }
    if here == t {
        Ok(place)
    } else if here < t {
        Err(place + 1)
    } else {
        Err(place)
    }
}

// Puts t into the set of the first count elements, where halving finds its place. Returns how many there are then.
pub fn insert_distinct(s: &mut [u64], count: usize, t: PackedTime) -> usize
    requires { (count < length s.old) × (ascending ltb (take count s.old) ≡ true) }
    ensures { Inserted t.0 count s.old s.new result }
{
    match place_of(&s[..count], t.0) {
        Ok(_) => count,
        Err(place) => {
            s[count] = t.0;
            s[place..=count].rotate_right(1);
            count + 1
        }
    }
}
