// Consolidation of entries that are lent in three columns: ascending by the first two, with the diffs of equal entries added and zeros
// dropped. An order by (time, value) lends times first, an order by (value, time) values first.
#![tactic(auto)]

ghost use Rattle.std.specs.Prelude.{◌≡◌, map, ◌<◌, length, drop};
ghost use Rattle.distinct.specs.Sets.{ends_run};
ghost use Rattle.consolidation.specs.Entries.{same_pair, pair_at, entry_at, entries, consolidated, sorted_places, Ready, Stored, Written, Front, Lent, LentWork, WorkAfter};

use ordering::sort_places;
use rows::ties;
use slices::{clear_from, count_up, entry_at};

// Whether the entries at two places are equal, but for their diffs.
#[tactic(auto, unfolding(crate::specs::Entries::same_pair))]
fn same_pair(a: &[u64], b: &[u64], i: u64, j: u64) -> bool
    ensures { result ≡ same_pair (pair_at a.now b.now i) (pair_at a.now b.now j) }
{
    ties(a, i, j) && ties(b, i, j)
}

// Whether the entry at the i-th place is the last of its equals.
fn ends_equals(a: &[u64], b: &[u64], places: &[u64], i: usize) -> bool
    requires { i < length places.now }
    ensures { result ≡ ends_run same_pair (map (pair_at a.now b.now) (drop i places.now)) }
{
    places.len() <= i + 1 || !same_pair(a, b, places[i], places[i + 1])
}

// Stores an entry: what the columns hold at a place, with the diff s.
fn store(
    a: &[u64],
    b: &[u64],
    place: u64,
    s: i64,
    firsts: &mut [u64],
    seconds: &mut [u64],
    diffs: &mut [i64],
    k: usize,
)
    requires { (k < length firsts.old) × ((k < length seconds.old) × (k < length diffs.old)) }
    ensures { Stored (pair_at a.now b.now place) s k firsts.old seconds.old diffs.old firsts.new seconds.new diffs.new }
{
    firsts[k] = entry_at(a, place);
    seconds[k] = entry_at(b, place);
    diffs[k] = s;
}

// Adds up the diffs of equal entries, going through them by sorted places, and writes those that are not zero to the front.
fn add_equals(
    a: &[u64],
    b: &[u64],
    d: &[i64],
    places: &[u64],
    firsts: &mut [u64],
    seconds: &mut [u64],
    diffs: &mut [i64],
) -> usize
    requires { Ready a.now b.now d.now places.now firsts.old seconds.old diffs.old }
    ensures { Written (consolidated (map (entry_at a.now b.now d.now) places.now)) (length places.now) result firsts.new seconds.new diffs.new }
{
    let mut sum = 0;
    let mut k = 0;
    for (i, place) in places.iter().enumerate() {
        sum += entry_at(d, *place);
        if ends_equals(a, b, places, i) {
            if sum != 0 {
                store(a, b, *place, sum, firsts, seconds, diffs, k);
                k += 1;
            }
            sum = 0;
        }
    }
    k
}

// The same, and clears what is left over.
fn add_up(
    a: &[u64],
    b: &[u64],
    d: &[i64],
    places: &[u64],
    firsts: &mut [u64],
    seconds: &mut [u64],
    diffs: &mut [i64],
) -> usize
    requires { Ready a.now b.now d.now places.now firsts.old seconds.old diffs.old }
    ensures { Front (consolidated (map (entry_at a.now b.now d.now) places.now)) (length places.now) result firsts.new seconds.new diffs.new }
{
    let k = add_equals(a, b, d, places, firsts, seconds, diffs);
    clear_from(firsts, k);
    clear_from(seconds, k);
    clear_from(diffs, k);
    k
}

// Consolidates the entries of three columns into three others, which are as long, and returns how many there are. `places` holds afterwards
// where each entry stood, in order.
pub fn consolidate_into(
    a: &[u64],
    b: &[u64],
    d: &[i64],
    places: &mut [u64],
    firsts: &mut [u64],
    seconds: &mut [u64],
    diffs: &mut [i64],
) -> usize
    requires { Lent a.now b.now d.now × LentWork (length a.now) places.old firsts.old seconds.old diffs.old }
    ensures { Front (consolidated (entries a.now b.now d.now)) (length a.now) result firsts.new seconds.new diffs.new × (places.new ≡ sorted_places a.now b.now) }
{
    count_up(places);
    sort_places(a, b, &[], &[], places, firsts);
    add_up(a, b, d, places, firsts, seconds, diffs)
}

// Consolidates the entries of three columns in place, and returns how many there are. The work columns are as long, and hold the same as the
// three columns afterwards.
pub fn consolidate(
    a: &mut [u64],
    b: &mut [u64],
    d: &mut [i64],
    places: &mut [u64],
    firsts: &mut [u64],
    seconds: &mut [u64],
    diffs: &mut [i64],
) -> usize
    requires { Lent a.old b.old d.old × LentWork (length a.old) places.old firsts.old seconds.old diffs.old }
    ensures front { Front (consolidated (entries a.old b.old d.old)) (length a.old) result a.new b.new d.new }
    ensures work_after { WorkAfter (sorted_places a.old b.old) a.new b.new d.new places.new firsts.new seconds.new diffs.new }
{
    let r = consolidate_into(a, b, d, places, firsts, seconds, diffs);
    a.copy_from_slice(firsts);
    b.copy_from_slice(seconds);
    d.copy_from_slice(diffs);
    r
}
