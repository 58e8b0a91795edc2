// "Input (old and new)": the records of both runs together, in order. Each run ascends already; here they are sorted by halves.
#![tactic(auto)]

ghost use Rattle.std.specs.Prelude.{◌+◌, ◌≤◌, [], ◌++◌, map, ◌≡◌, length, take, get_or};
ghost use Rattle.arranging.specs.Arranged.{sorted_places};
ghost use Rattle.input.specs.Formed.{columns, Runs, Fits, Lending, Joined, Ordered, Formed};

use arranging::order_places;
use slices::{Entry, copy, gather};

// One column after the other, in the front of a third.
fn append<T: Entry>(first: &[T], second: &[T], out: &mut [T])
    requires { length first.now + length second.now ≤ length out.old }
    ensures { take (length first.now + length second.now) out.new ≡ first.now ++ second.now }
{
    copy(first, out);
    copy(second, &mut out[first.len()..]);
}

// The places of the first n records, in the order of the records.
fn order(
    keys: &[u64],
    values: &[u64],
    times: &[u64],
    n: usize,
    places: &mut [u64],
    work: &mut [u64],
)
    requires { (n ≤ length keys.now) × ((n ≤ length values.now) × ((n ≤ length times.now) × ((n ≤ length places.old) × (n ≤ length work.old)))) }
    ensures { take n places.new ≡ sorted_places (take n keys.now) (take n values.now) (take n times.now) [] }
{
    order_places(
        &keys[..n],
        &values[..n],
        &times[..n],
        &[],
        &mut places[..n],
        &mut work[..n],
    );
}

// The first n entries of a column, in the order of n places, in the front of another.
fn gather_front<T: Entry>(src: &[T], n: usize, places: &[u64], out: &mut [T])
    requires { (n ≤ length src.now) × ((n ≤ length places.now) × (n ≤ length out.old)) }
    ensures { take n out.new ≡ map (λ place. get_or (take n src.now) place T.ZERO) (take n places.now) }
{
    gather(&src[..n], &places[..n], &mut out[..n]);
}

// The records of two runs, one after the other.
fn join_runs(
    oldkeys: &[u64],
    oldvalues: &[u64],
    oldtimes: &[u64],
    olddiffs: &[i64],
    newkeys: &[u64],
    newvalues: &[u64],
    newtimes: &[u64],
    newdiffs: &[i64],
    bothkeys: &mut [u64],
    bothvalues: &mut [u64],
    bothtimes: &mut [u64],
    bothdiffs: &mut [i64],
)
    requires { Runs (columns oldkeys.now oldvalues.now oldtimes.now olddiffs.now) (columns newkeys.now newvalues.now newtimes.now newdiffs.now) × Fits (length oldkeys.now + length newkeys.now) (columns bothkeys.old bothvalues.old bothtimes.old bothdiffs.old) }
    ensures { Joined (columns oldkeys.now oldvalues.now oldtimes.now olddiffs.now) (columns newkeys.now newvalues.now newtimes.now newdiffs.now) (columns bothkeys.new bothvalues.new bothtimes.new bothdiffs.new) }
{
    append(oldkeys, newkeys, bothkeys);
    append(oldvalues, newvalues, bothvalues);
    append(oldtimes, newtimes, bothtimes);
    append(olddiffs, newdiffs, bothdiffs);
}

// The first n records, in order.
fn arrange(
    n: usize,
    bothkeys: &[u64],
    bothvalues: &[u64],
    bothtimes: &[u64],
    bothdiffs: &[i64],
    places: &mut [u64],
    work: &mut [u64],
    keys: &mut [u64],
    values: &mut [u64],
    times: &mut [u64],
    diffs: &mut [i64],
)
    requires { Fits n (columns bothkeys.now bothvalues.now bothtimes.now bothdiffs.now) × (Fits n (columns keys.old values.old times.old diffs.old) × ((n ≤ length places.old) × (n ≤ length work.old))) }
    ensures { Ordered n (columns bothkeys.now bothvalues.now bothtimes.now bothdiffs.now) (columns keys.new values.new times.new diffs.new) }
{
    order(bothkeys, bothvalues, bothtimes, n, places, work);
    gather_front(bothkeys, n, places, keys);
    gather_front(bothvalues, n, places, values);
    gather_front(bothtimes, n, places, times);
    gather_front(bothdiffs, n, places, diffs);
}

// The input of a call: the records of both runs, in order, in the front of the last four columns. Returns how many there are. The other lent
// columns are work memory.
pub fn form_input(
    oldkeys: &[u64],
    oldvalues: &[u64],
    oldtimes: &[u64],
    olddiffs: &[i64],
    newkeys: &[u64],
    newvalues: &[u64],
    newtimes: &[u64],
    newdiffs: &[i64],
    bothkeys: &mut [u64],
    bothvalues: &mut [u64],
    bothtimes: &mut [u64],
    bothdiffs: &mut [i64],
    places: &mut [u64],
    work: &mut [u64],
    keys: &mut [u64],
    values: &mut [u64],
    times: &mut [u64],
    diffs: &mut [i64],
) -> usize
    requires runs { Runs (columns oldkeys.now oldvalues.now oldtimes.now olddiffs.now) (columns newkeys.now newvalues.now newtimes.now newdiffs.now) }
    requires lending { Lending (length oldkeys.now + length newkeys.now) (columns bothkeys.old bothvalues.old bothtimes.old bothdiffs.old) places.old work.old (columns keys.old values.old times.old diffs.old) }
    ensures { Formed (columns oldkeys.now oldvalues.now oldtimes.now olddiffs.now) (columns newkeys.now newvalues.now newtimes.now newdiffs.now) result (columns keys.new values.new times.new diffs.new) }
{
    let n = oldkeys.len() + newkeys.len();
    join_runs(
        oldkeys, oldvalues, oldtimes, olddiffs, newkeys, newvalues, newtimes, newdiffs, bothkeys,
        bothvalues, bothtimes, bothdiffs,
    );
    arrange(
        n, bothkeys, bothvalues, bothtimes, bothdiffs, places, work, keys, values, times, diffs,
    );
    n
}
