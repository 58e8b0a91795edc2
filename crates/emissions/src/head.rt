// The head comparison, and whether another turn is made.
ghost use Rattle.std.specs.Prelude.{◌≡◌, ◌≤◌, length, drop};
ghost use Rattle.emissions.specs.Heads.{head_earlier, chosen_times, goes_on};

use crate::MOST_EMISSIONS;
use histories::Place;

// Where the two histories stand, and how many pairs were emitted so far.
#[derive(Clone, Copy)]
pub struct Stand {
    pub first: Place,
    pub second: Place,
    pub count: usize,
}

// Whether the first run's head is strictly earlier than the second's: of the two, the first steps.
pub fn first_steps(first: &[u64], firstat: usize, second: &[u64], secondat: usize) -> bool
    ensures { result ≡ head_earlier (drop firstat first.now) (drop secondat second.now) }
{
    firstat < first.len() && (secondat >= second.len() || first[firstat] < second[secondat])
}

// What remains of the run whose head is strictly earlier, else of the second.
pub fn head_first<'a>(
    first: &'a [u64],
    firstat: usize,
    second: &'a [u64],
    secondat: usize,
) -> &'a [u64]
    requires { (firstat ≤ length first.now) × (secondat ≤ length second.now) }
    ensures { result.now ≡ chosen_times (drop firstat first.now) (drop secondat second.now) }
{
    if first_steps(first, firstat, second, secondat) {
        &first[firstat..]
    } else {
        &second[secondat..]
    }
}

// Whether another turn is made: the emissions are not too many yet, and of the history that steps something remains.
pub fn goes_on<'a>(first: &'a [u64], second: &'a [u64], s: Stand) -> bool
    requires { (s.first.at ≤ length first.now) × (s.second.at ≤ length second.now) }
    ensures { result ≡ goes_on (length first.now) (length second.now) s }
{
    s.count <= MOST_EMISSIONS && !head_first(first, s.first.at, second, s.second.at).is_empty()
}
