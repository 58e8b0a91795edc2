// What is counted of one key.
ghost use Rattle.std.specs.Prelude.{◌≡◌};
ghost use Rattle.tallies.specs.Tallied.{pended_count, Counts, Tallied};

use crate::Tally;
use discover::Found;

// How many times a key has pended; none where a limit was passed.
pub fn pended_count(r: Option<Found>) -> usize
    ensures { result ≡ pended_count r }
{
    r.map_or(0, |f| f.pended)
}

// The tally with what was found of one more key, and n entries of the next pending list, if these are at most as many as it has room for.
pub fn tally_with(p: Tally, r: Option<Found>, n: usize, most: usize) -> Tally
    requires { Counts p r }
    ensures { Tallied most p r n result }
{
    if let Some(f) = r
        && n <= most
    {
        Tally {
            moments: p.moments + f.moments,
            pended: n,
            over: p.over,
        }
    } else {
        Tally { over: true, ..p }
    }
}
