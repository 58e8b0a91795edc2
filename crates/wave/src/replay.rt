// Two histories replayed together.
ghost use Rattle.std.specs.Prelude.{◌+◌, ◌≤◌, ◌<◌, length};
ghost use Rattle.rules.specs.Histories.{loaded};
ghost use Rattle.rules.specs.Wave.{wave};
ghost use Rattle.edits.specs.Edits.{edits};
ghost use Rattle.emissions.specs.Heads.{most_emissions};
ghost use Rattle.wave.specs.Replays.{Side, Turned, fresh, Replayed};

use crate::stepping::step_beside;
use emissions::{Stand, first_steps, goes_on};
use histories::Place;

// Steps the history whose head is strictly earlier, else the second. An emission's first value is the first history's, whichever steps.
fn turn(
    times: &mut [u64],
    values: &mut [u64],
    diffs: &mut [i64],
    suffixes: &[u64],
    othertimes: &mut [u64],
    othervalues: &mut [u64],
    otherdiffs: &mut [i64],
    othersuffixes: &[u64],
    outtimes: &mut [u64],
    outfirsts: &mut [u64],
    outseconds: &mut [u64],
    outdiffs: &mut [i64],
    s: Stand,
) -> Stand
    requires first_side { Side times.old values.old diffs.old suffixes.now s.first }
    requires second_side { Side othertimes.old othervalues.old otherdiffs.old othersuffixes.now s.second }
    requires more { (s.count ≤ most_emissions) × (s.first.at + s.second.at < length times.old + length othertimes.old) }
    ensures turned { Turned (edits times.old values.old diffs.old) (edits othertimes.old othervalues.old otherdiffs.old) s outtimes.old outfirsts.old outseconds.old outdiffs.old (edits times.new values.new diffs.new) (edits othertimes.new othervalues.new otherdiffs.new) outtimes.new outfirsts.new outseconds.new outdiffs.new result }
    ensures first_side { Side times.new values.new diffs.new suffixes.now result.first }
    ensures second_side { Side othertimes.new othervalues.new otherdiffs.new othersuffixes.now result.second }
{
    let p = s.first;
    let q = s.second;
    if first_steps(times, p.at, othertimes, q.at) {
        let t = step_beside(
            times,
            values,
            diffs,
            suffixes,
            p,
            othertimes,
            othervalues,
            otherdiffs,
            q,
            outtimes,
            outfirsts,
            outseconds,
            outdiffs,
            s.count,
        );
        Stand {
            first: t.stepped,
            second: t.other,
            count: t.count,
        }
    } else {
        let t = step_beside(
            othertimes,
            othervalues,
            otherdiffs,
            othersuffixes,
            q,
            times,
            values,
            diffs,
            p,
            outtimes,
            outseconds,
            outfirsts,
            outdiffs,
            s.count,
        );
        Stand {
            first: t.other,
            second: t.stepped,
            count: t.count,
        }
    }
}

// Replays two histories from their beginning, and appends the pairs to four columns. Returns how many there are. Once they are too many, it
// stops.
pub fn replay(
    times: &mut [u64],
    values: &mut [u64],
    diffs: &mut [i64],
    suffixes: &[u64],
    othertimes: &mut [u64],
    othervalues: &mut [u64],
    otherdiffs: &mut [i64],
    othersuffixes: &[u64],
    outtimes: &mut [u64],
    outfirsts: &mut [u64],
    outseconds: &mut [u64],
    outdiffs: &mut [i64],
) -> usize
    requires first_side { Side times.old values.old diffs.old suffixes.now fresh }
    requires second_side { Side othertimes.old othervalues.old otherdiffs.old othersuffixes.now fresh }
    ensures { Replayed (wave (length times.old + length othertimes.old) (loaded (edits times.old values.old diffs.old)) (loaded (edits othertimes.old othervalues.old otherdiffs.old))) outtimes.old outfirsts.old outseconds.old outdiffs.old outtimes.new outfirsts.new outseconds.new outdiffs.new result }
{
    let mut s = Stand {
        first: Place { count: 0, at: 0 },
        second: Place { count: 0, at: 0 },
        count: 0,
    };
    // No `for`: which of the two places moves, and how often, is known only by the heads.
    while goes_on(times, othertimes, s) {
        s = turn(
            times,
            values,
            diffs,
            suffixes,
            othertimes,
            othervalues,
            otherdiffs,
            othersuffixes,
            outtimes,
            outfirsts,
            outseconds,
            outdiffs,
            s,
        );
    }
    s.count
}
