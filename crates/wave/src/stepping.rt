// One step of the wave.
ghost use Rattle.std.specs.Prelude.{map, take, get_or};
ghost use Rattle.rules.specs.Wave.{emission};
ghost use Rattle.edits.specs.Buffers.{no_edit};
ghost use Rattle.edits.specs.Edits.{edits};
ghost use Rattle.wave.specs.Turns.{Emits, LentEdit, LentTurn, Turns};

use edits::step;
use emissions::{advance_beside, emit_pairs};
use histories::Place;
use times::PackedTime;

// The places after a step, the stepped history's and the other's, and how many pairs were emitted so far.
#[derive(Clone, Copy)]
pub struct Turn {
    pub stepped: Place,
    pub other: Place,
    pub count: usize,
}

// Emits the edit at a place with each of the first n of the other's.
fn emit_edit(
    times: &[u64],
    values: &[u64],
    diffs: &[i64],
    at: usize,
    othertimes: &[u64],
    othervalues: &[u64],
    otherdiffs: &[i64],
    n: usize,
    outtimes: &mut [u64],
    outvalues: &mut [u64],
    outothers: &mut [u64],
    outdiffs: &mut [i64],
    count: usize,
)
    requires { LentEdit times.now values.now diffs.now at othertimes.now othervalues.now otherdiffs.now n count }
    ensures { Emits (map (emission (get_or (edits times.now values.now diffs.now) at no_edit)) (take n (edits othertimes.now othervalues.now otherdiffs.now))) count outtimes.old outvalues.old outothers.old outdiffs.old outtimes.new outvalues.new outothers.new outdiffs.new }
{
    emit_pairs(
        PackedTime(times[at]),
        values[at],
        diffs[at],
        othertimes,
        othervalues,
        otherdiffs,
        n,
        outtimes,
        outvalues,
        outothers,
        outdiffs,
        count,
    );
}

// Steps one edit. Before, the other's buffer is advanced by the meet of what is ahead of the stepped history, and the edit is emitted with
// each of its edits.
pub fn step_beside(
    times: &mut [u64],
    values: &mut [u64],
    diffs: &mut [i64],
    suffixes: &[u64],
    p: Place,
    othertimes: &mut [u64],
    othervalues: &mut [u64],
    otherdiffs: &mut [i64],
    q: Place,
    outtimes: &mut [u64],
    outvalues: &mut [u64],
    outothers: &mut [u64],
    outdiffs: &mut [i64],
    count: usize,
) -> Turn
    requires { LentTurn times.old values.old diffs.old suffixes.now p othertimes.old othervalues.old otherdiffs.old q count }
    ensures { Turns (edits times.old values.old diffs.old) p (edits othertimes.old othervalues.old otherdiffs.old) q count outtimes.old outvalues.old outothers.old outdiffs.old (edits times.new values.new diffs.new) (edits othertimes.new othervalues.new otherdiffs.new) outtimes.new outvalues.new outothers.new outdiffs.new result }
{
    let n = advance_beside(
        times,
        suffixes,
        p.at,
        othertimes,
        othervalues,
        otherdiffs,
        q.count,
    );
    emit_edit(
        times,
        values,
        diffs,
        p.at,
        othertimes,
        othervalues,
        otherdiffs,
        n,
        outtimes,
        outvalues,
        outothers,
        outdiffs,
        count,
    );
    let r = step(times, values, diffs, p);
    Turn {
        stepped: r,
        other: Place { count: n, at: q.at },
        count: count + n,
    }
}
