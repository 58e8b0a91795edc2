// The discovery of a window.
ghost use Rattle.std.specs.Prelude.{◌≡◌, ◌<◌, length, take};
ghost use Rattle.finding.specs.Tallies.{Scratch};
ghost use Rattle.finding.specs.Windowed.{LentRuns, LentWindow, Parted, span_in, spans_in, state_at, fourfold, FindsWindow};

use crate::single::find_key;
use keys::Span;
use tallies::Tally;
use times::KeyHash;

// The part that two columns tell at a place.
fn span_at(from: &[usize], to: &[usize], b: usize) -> Span
    requires { (b < length from.now) × (b < length to.now) }
    ensures { result ≡ span_in from.now to.now b }
{
    Span {
        from: from[b],
        to: to[b],
    }
}

// Finds the moments and the pended times of all keys of a window, whose parts of the runs the fronts of eight columns tell. Slot b's moments are
// laid in a row, and end at mends[b]; its pended times follow those of the keys before in the next pending list. From the seeds to the work diffs,
// all but the moments is scratch.
pub fn find_window(
    upper: &[u64],
    keys: &[u64],
    newtimes: &[u64],
    nfrom: &[usize],
    nto: &[usize],
    pendingtimes: &[u64],
    pfrom: &[usize],
    pto: &[usize],
    intimes: &[u64],
    invalues: &[u64],
    indiffs: &[i64],
    ifrom: &[usize],
    ito: &[usize],
    outtimes: &[u64],
    ofrom: &[usize],
    oto: &[usize],
    seeds: &mut [u64],
    times: &mut [u64],
    values: &mut [u64],
    diffs: &mut [i64],
    output: &mut [u64],
    meets: &mut [u64],
    waiting: &mut [u64],
    tracked: &mut [u64],
    moments: &mut [u64],
    pended: &mut [u64],
    work: &mut [u64],
    places: &mut [u64],
    wvalues: &mut [u64],
    wdiffs: &mut [i64],
    nextkeys: &mut [u64],
    nexttimes: &mut [u64],
    mends: &mut [usize],
    p: Tally,
) -> Tally
    requires scratch { Scratch (length nextkeys.old) seeds.old times.old values.old diffs.old output.old meets.old waiting.old tracked.old pended.old work.old places.old wvalues.old wdiffs.old }
    requires lent_runs { LentRuns (length nextkeys.old) newtimes.now pendingtimes.now intimes.now invalues.now indiffs.now outtimes.now × LentWindow (length nextkeys.old) keys.now moments.old mends.old nextkeys.old nexttimes.old p }
    requires parted { Parted (length keys.now) (length newtimes.now) (take (length keys.now) nfrom.now) (take (length keys.now) nto.now) × (Parted (length keys.now) (length pendingtimes.now) (take (length keys.now) pfrom.now) (take (length keys.now) pto.now) × (Parted (length keys.now) (length intimes.now) (take (length keys.now) ifrom.now) (take (length keys.now) ito.now) × Parted (length keys.now) (length outtimes.now) (take (length keys.now) ofrom.now) (take (length keys.now) oto.now))) }
    ensures { FindsWindow (length nextkeys.old) keys.now (fourfold (state_at upper.now newtimes.now pendingtimes.now intimes.now invalues.now indiffs.now outtimes.now) (spans_in (take (length keys.now) nfrom.now) (take (length keys.now) nto.now)) (spans_in (take (length keys.now) pfrom.now) (take (length keys.now) pto.now)) (spans_in (take (length keys.now) ifrom.now) (take (length keys.now) ito.now)) (spans_in (take (length keys.now) ofrom.now) (take (length keys.now) oto.now))) p mends.old nextkeys.old nexttimes.old moments.new mends.new nextkeys.new nexttimes.new result }
{
    let mut w = p;
    for (b, key) in keys.iter().enumerate() {
        w = find_key(
            upper,
            KeyHash(*key),
            newtimes,
            span_at(nfrom, nto, b),
            pendingtimes,
            span_at(pfrom, pto, b),
            intimes,
            invalues,
            indiffs,
            span_at(ifrom, ito, b),
            outtimes,
            span_at(ofrom, oto, b),
            seeds,
            times,
            values,
            diffs,
            output,
            meets,
            waiting,
            tracked,
            moments,
            pended,
            work,
            places,
            wvalues,
            wdiffs,
            nextkeys,
            nexttimes,
            w,
        );
        mends[b] = w.moments;
    }
    w
}
