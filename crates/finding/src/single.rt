// One key of a window: its moments and its pended times.
ghost use Rattle.std.specs.Prelude.{length};
ghost use Rattle.finding.specs.Tallies.{Scratch, LentTally, FindsSlot};
ghost use Rattle.finding.specs.Windowed.{LentRuns, LentSpans, state_at};

use keys::{Span, key_part};
use tallies::{Tally, append_pended, pended_count, tally_with};
use times::KeyHash;
use views::discover_view;

// Finds the moments and the pended times of one key from its parts of the runs.
pub fn find_key(
    upper: &[u64],
    key: KeyHash,
    newtimes: &[u64],
    ns: Span,
    pendingtimes: &[u64],
    ps: Span,
    intimes: &[u64],
    invalues: &[u64],
    indiffs: &[i64],
    ins: Span,
    outtimes: &[u64],
    os: Span,
    seeds: &mut [u64],
    times: &mut [u64],
    values: &mut [u64],
    diffs: &mut [i64],
    output: &mut [u64],
    meets: &mut [u64],
    waiting: &mut [u64],
    tracked: &mut [u64],
    moments: &mut [u64],
    pended: &mut [u64],
    work: &mut [u64],
    places: &mut [u64],
    wvalues: &mut [u64],
    wdiffs: &mut [i64],
    nextkeys: &mut [u64],
    nexttimes: &mut [u64],
    p: Tally,
) -> Tally
    requires scratch { Scratch (length nextkeys.old) seeds.old times.old values.old diffs.old output.old meets.old waiting.old tracked.old pended.old work.old places.old wvalues.old wdiffs.old }
    requires lent_runs { LentRuns (length nextkeys.old) newtimes.now pendingtimes.now intimes.now invalues.now indiffs.now outtimes.now × (LentSpans (length newtimes.now) ns (length pendingtimes.now) ps (length intimes.now) ins (length outtimes.now) os × LentTally (length nextkeys.old) moments.old nextkeys.old nexttimes.old p) }
    ensures { FindsSlot (length nextkeys.old) (state_at upper.now newtimes.now pendingtimes.now intimes.now invalues.now indiffs.now outtimes.now ns ps ins os) key.0 p moments.old nextkeys.old nexttimes.old moments.new nextkeys.new nexttimes.new result }
{
    let m = p.moments;
    let end = moments.len();
    let r = discover_view(
        upper,
        key_part(newtimes, ns),
        key_part(pendingtimes, ps),
        key_part(intimes, ins),
        key_part(invalues, ins),
        key_part(indiffs, ins),
        key_part(outtimes, os),
        seeds,
        times,
        values,
        diffs,
        output,
        meets,
        waiting,
        tracked,
        &mut moments[m..end],
        pended,
        work,
        places,
        wvalues,
        wdiffs,
    );
    let c = pended_count(r);
    let n = append_pended(key, &pended[0..c], nextkeys, nexttimes, p.pended);
    tally_with(p, r, n, nextkeys.len())
}
