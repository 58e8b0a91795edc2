// A window's search and discovery.
ghost use Rattle.std.specs.Prelude.{length};
ghost use Rattle.finding.specs.Tallies.{Scratch};
ghost use Rattle.seeking.specs.Sought.{found_in, Seeks, Reached, LentSeek, Sought};

use finding::find_window;
use progress::Progress;
use searches::{Places, search_window};
use tallies::Tally;

// Finds the parts of a window's keys in the runs, then the keys' moments and pended times. From the seeds to the work diffs, all but the moments
// is scratch.
pub fn seek_window(
    upper: &[u64],
    keys: &[u64],
    newkeys: &[u64],
    newtimes: &[u64],
    pendingkeys: &[u64],
    pendingtimes: &[u64],
    inkeys: &[u64],
    invalues: &[u64],
    intimes: &[u64],
    indiffs: &[i64],
    outkeys: &[u64],
    outtimes: &[u64],
    seeds: &mut [u64],
    times: &mut [u64],
    values: &mut [u64],
    diffs: &mut [i64],
    output: &mut [u64],
    meets: &mut [u64],
    waiting: &mut [u64],
    tracked: &mut [u64],
    moments: &mut [u64],
    pended: &mut [u64],
    work: &mut [u64],
    places: &mut [u64],
    wvalues: &mut [u64],
    wdiffs: &mut [i64],
    nextkeys: &mut [u64],
    nexttimes: &mut [u64],
    mends: &mut [usize],
    ifrom: &mut [usize],
    ito: &mut [usize],
    ofrom: &mut [usize],
    oto: &mut [usize],
    p: Progress,
) -> Progress
    requires scratch { Scratch (length nextkeys.old) seeds.old times.old values.old diffs.old output.old meets.old waiting.old tracked.old pended.old work.old places.old wvalues.old wdiffs.old }
    requires seeks { Seeks (length nextkeys.old) newkeys.now newtimes.now pendingkeys.now pendingtimes.now inkeys.now invalues.now intimes.now indiffs.now outkeys.now outtimes.now × (Reached newkeys.now pendingkeys.now inkeys.now outkeys.now keys.now p × LentSeek (length nextkeys.old) keys.now moments.old nextkeys.old nexttimes.old mends.old ifrom.old ito.old ofrom.old oto.old p) }
    ensures { Sought (length nextkeys.old) (found_in upper.now newkeys.now newtimes.now pendingkeys.now pendingtimes.now inkeys.now invalues.now intimes.now indiffs.now outkeys.now outtimes.now) newkeys.now pendingkeys.now inkeys.now outkeys.now keys.now p nextkeys.old nexttimes.old moments.new nextkeys.new nexttimes.new mends.new ifrom.new ito.new ofrom.new oto.new result }
{
    let mut nfrom = [0usize; 64];
    let mut nto = [0usize; 64];
    let mut pfrom = [0usize; 64];
    let mut pto = [0usize; 64];
    let at = search_window(
        keys,
        newkeys,
        pendingkeys,
        inkeys,
        outkeys,
        &mut nfrom,
        &mut nto,
        &mut pfrom,
        &mut pto,
        ifrom,
        ito,
        ofrom,
        oto,
        Places {
            new: p.new,
            pending: p.pending,
            input: p.input,
            out: p.out,
        },
    );
    let t = find_window(
        upper,
        keys,
        newtimes,
        &nfrom,
        &nto,
        pendingtimes,
        &pfrom,
        &pto,
        intimes,
        invalues,
        indiffs,
        ifrom,
        ito,
        outtimes,
        ofrom,
        oto,
        seeds,
        times,
        values,
        diffs,
        output,
        meets,
        waiting,
        tracked,
        moments,
        pended,
        work,
        places,
        wvalues,
        wdiffs,
        nextkeys,
        nexttimes,
        mends,
        Tally {
            moments: 0,
            pended: p.pended,
            over: p.over,
        },
    );
    Progress {
        new: at.new,
        pending: at.pending,
        input: at.input,
        out: at.out,
        pended: t.pended,
        over: t.over,
        ..p
    }
}
