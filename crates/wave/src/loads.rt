// Both sides loaded and replayed.
ghost use Rattle.rules.specs.Wave.{wave_of};
ghost use Rattle.rules.proofs.Wave.{WaveRun};
ghost use Rattle.edits.specs.Edits.{edits, Alike};
ghost use Rattle.wave.specs.Replays.{Replayed};
ghost use Rattle.wave.specs.Calls.{Blank, SideLoaded};

use crate::replay::replay;
use edits::load_edits;
use emissions::MOST_EDITS;
use histories::suffix_meets;

// Loads one side as a history, with the meets of all its suffixes. Returns how many edits it has.
fn load_side(
    fromtimes: &[u64],
    fromvalues: &[u64],
    fromdiffs: &[i64],
    times: &mut [u64],
    values: &mut [u64],
    diffs: &mut [i64],
    suffixes: &mut [u64],
) -> usize
    requires alike { Alike fromtimes.now fromvalues.now fromdiffs.now × WaveRun (edits fromtimes.now fromvalues.now fromdiffs.now) }
    requires blank { Blank times.old values.old diffs.old suffixes.old }
    ensures { SideLoaded (edits fromtimes.now fromvalues.now fromdiffs.now) times.new values.new diffs.new suffixes.new result }
{
    let mut joined = [0u64; MOST_EDITS];
    let mut places = [0u64; MOST_EDITS];
    let n = load_edits(
        None,
        fromtimes,
        fromvalues,
        fromdiffs,
        &mut joined,
        &mut places,
        times,
        values,
        diffs,
    );
    suffix_meets(times, n, suffixes);
    n
}

// Appends the pairs of two runs to four columns. Returns how many there are, or a number that is too large if they are too many. The
// histories are its own memory.
pub fn emit_all(
    firsttimes: &[u64],
    firstvalues: &[u64],
    firstdiffs: &[i64],
    secondtimes: &[u64],
    secondvalues: &[u64],
    seconddiffs: &[i64],
    outtimes: &mut [u64],
    outfirsts: &mut [u64],
    outseconds: &mut [u64],
    outdiffs: &mut [i64],
) -> usize
    requires first_run { Alike firsttimes.now firstvalues.now firstdiffs.now × WaveRun (edits firsttimes.now firstvalues.now firstdiffs.now) }
    requires second_run { Alike secondtimes.now secondvalues.now seconddiffs.now × WaveRun (edits secondtimes.now secondvalues.now seconddiffs.now) }
    ensures { Replayed (wave_of (edits firsttimes.now firstvalues.now firstdiffs.now) (edits secondtimes.now secondvalues.now seconddiffs.now)) outtimes.old outfirsts.old outseconds.old outdiffs.old outtimes.new outfirsts.new outseconds.new outdiffs.new result }
{
    let mut times = [0u64; MOST_EDITS];
    let mut values = [0u64; MOST_EDITS];
    let mut diffs = [0i64; MOST_EDITS];
    let mut suffixes = [0u64; MOST_EDITS];
    let mut othertimes = [0u64; MOST_EDITS];
    let mut othervalues = [0u64; MOST_EDITS];
    let mut otherdiffs = [0i64; MOST_EDITS];
    let mut othersuffixes = [0u64; MOST_EDITS];
    let n = load_side(
        firsttimes,
        firstvalues,
        firstdiffs,
        &mut times,
        &mut values,
        &mut diffs,
        &mut suffixes,
    );
    let m = load_side(
        secondtimes,
        secondvalues,
        seconddiffs,
        &mut othertimes,
        &mut othervalues,
        &mut otherdiffs,
        &mut othersuffixes,
    );
    replay(
        &mut times[..n],
        &mut values[..n],
        &mut diffs[..n],
        &suffixes,
        &mut othertimes[..m],
        &mut othervalues[..m],
        &mut otherdiffs[..m],
        &othersuffixes,
        outtimes,
        outfirsts,
        outseconds,
        outdiffs,
    )
}
