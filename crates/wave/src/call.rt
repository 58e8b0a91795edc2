// "bilinear_wave": the whole call.
ghost use Rattle.std.specs.Prelude.{true, ◌≡◌};
ghost use Rattle.rules.specs.Wave.{wave_call};
ghost use Rattle.rules.proofs.Wave.{WaveRun};
ghost use Rattle.edits.specs.Edits.{edits, Alike};
ghost use Rattle.wave.specs.Calls.{roomy, lent_well, refusal_status, Called};

use crate::checks::check;
use crate::loads::emit_all;
use emissions::{MOST_EMISSIONS, clear_columns};

// Why a call is refused.
#[derive(Clone, Copy, PartialEq, Eq, Debug)]
pub enum Refusal {
    // 11: columns of unequal lengths, or a column of results shorter than MOST_EMISSIONS.
    Short,
    // 14: over MOST_EDITS edits a side, or a diff outside -2^20 to 2^20.
    Unfit,
    // 18: over MOST_EMISSIONS pairs.
    Over,
}

impl Refusal {
    // The number of its status.
    pub fn status(self) -> u64
        ensures { result ≡ refusal_status self }
    {
        match self {
            Refusal::Short => 11,
            Refusal::Unfit => 14,
            Refusal::Over => 18,
        }
    }
}

// A call that passed the checks.
fn work(
    firsttimes: &[u64],
    firstvalues: &[u64],
    firstdiffs: &[i64],
    secondtimes: &[u64],
    secondvalues: &[u64],
    seconddiffs: &[i64],
    outtimes: &mut [u64],
    outfirsts: &mut [u64],
    outseconds: &mut [u64],
    outdiffs: &mut [i64],
) -> Result<usize, Refusal>
    requires first_run { Alike firsttimes.now firstvalues.now firstdiffs.now × WaveRun (edits firsttimes.now firstvalues.now firstdiffs.now) }
    requires second_run { Alike secondtimes.now secondvalues.now seconddiffs.now × WaveRun (edits secondtimes.now secondvalues.now seconddiffs.now) }
    requires room { roomy outtimes.old outfirsts.old outseconds.old outdiffs.old ≡ true }
    ensures { Called (wave_call true (edits firsttimes.now firstvalues.now firstdiffs.now) (edits secondtimes.now secondvalues.now seconddiffs.now)) outtimes.old outfirsts.old outseconds.old outdiffs.old outtimes.new outfirsts.new outseconds.new outdiffs.new result }
{
    clear_columns(outtimes, outfirsts, outseconds, outdiffs);
    let count = emit_all(
        firsttimes,
        firstvalues,
        firstdiffs,
        secondtimes,
        secondvalues,
        seconddiffs,
        outtimes,
        outfirsts,
        outseconds,
        outdiffs,
    );
    if count > MOST_EMISSIONS {
        clear_columns(outtimes, outfirsts, outseconds, outdiffs);
        Err(Refusal::Over)
    } else {
        Ok(count)
    }
}

// The pairs of two runs of edits, in the order in which the histories meet them: the joined time, the two values, the multiplied diff. A run
// is taken in any order. Returns how many pairs there are: the columns of results hold them, then zeros. What is refused before any work
// leaves those columns as they were; over MOST_EMISSIONS pairs, they are all zero.
pub fn bilinear_wave(
    firsttimes: &[u64],
    firstvalues: &[u64],
    firstdiffs: &[i64],
    secondtimes: &[u64],
    secondvalues: &[u64],
    seconddiffs: &[i64],
    outtimes: &mut [u64],
    outfirsts: &mut [u64],
    outseconds: &mut [u64],
    outdiffs: &mut [i64],
) -> Result<usize, Refusal>
    ensures { Called (wave_call (lent_well firsttimes.now firstvalues.now firstdiffs.now secondtimes.now secondvalues.now seconddiffs.now outtimes.old outfirsts.old outseconds.old outdiffs.old) (edits firsttimes.now firstvalues.now firstdiffs.now) (edits secondtimes.now secondvalues.now seconddiffs.now)) outtimes.old outfirsts.old outseconds.old outdiffs.old outtimes.new outfirsts.new outseconds.new outdiffs.new result }
{
    check(
        firsttimes,
        firstvalues,
        firstdiffs,
        secondtimes,
        secondvalues,
        seconddiffs,
        outtimes,
        outfirsts,
        outseconds,
        outdiffs,
    )?;
    work(
        firsttimes,
        firstvalues,
        firstdiffs,
        secondtimes,
        secondvalues,
        seconddiffs,
        outtimes,
        outfirsts,
        outseconds,
        outdiffs,
    )
}
