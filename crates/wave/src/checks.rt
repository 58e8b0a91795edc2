// What is checked before anything is written: "Memory too short is 11; at most 1,024 edits a side with diffs -2^20 to 2^20 (else 14)".
ghost use Rattle.std.specs.Prelude.{◌≡◌};
ghost use Rattle.grid.specs.Lists.{every};
ghost use Rattle.rules.specs.Wave.{good_wave_run};
ghost use Rattle.edits.specs.Edits.{edits, Alike};
ghost use Rattle.wave.specs.Calls.{level, roomy, lent_well, small_diff, status_of, status_before};

use crate::call::Refusal;
use emissions::{MOST_EDITS, MOST_EMISSIONS};

// The largest size of a diff: 2^20.
const MOST_DIFF: u64 = 1048576;

// Whether three columns are of one length.
#[tactic(auto, unfolding(crate::specs::Calls::level))]
fn is_level(times: &[u64], values: &[u64], diffs: &[i64]) -> bool
    ensures { result ≡ level times.now values.now diffs.now }
{
    values.len() == times.len() && diffs.len() == times.len()
}

// Whether the columns of results are long enough.
#[tactic(auto, unfolding(crate::specs::Calls::roomy))]
fn is_roomy(times: &[u64], firsts: &[u64], seconds: &[u64], diffs: &[i64]) -> bool
    ensures { result ≡ roomy times.now firsts.now seconds.now diffs.now }
{
    times.len() >= MOST_EMISSIONS
        && firsts.len() >= MOST_EMISSIONS
        && seconds.len() >= MOST_EMISSIONS
        && diffs.len() >= MOST_EMISSIONS
}

// Whether every diff is from -2^20 to 2^20.
fn all_small(diffs: &[i64]) -> bool
    ensures { result ≡ every small_diff diffs.now }
{
    diffs.iter().all(|d| d.unsigned_abs() <= MOST_DIFF)
}

// Whether a side has at most 1,024 edits, and each diff is small.
fn is_good_run(times: &[u64], values: &[u64], diffs: &[i64]) -> bool
    requires { Alike times.now values.now diffs.now }
    ensures { result ≡ good_wave_run (edits times.now values.now diffs.now) }
{
    times.len() <= MOST_EDITS && all_small(diffs)
}

// Whether columns and memory are as long as they must be.
#[tactic(auto, unfolding(crate::specs::Calls::lent_well))]
fn is_lent_well(
    times: &[u64],
    values: &[u64],
    diffs: &[i64],
    othertimes: &[u64],
    othervalues: &[u64],
    otherdiffs: &[i64],
    outtimes: &[u64],
    outfirsts: &[u64],
    outseconds: &[u64],
    outdiffs: &[i64],
) -> bool
    ensures { result ≡ lent_well times.now values.now diffs.now othertimes.now othervalues.now otherdiffs.now outtimes.now outfirsts.now outseconds.now outdiffs.now }
{
    is_level(times, values, diffs)
        && is_level(othertimes, othervalues, otherdiffs)
        && is_roomy(outtimes, outfirsts, outseconds, outdiffs)
}

// Whether the call goes on, or why it is refused.
pub fn check(
    times: &[u64],
    values: &[u64],
    diffs: &[i64],
    othertimes: &[u64],
    othervalues: &[u64],
    otherdiffs: &[i64],
    outtimes: &[u64],
    outfirsts: &[u64],
    outseconds: &[u64],
    outdiffs: &[i64],
) -> Result<(), Refusal>
    ensures { status_of result ≡ status_before (lent_well times.now values.now diffs.now othertimes.now othervalues.now otherdiffs.now outtimes.now outfirsts.now outseconds.now outdiffs.now) (edits times.now values.now diffs.now) (edits othertimes.now othervalues.now otherdiffs.now) }
{
    if !is_lent_well(
        times,
        values,
        diffs,
        othertimes,
        othervalues,
        otherdiffs,
        outtimes,
        outfirsts,
        outseconds,
        outdiffs,
    ) {
        return Err(Refusal::Short);
    }
    if is_good_run(times, values, diffs) && is_good_run(othertimes, othervalues, otherdiffs) {
        Ok(())
    } else {
        Err(Refusal::Unfit)
    }
}
