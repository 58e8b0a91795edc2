// discover_times as a call: lengths and diffs are tested, one key's times are found, and the work memory is cleared.
ghost use Rattle.std.specs.Prelude.{◌≡◌, ◌≤◌, pos, length, replicate};
ghost use Rattle.discovery.specs.Calls.{lent_well, answer, status_of, outcome, status_before, kept_of, moments_of, pended_of, Publishes, Clears, Discovers};

use crate::sizes::is_lent_well;
use diffs::are_in_range;
use discover::{Found, discover_key};

// Why there is no answer.
#[derive(Clone, Copy, PartialEq, Eq, Debug)]
pub enum Refusal {
    // What is lent is not as long as it must be.
    Lengths,
    // A diff is out of range.
    Diffs,
    // A limit was passed.
    Limit,
}

impl Refusal {
    // The number of its status.
    pub fn status(self) -> u64
        ensures { result ≡ status_of self }
    {
        match self {
            Refusal::Lengths => 11,
            Refusal::Diffs => 14,
            Refusal::Limit => 18,
        }
    }
}

// What is known before any work.
#[tactic(auto, using(std::proofs::lemmas::Bool::Decides::nat_tests), unfolding(crate::specs::Calls::status_before))]
fn check(well: bool, indiffs: &[i64]) -> Result<(), Refusal>
    ensures { outcome result ≡ status_before well indiffs.now }
{
    if !well {
        Err(Refusal::Lengths)
    } else if !are_in_range(indiffs) {
        Err(Refusal::Diffs)
    } else {
        Ok(())
    }
}

// Leaves what was found and zeros after it, or zeros alone if a limit was passed.
fn publish(f: Option<Found>, moments: &mut [u64], pended: &mut [u64]) -> Result<Found, Refusal>
    requires { (kept_of moments_of f ≤ length moments.old) × (kept_of pended_of f ≤ length pended.old) }
    ensures { Publishes f moments.old pended.old moments.new pended.new result }
{
    match f {
        Some(found) => {
            moments[found.moments..].fill(0);
            pended[found.pended..].fill(0);
            Ok(found)
        }
        None => {
            moments.fill(0);
            pended.fill(0);
            Err(Refusal::Limit)
        }
    }
}

// Leaves what was found, and zeros elsewhere.
fn clear_all(
    f: Option<Found>,
    seeds: &mut [u64],
    times: &mut [u64],
    values: &mut [u64],
    diffs: &mut [i64],
    output: &mut [u64],
    meets: &mut [u64],
    waiting: &mut [u64],
    tracked: &mut [u64],
    moments: &mut [u64],
    pended: &mut [u64],
    work: &mut [u64],
    places: &mut [u64],
    wvalues: &mut [u64],
    wdiffs: &mut [i64],
) -> Result<Found, Refusal>
    requires { (kept_of moments_of f ≤ length moments.old) × (kept_of pended_of f ≤ length pended.old) }
    ensures publishes { Publishes f moments.old pended.old moments.new pended.new result }
    ensures clears { Clears seeds.old output.old meets.old waiting.old tracked.old seeds.new output.new meets.new waiting.new tracked.new }
    ensures clears_input_and_work { Clears times.old values.old work.old places.old wvalues.old times.new values.new work.new places.new wvalues.new }
    ensures diffs_after { (diffs.new ≡ replicate (length diffs.old) (pos 0)) × (wdiffs.new ≡ replicate (length wdiffs.old) (pos 0)) }
{
    seeds.fill(0);
    output.fill(0);
    meets.fill(0);
    waiting.fill(0);
    tracked.fill(0);
    times.fill(0);
    values.fill(0);
    work.fill(0);
    places.fill(0);
    wvalues.fill(0);
    diffs.fill(0);
    wdiffs.fill(0);
    publish(f, moments, pended)
}

// The moments and the pended times of one key. They stand at the front of their slices, and zeros everywhere else. Where what is lent is not as long as it
// must be, or a diff is out of range, memory is untouched; where a limit was passed, all memory is cleared.
pub fn discover_times(
    upper: &[u64],
    seedtimes: &[u64],
    pending: &[u64],
    intimes: &[u64],
    invalues: &[u64],
    indiffs: &[i64],
    outtimes: &[u64],
    seeds: &mut [u64],
    times: &mut [u64],
    values: &mut [u64],
    diffs: &mut [i64],
    output: &mut [u64],
    meets: &mut [u64],
    waiting: &mut [u64],
    tracked: &mut [u64],
    moments: &mut [u64],
    pended: &mut [u64],
    work: &mut [u64],
    places: &mut [u64],
    wvalues: &mut [u64],
    wdiffs: &mut [i64],
) -> Result<Found, Refusal>
    ensures { Discovers (answer (lent_well (length seedtimes.now) (length pending.now) (length intimes.now) (length invalues.now) (length indiffs.now) (length outtimes.now) (length seeds.old) (length times.old) (length values.old) (length diffs.old) (length output.old) (length meets.old) (length waiting.old) (length tracked.old) (length moments.old) (length pended.old) (length work.old) (length places.old) (length wvalues.old) (length wdiffs.old)) upper.now seedtimes.now pending.now intimes.now invalues.now indiffs.now outtimes.now) seeds.old times.old values.old diffs.old output.old meets.old waiting.old tracked.old moments.old pended.old work.old places.old wvalues.old wdiffs.old seeds.new times.new values.new diffs.new output.new meets.new waiting.new tracked.new moments.new pended.new work.new places.new wvalues.new wdiffs.new result }
{
    let well = is_lent_well(
        seedtimes.len(),
        pending.len(),
        intimes.len(),
        invalues.len(),
        indiffs.len(),
        outtimes.len(),
        seeds.len(),
        times.len(),
        values.len(),
        diffs.len(),
        output.len(),
        meets.len(),
        waiting.len(),
        tracked.len(),
        moments.len(),
        pended.len(),
        work.len(),
        places.len(),
        wvalues.len(),
        wdiffs.len(),
    );
    check(well, indiffs)?;
    let f = discover_key(
        upper, seedtimes, pending, intimes, invalues, indiffs, outtimes, seeds, times, values,
        diffs, output, meets, waiting, tracked, moments, pended, work, places, wvalues, wdiffs,
    );
    clear_all(
        f, seeds, times, values, diffs, output, meets, waiting, tracked, moments, pended, work,
        places, wvalues, wdiffs,
    )
}
