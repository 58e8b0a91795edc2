// 11: "unequal column lengths, lent memory too short". The sizes of what is lent.
ghost use Rattle.std.specs.Prelude.{◌≡◌};
ghost use Rattle.discovery.specs.Calls.{input_fits, load_room, found_room, work_room, lent_well};

// The most seeds, pending times and output times.
pub const MOST_RECORDS: usize = 4096;

// The most edits of the input, old and new.
pub const MOST_EDITS: usize = 8192;

// How long the column of meets is: one for each seed, pending time, edit and output time.
pub const MEETS_SIZE: usize = 20480;

// How long the columns of waiting joins, moments and pended times are: one more than the limit.
pub const FOUND_SIZE: usize = 1025;

// How long the column of tracked times is: the pending times, and one for each moment.
pub const TRACKED_SIZE: usize = 5121;

// The input is within its sizes.
#[tactic(auto, using(std::proofs::lemmas::Bool::Decides::nat_tests), unfolding(crate::specs::Calls::input_fits))]
fn input_fits(
    seeds: usize,
    pending: usize,
    times: usize,
    values: usize,
    diffs: usize,
    output: usize,
) -> bool
    ensures { result ≡ input_fits seeds pending times values diffs output }
{
    seeds <= MOST_RECORDS
        && pending <= MOST_RECORDS
        && times <= MOST_EDITS
        && values == times
        && diffs == times
        && output <= MOST_RECORDS
}

// There is room for all that is loaded.
#[tactic(auto, using(std::proofs::lemmas::Bool::Decides::nat_tests), unfolding(crate::specs::Calls::load_room))]
fn has_load_room(
    seeds: usize,
    times: usize,
    values: usize,
    diffs: usize,
    output: usize,
    column: usize,
) -> bool
    ensures { result ≡ load_room seeds times values diffs output column }
{
    MOST_RECORDS <= seeds
        && MOST_EDITS <= times
        && values == times
        && diffs == times
        && MOST_RECORDS <= output
        && MEETS_SIZE <= column
}

// There is room for all that is found.
#[tactic(auto, using(std::proofs::lemmas::Bool::Decides::nat_tests), unfolding(crate::specs::Calls::found_room))]
fn has_found_room(waiting: usize, tracked: usize, moments: usize, pended: usize) -> bool
    ensures { result ≡ found_room waiting tracked moments pended }
{
    FOUND_SIZE <= waiting
        && TRACKED_SIZE <= tracked
        && FOUND_SIZE <= moments
        && FOUND_SIZE <= pended
}

// There is room to work in. The work slice is as long as the tracked times, which are sorted there.
#[tactic(auto, using(std::proofs::lemmas::Bool::Decides::nat_tests), unfolding(crate::specs::Calls::work_room))]
fn has_work_room(tracked: usize, work: usize, places: usize, wvalues: usize, wdiffs: usize) -> bool
    ensures { result ≡ work_room tracked work places wvalues wdiffs }
{
    tracked <= work
        && MOST_EDITS <= work
        && MOST_EDITS <= places
        && MOST_EDITS <= wvalues
        && MOST_EDITS <= wdiffs
}

// Whether all that is lent is as long as it must be.
#[tactic(auto, using(std::proofs::lemmas::Bool::Decides::nat_tests), unfolding(crate::specs::Calls::lent_well))]
pub fn is_lent_well(
    seedtimes: usize,
    pending: usize,
    intimes: usize,
    invalues: usize,
    indiffs: usize,
    outtimes: usize,
    seeds: usize,
    times: usize,
    values: usize,
    diffs: usize,
    output: usize,
    meets: usize,
    waiting: usize,
    tracked: usize,
    moments: usize,
    pended: usize,
    work: usize,
    places: usize,
    wvalues: usize,
    wdiffs: usize,
) -> bool
    ensures { result ≡ lent_well seedtimes pending intimes invalues indiffs outtimes seeds times values diffs output meets waiting tracked moments pended work places wvalues wdiffs }
{
    input_fits(seedtimes, pending, intimes, invalues, indiffs, outtimes)
        && has_load_room(seeds, times, values, diffs, output, meets)
        && has_found_room(waiting, tracked, moments, pended)
        && has_work_room(tracked, work, places, wvalues, wdiffs)
}
