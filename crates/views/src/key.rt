// "A key's view holds the lent run and the pending list by reference, as KeyView does."
ghost use Rattle.std.specs.Prelude.{◌≡◌, length};
ghost use Rattle.rules.specs.Discover.{discover};
ghost use Rattle.edits.specs.Edits.{edits};
ghost use Rattle.discover.specs.Finding.{Finds, Lending};
ghost use Rattle.views.specs.Views.{view_of};

use discover::{Found, discover_key};

// What discover_times reads of one key: the times of its new records, its pending times, its input, old and new together, and the times of its
// output. The fields stand in the order in which discover_key takes them, and each has its own lifetime, as each slice that is lent has.
#[derive(Clone, Copy)]
pub struct KeyView<'s, 'p, 't, 'v, 'd, 'o> {
    pub seedtimes: &'s [u64],
    pub pending: &'p [u64],
    pub intimes: &'t [u64],
    pub invalues: &'v [u64],
    pub indiffs: &'d [i64],
    pub outtimes: &'o [u64],
}

// A view of the parts that were found.
pub fn key_view<'s, 'p, 't, 'v, 'd, 'o>(
    seedtimes: &'s [u64],
    pending: &'p [u64],
    intimes: &'t [u64],
    invalues: &'v [u64],
    indiffs: &'d [i64],
    outtimes: &'o [u64],
) -> KeyView<'s, 'p, 't, 'v, 'd, 'o>
    ensures { result ≡ view_of seedtimes.entry pending.entry intimes.entry invalues.entry indiffs.entry outtimes.entry }
{
    KeyView {
        seedtimes,
        pending,
        intimes,
        invalues,
        indiffs,
        outtimes,
    }
}

// How many seeds the key has.
pub fn seed_count<'s, 'p, 't, 'v, 'd, 'o>(v: KeyView<'s, 'p, 't, 'v, 'd, 'o>) -> usize
    ensures { result ≡ length v.entry.seedtimes.now }
{
    v.seedtimes.len()
}

// Finds the moments and the pended times of the key that the view shows, in memory that is lent for all keys; none if a limit was passed.
pub fn discover_through<'s, 'p, 't, 'v, 'd, 'o>(
    upper: &[u64],
    v: KeyView<'s, 'p, 't, 'v, 'd, 'o>,
    seeds: &mut [u64],
    times: &mut [u64],
    values: &mut [u64],
    diffs: &mut [i64],
    output: &mut [u64],
    meets: &mut [u64],
    waiting: &mut [u64],
    tracked: &mut [u64],
    moments: &mut [u64],
    pended: &mut [u64],
    work: &mut [u64],
    places: &mut [u64],
    wvalues: &mut [u64],
    wdiffs: &mut [i64],
) -> Option<Found>
    requires { Lending v.seedtimes.now v.pending.now v.intimes.now v.invalues.now v.indiffs.now v.outtimes.now seeds.old times.old values.old diffs.old output.old meets.old waiting.old tracked.old moments.old pended.old work.old places.old wvalues.old wdiffs.old }
    ensures { Finds (discover upper.now v.entry.seedtimes.now v.entry.pending.now (edits v.entry.intimes.now v.entry.invalues.now v.entry.indiffs.now) v.entry.outtimes.now) moments.new pended.new result }
{
    discover_key(
        upper,
        v.seedtimes,
        v.pending,
        v.intimes,
        v.invalues,
        v.indiffs,
        v.outtimes,
        seeds,
        times,
        values,
        diffs,
        output,
        meets,
        waiting,
        tracked,
        moments,
        pended,
        work,
        places,
        wvalues,
        wdiffs,
    )
}

// Finds the moments and the pended times of one key through its view; none if a limit was passed. Who has the parts as plain slices calls this, and holds no view.
pub fn discover_view(
    upper: &[u64],
    seedtimes: &[u64],
    pending: &[u64],
    intimes: &[u64],
    invalues: &[u64],
    indiffs: &[i64],
    outtimes: &[u64],
    seeds: &mut [u64],
    times: &mut [u64],
    values: &mut [u64],
    diffs: &mut [i64],
    output: &mut [u64],
    meets: &mut [u64],
    waiting: &mut [u64],
    tracked: &mut [u64],
    moments: &mut [u64],
    pended: &mut [u64],
    work: &mut [u64],
    places: &mut [u64],
    wvalues: &mut [u64],
    wdiffs: &mut [i64],
) -> Option<Found>
    requires { Lending seedtimes.now pending.now intimes.now invalues.now indiffs.now outtimes.now seeds.old times.old values.old diffs.old output.old meets.old waiting.old tracked.old moments.old pended.old work.old places.old wvalues.old wdiffs.old }
    ensures { Finds (discover upper.now seedtimes.now pending.now (edits intimes.now invalues.now indiffs.now) outtimes.now) moments.new pended.new result }
{
    let v = key_view(seedtimes, pending, intimes, invalues, indiffs, outtimes);
    discover_through(
        upper, v, seeds, times, values, diffs, output, meets, waiting, tracked, moments, pended,
        work, places, wvalues, wdiffs,
    )
}
