// The other's buffer, before a step.
ghost use Rattle.std.proofs.Math.Option.{none};
ghost use Rattle.std.specs.Prelude.{drop};
ghost use Rattle.grid.specs.Times.{meets};
ghost use Rattle.histories.specs.Suffixes.{Suffixes};
ghost use Rattle.edits.specs.Buffers.{AdvancesEdits};
ghost use Rattle.edits.specs.Edits.{edits};
ghost use Rattle.emissions.specs.Emissions.{LentOther};

use crate::MOST_EDITS;
use edits::advance_buffer_by;
use histories::meet_ahead;

// Advances the other's buffer by the meet of what is ahead. The work memory is its own: lent, it would be four more slices in every function
// above this one.
pub fn advance_beside(
    times: &[u64],
    suffixes: &[u64],
    at: usize,
    othertimes: &mut [u64],
    othervalues: &mut [u64],
    otherdiffs: &mut [i64],
    count: usize,
) -> usize
    requires { Suffixes times.now suffixes.now at × LentOther count othertimes.old othervalues.old otherdiffs.old }
    ensures { AdvancesEdits (meets (drop at times.now) none) count (edits othertimes.old othervalues.old otherdiffs.old) (edits othertimes.new othervalues.new otherdiffs.new) result }
{
    let mut places = [0u64; MOST_EDITS];
    let mut firsts = [0u64; MOST_EDITS];
    let mut seconds = [0u64; MOST_EDITS];
    let mut sums = [0i64; MOST_EDITS];
    let m = meet_ahead(times, suffixes, at);
    advance_buffer_by(
        othertimes,
        othervalues,
        otherdiffs,
        count,
        m,
        &mut places,
        &mut firsts,
        &mut seconds,
        &mut sums,
    )
}
