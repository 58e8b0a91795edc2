// "pending ascending; next frontier the minimal pended times."
ghost use Rattle.std.specs.Prelude.{◌≡◌, ◌≤◌, length};
ghost use Rattle.grid.specs.Records.{most_records};
ghost use Rattle.grid.specs.Frontiers.{most_times};
ghost use Rattle.rules.specs.Memory.{numbers_size};
ghost use Rattle.placing.specs.Parts.{lists_laid};

use crate::columns::put_column;
use crate::memory::{FRONTIER, PENDING_KEYS, PENDING_TIMES};
use requests::Pending;

// Writes the pending list and the next frontier to result memory.
pub fn publish_lists(pending: &Pending<'_>, frontier: &[u64], res: &mut [u64])
    requires { ((length pending.now.keys.now ≤ most_records) × (length pending.now.times.now ≤ most_records)) × ((length frontier.now ≤ most_times) × (numbers_size ≤ length res.old)) }
    ensures { res.new ≡ lists_laid pending.now.keys.now pending.now.times.now frontier.now res.old }
{
    put_column(pending.keys, res, PENDING_KEYS);
    put_column(pending.times, res, PENDING_TIMES);
    put_column(frontier, res, FRONTIER);
}
