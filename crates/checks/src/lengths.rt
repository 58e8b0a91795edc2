// Check 11: "mode, width, unequal column lengths, a run or pending list over 4,096, lent memory too short".
ghost use Rattle.std.specs.Prelude.{◌≡◌, ◌&&◌, ◌||◌, eqb, leb, length};
ghost use Rattle.grid.specs.Records.{most_records};
ghost use Rattle.rules.specs.Memory.{alike};
ghost use Rattle.requests.specs.Runs.{columns_of};
ghost use Rattle.checks.specs.Checks.{level, room_for, sized};

use requests::{Request, Run};

// The most records of a run, and the most entries of a pending list.
pub const MOST_RECORDS: usize = 4096;

// 1 is count, 2 is distinct.
fn is_mode(mode: u64) -> bool
    ensures { result ≡ (eqb mode 1 || eqb mode 2) }
{
    mode == 1 || mode == 2
}

// A window has 1 to 64 keys.
fn is_width(width: u64) -> bool
    ensures { result ≡ (leb 1 width && leb width 64) }
{
    1 <= width && width <= 64
}

fn are_short(old: usize, new: usize, out: usize, pending: usize) -> bool
    ensures { result ≡ (leb old most_records && leb new most_records && leb out most_records && leb pending most_records) }
{
    old <= MOST_RECORDS && new <= MOST_RECORDS && out <= MOST_RECORDS && pending <= MOST_RECORDS
}

// Whether mode and width, and how many entries the runs and the pending list have, are as they must be.
#[tactic(auto, unfolding(crate::specs::Checks::sized))]
pub fn are_sized(q: &Request<'_>) -> bool
    ensures { result ≡ sized q.now.mode q.now.width (length q.now.old.keys.now) (length q.now.new.keys.now) (length q.now.out.keys.now) (length q.now.pending.keys.now) }
{
    is_mode(q.mode)
        && is_width(q.width)
        && are_short(
            q.old.keys.len(),
            q.new.keys.len(),
            q.out.keys.len(),
            q.pending.keys.len(),
        )
}

// Whether a run's columns are of one length.
#[tactic(auto, unfolding(rules::specs::Memory::alike))]
fn is_level(r: &Run<'_>) -> bool
    ensures { result ≡ alike (columns_of r.now) }
{
    let n = r.keys.len();
    r.values.len() == n && r.times.len() == n && r.diffs.len() == n
}

// Whether each run's columns are of one length, and those of the pending list are.
#[tactic(auto, unfolding(crate::specs::Checks::level))]
pub fn are_level(q: &Request<'_>) -> bool
    ensures { result ≡ level (columns_of q.now.old) (columns_of q.now.new) (columns_of q.now.out) q.now.pending.keys.now q.now.pending.times.now }
{
    is_level(&q.old)
        && is_level(&q.new)
        && is_level(&q.out)
        && q.pending.times.len() == q.pending.keys.len()
}

// Whether each length is at least its size.
pub fn is_room(sizes: &[usize], lengths: &[usize]) -> bool
    ensures { result ≡ room_for sizes.now lengths.now }
{
    if lengths.len() < sizes.len() {
        return false;
    }
    for i in 0..sizes.len() {
        if lengths[i] < sizes[i] {
            return false;
        }
    }
    true
}
