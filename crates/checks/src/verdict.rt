// "Lowest of 11 to 17 wins; then 1, then 2": the status that a call has before any work.
ghost use Rattle.std.specs.Prelude.{true, ◌&&◌, ◌≡◌};
ghost use Rattle.grid.specs.Lists.{is_empty};
ghost use Rattle.requests.specs.Runs.{columns_of};
ghost use Rattle.requests.specs.Statuses.{number_of};
ghost use Rattle.checks.specs.Checks.{level, times_verdict, records_verdict, columns_verdict, status_before_work};

use crate::{lengths, order, places};
use requests::{Request, Status};

// Whether new run and pending list are both empty.
fn is_unchanged(q: &Request<'_>) -> bool
    ensures { result ≡ (is_empty q.now.new.times.now && is_empty q.now.pending.times.now) }
{
    q.new.times.is_empty() && q.pending.times.is_empty()
}

// The verdict from 16 on.
#[tactic(auto, unfolding(crate::specs::Checks::times_verdict))]
fn times_verdict(q: &Request<'_>) -> Status
    ensures { number_of result ≡ times_verdict q.now.frontiers.lower.now q.now.frontiers.upper.now q.now.frontiers.held.now q.now.old.times.now q.now.new.times.now q.now.out.times.now q.now.pending.times.now }
{
    if !places::are_placed(q) {
        Status::MISPLACED
    } else if !places::are_held(q) {
        Status::NOT_HELD
    } else if places::all_beyond(q.frontiers.upper, q.frontiers.held) {
        Status::QUIET
    } else if is_unchanged(q) {
        Status::UNCHANGED
    } else {
        Status::DONE
    }
}

// The verdict from 14 on.
#[tactic(auto, unfolding(crate::specs::Checks::records_verdict))]
fn records_verdict(q: &Request<'_>) -> Status
    requires { level (columns_of q.now.old) (columns_of q.now.new) (columns_of q.now.out) q.now.pending.keys.now q.now.pending.times.now ≡ true }
    ensures { number_of result ≡ records_verdict q.now.frontiers.lower.now q.now.frontiers.upper.now q.now.frontiers.held.now (columns_of q.now.old) (columns_of q.now.new) (columns_of q.now.out) q.now.pending.keys.now q.now.pending.times.now }
{
    if !order::are_good_runs(q) {
        Status::OUT_OF_ORDER
    } else if !order::pending_ascends(&q.pending) {
        Status::PENDING_OUT_OF_ORDER
    } else {
        times_verdict(q)
    }
}

// The verdict, whole.
#[tactic(auto, unfolding(crate::specs::Checks::columns_verdict))]
fn verdict(q: &Request<'_>) -> Status
    requires { level (columns_of q.now.old) (columns_of q.now.new) (columns_of q.now.out) q.now.pending.keys.now q.now.pending.times.now ≡ true }
    ensures { number_of result ≡ columns_verdict q.now.mode q.now.width q.now.frontiers.lower.now q.now.frontiers.upper.now q.now.frontiers.held.now (columns_of q.now.old) (columns_of q.now.new) (columns_of q.now.out) q.now.pending.keys.now q.now.pending.times.now }
{
    if !lengths::are_sized(q) {
        Status::SHORT
    } else if !places::are_frontiers(&q.frontiers) {
        Status::NOT_FRONTIERS
    } else if !places::are_above(&q.frontiers) {
        Status::BELOW_LOWER
    } else {
        records_verdict(q)
    }
}

// 11 where columns are of unequal lengths, or a length is below its size in `sizes`; else the verdict. No memory is touched.
pub fn status_before_work(q: &Request<'_>, sizes: &[usize], lengths: &[usize]) -> Status
    ensures { number_of result ≡ status_before_work q.now.mode q.now.width q.now.frontiers.lower.now q.now.frontiers.upper.now q.now.frontiers.held.now (columns_of q.now.old) (columns_of q.now.new) (columns_of q.now.out) q.now.pending.keys.now q.now.pending.times.now sizes.now lengths.now }
{
    if lengths::are_level(q) && lengths::is_room(sizes, lengths) {
        verdict(q)
    } else {
        Status::SHORT
    }
}
