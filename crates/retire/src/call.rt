// The public call.
ghost use Rattle.requests.specs.Memory.{SameResults, SameWork, lent_of, memory_of};
ghost use Rattle.requests.specs.Statuses.{number_of};
ghost use Rattle.demands.specs.Answers.{Retires};
ghost use Rattle.demands.specs.Lending.{needed};
ghost use Rattle.retire.specs.Checked.{Checked};

use answers::Outcome;
use checks::status_before_work;
use demands::{column_needed, moments_needed};
use idle::stay_idle;
use requests::{Request, ResultMemory, Status, WorkMemory};
use results::{DIFFS_SIZE, NUMBERS_SIZE};
use working::work;

// The status before any work.
fn check(q: &Request<'_>, results: &ResultMemory<'_>, moments: &[u64], w: &WorkMemory<'_>) -> Status
    ensures { Checked (lent_of q.now (memory_of results.now moments.now w.now)) (number_of result) }
{
    let n = column_needed(q.old.keys.len(), q.new.keys.len());
    let m = moments_needed(q.width, q.old.keys.len(), q.new.keys, q.pending.keys);
    let sizes = [NUMBERS_SIZE, DIFFS_SIZE, m, n, n, n, n, n, n, n];
    let lengths = [
        results.numbers.len(),
        results.diffs.len(),
        moments.len(),
        w.keys.len(),
        w.values.len(),
        w.times.len(),
        w.out_values.len(),
        w.out_times.len(),
        w.diffs.len(),
        w.out_diffs.len(),
    ];
    status_before_work(q, &sizes, &lengths)
}

// One call: "old input run, new input run, old output run, pending list of (key, time), lower, upper, held, mode (1 count, 2 distinct), window width 1
// to 64, result and work memory" are lent. What it says and leaves is the rules' answer, at every status; crate demands has what follows of the
// answer that a caller reads in memory: the three demands, of every call that says what is said here.
pub fn retire(
    q: &Request<'_>,
    results: &mut ResultMemory<'_>,
    moments: &mut [u64],
    w: &mut WorkMemory<'_>,
) -> Outcome
    ensures retires { Retires needed (lent_of q.now (memory_of results.old moments.old w.old)) result (memory_of results.new moments.new w.new) }
    ensures same_results { SameResults results.old results.new }
    ensures same_work { SameWork w.old w.new }
{
    let status = check(q, results, moments, w);
    if status.number() != 0 {
        return stay_idle(status, q.frontiers.held, &q.pending, results, moments, w);
    }
    work(q, results, moments, w)
}
