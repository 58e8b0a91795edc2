// The answer of a call, in as much memory as it takes.
ghost use Rattle.grid.specs.Records.{most_records};
ghost use Rattle.requests.specs.Memory.{SameResults};
ghost use Rattle.concluding.specs.Lending.{runs_of};
ghost use Rattle.concluding.specs.Answered.{Answering, Answered};

use answers::Outcome;
use backends::mode_of;
use brief::answer_briefly;
use concluding::is_few;
use full::answer_fully;
use requests::{Request, ResultMemory, Run};

// Answers a call whose input is formed. Where it has few records, little memory is tried first.
pub fn answer(
    q: &Request<'_>,
    input: &Run<'_>,
    moments: &mut [u64],
    results: &mut ResultMemory<'_>,
) -> Outcome
    requires { Answering most_records (runs_of q.now input.now) q.now.width q.now.frontiers.lower.now q.now.frontiers.held.now moments.old results.old.numbers.now results.old.diffs.now }
    ensures answered { Answered (runs_of q.now input.now) q.now.mode q.now.width q.now.frontiers.lower.now q.now.frontiers.held.now result results.old.numbers.now results.new.numbers.now results.old.diffs.now results.new.diffs.now }
    ensures same { SameResults results.old results.new }
{
    let mode = mode_of(q.mode);
    let few = is_few(
        mode,
        q.new.keys.len(),
        q.pending.keys.len(),
        input.keys.len(),
        q.out.keys.len(),
    );
    if !few {
        return answer_fully(q, mode, input, moments, results);
    }
    match answer_briefly(q, mode, input, moments, results) {
        Some(outcome) => outcome,
        None => answer_fully(q, mode, input, moments, results),
    }
}
