// A call that works.
#![tactic(auto)]

mod either;

ghost use Rattle.std.specs.Prelude.{◌+◌, length};
ghost use Rattle.input.specs.Formed.{Runs, Formed};
ghost use Rattle.requests.specs.Memory.{SameResults, SameWork, input_of, lent_of, memory_of};
ghost use Rattle.requests.specs.Runs.{columns_of};
ghost use Rattle.demands.specs.Answers.{Retires};
ghost use Rattle.demands.specs.Lending.{needed};
ghost use Rattle.working.specs.Begun.{Begins, Forms, output_of};

use crate::either::answer;
use answers::Outcome;
use input::form_input;
use requests::{Request, ResultMemory, Run, WorkMemory};
use results::clear_work;

// Forms the input of old and new run, and says how many records it has. What is free at the time serves as scratch: the columns of the output, the
// moments and the results; the places of the records are of use here only.
fn form(
    old: &Run<'_>,
    new: &Run<'_>,
    scratch: &mut [u64],
    moments: &mut [u64],
    w: &mut WorkMemory<'_>,
) -> usize
    requires runs { Runs (columns_of old.now) (columns_of new.now) }
    requires forms { Forms (length old.now.keys.now + length new.now.keys.now) (output_of moments.old w.old) scratch.old (input_of w.old) }
    ensures formed { Formed (columns_of old.now) (columns_of new.now) result (input_of w.new) }
    ensures same { SameWork w.old w.new }
{
    if old.keys.len() + new.keys.len() <= 128 {
        let mut places = [0u64; 128];
        return form_input(
            old.keys,
            old.values,
            old.times,
            old.diffs,
            new.keys,
            new.values,
            new.times,
            new.diffs,
            w.out_values,
            w.out_times,
            moments,
            w.out_diffs,
            &mut places,
            scratch,
            w.keys,
            w.values,
            w.times,
            w.diffs,
        );
    }
    let mut places = [0u64; 8192];
    form_input(
        old.keys,
        old.values,
        old.times,
        old.diffs,
        new.keys,
        new.values,
        new.times,
        new.diffs,
        w.out_values,
        w.out_times,
        moments,
        w.out_diffs,
        &mut places,
        scratch,
        w.keys,
        w.values,
        w.times,
        w.diffs,
    )
}

// Forms the input, answers the call, and clears work memory.
pub fn work(
    q: &Request<'_>,
    results: &mut ResultMemory<'_>,
    moments: &mut [u64],
    w: &mut WorkMemory<'_>,
) -> Outcome
    requires { Begins (lent_of q.now (memory_of results.old moments.old w.old)) }
    ensures retires { Retires needed (lent_of q.now (memory_of results.old moments.old w.old)) result (memory_of results.new moments.new w.new) }
    ensures same_results { SameResults results.old results.new }
    ensures same_work { SameWork w.old w.new }
{
    let n = form(&q.old, &q.new, results.numbers, moments, w);
    let outcome = answer(q, &w.input(n), moments, results);
    clear_work(moments, w);
    outcome
}
