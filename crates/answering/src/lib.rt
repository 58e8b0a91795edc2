// What is printed for the bytes of a request: the whole reply, whatever the bytes are. All memory of a call is local; the program runs in 4 MB of
// stack.
#![tactic(auto)]

ghost use Rattle.std.specs.Prelude.{ℕ, ◌≤◌, List, ◌≡◌, length, take};
ghost use Rattle.form.specs.Read.{parse};
ghost use Rattle.form.specs.Show.{reply};
ghost use Rattle.form.proofs.Room.{most_text};
ghost use Rattle.answering.specs.Replied.{Replied};
ghost use Rattle.answering.specs.Asking.{fronts, run_of, lists_lent, fronts_lent, Holds, Asks};

use reading::{BadLine, Counts, Request};
use requests::{Frontiers, Pending, ResultMemory, Run, WorkMemory};
use telling::results_of;

// As many bytes as the longest reply has.
pub const TEXT_SIZE: usize = 559238;

// The lists of a request, lent.
#[derive(Clone, Copy)]
struct Lists<'a> {
    lower: &'a [u64],
    upper: &'a [u64],
    held: &'a [u64],
    old: Run<'a>,
    new: Run<'a>,
    out: Run<'a>,
    pending_keys: &'a [u64],
    pending_times: &'a [u64],
}

// Calls retire in memory of its own, and prints what it answers.
fn call(mode: u64, width: u64, lists: Lists, out: &mut [u8]) -> usize
    requires { most_text ≤ length out.old }
    ensures { (s : List ℕ) → Asks s (lists_lent mode width lists.entry) → Replied (reply s) out.old out.new result }
{
    let mut numbers = [0u64; 25632];
    let mut diffs = [0i64; 4096];
    let mut moments = [0u64; 65537];
    let mut input_keys = [0u64; 8192];
    let mut input_values = [0u64; 8192];
    let mut input_times = [0u64; 8192];
    let mut output_values = [0u64; 8192];
    let mut output_times = [0u64; 8192];
    let mut input_diffs = [0i64; 8192];
    let mut output_diffs = [0i64; 8192];
    let request = requests::Request {
        mode,
        width,
        frontiers: Frontiers {
            lower: lists.lower,
            upper: lists.upper,
            held: lists.held,
        },
        old: lists.old,
        new: lists.new,
        out: lists.out,
        pending: Pending {
            keys: lists.pending_keys,
            times: lists.pending_times,
        },
    };
    let mut results = ResultMemory {
        numbers: &mut numbers,
        diffs: &mut diffs,
    };
    let mut work = WorkMemory {
        keys: &mut input_keys,
        values: &mut input_values,
        times: &mut input_times,
        diffs: &mut input_diffs,
        out_values: &mut output_values,
        out_times: &mut output_times,
        out_diffs: &mut output_diffs,
    };
    let outcome = retire::retire(&request, &mut results, &mut moments, &mut work);
    let ResultMemory { numbers, diffs } = results;
    writing::write_answer(out, numbers, diffs, results_of(outcome)).unwrap_or(0)
}

// The first n entries, or all if there are fewer.
fn front<'a, T>(column: &'a [T], n: usize) -> &'a [T]
    ensures { result.now ≡ take n column.now }
{
    column.get(..n).unwrap_or(column)
}

// The first n entries of each column.
fn front_run<'a>(run: Run<'a>, n: usize) -> Run<'a>
    ensures { run_of result ≡ fronts n (run_of run.entry) }
{
    Run {
        keys: front(run.keys, n),
        values: front(run.values, n),
        times: front(run.times, n),
        diffs: front(run.diffs, n),
    }
}

// As many entries of each list as the counts say.
fn front_lists<'a>(lists: Lists<'a>, n: Counts) -> Lists<'a>
    ensures { (mode width : ℕ) → lists_lent mode width result ≡ fronts_lent mode width n lists.entry }
{
    Lists {
        lower: front(lists.lower, n.lower),
        upper: front(lists.upper, n.upper),
        held: front(lists.held, n.held),
        old: front_run(lists.old, n.old),
        new: front_run(lists.new, n.new),
        out: front_run(lists.out, n.out),
        pending_keys: front(lists.pending_keys, n.pending),
        pending_times: front(lists.pending_times, n.pending),
    }
}

// Prints a bad line's number, or lends a call the parts of the columns that the request fills.
fn reply_to(asked: Result<Request, BadLine>, lists: Lists, out: &mut [u8]) -> usize
    requires { most_text ≤ length out.old }
    ensures { (s : List ℕ) → Holds (parse s) asked lists.entry → Replied (reply s) out.old out.new result }
{
    match asked {
        Err(BadLine(line)) => writing::write_bad(out, line).unwrap_or(0),
        Ok(
            Request {
                mode,
                width,
                counts,
            },
        ) => call(mode, width, front_lists(lists, counts), out),
    }
}

// The whole reply to the bytes of a request at the front of out, and how many bytes it has.
pub fn answer(request: &[u8], out: &mut [u8]) -> usize
    requires { most_text ≤ length out.old }
    ensures { Replied (reply request.now) out.old out.new result }
{
    let mut lower = [0u64; 16];
    let mut upper = [0u64; 16];
    let mut held = [0u64; 16];
    let mut old_keys = [0u64; 512];
    let mut old_values = [0u64; 512];
    let mut old_times = [0u64; 512];
    let mut old_diffs = [0i64; 512];
    let mut new_keys = [0u64; 512];
    let mut new_values = [0u64; 512];
    let mut new_times = [0u64; 512];
    let mut new_diffs = [0i64; 512];
    let mut out_keys = [0u64; 512];
    let mut out_values = [0u64; 512];
    let mut out_times = [0u64; 512];
    let mut out_diffs = [0i64; 512];
    let mut pending_keys = [0u64; 512];
    let mut pending_times = [0u64; 512];
    let asked = reading::read_request(
        request,
        &mut lower,
        &mut upper,
        &mut held,
        &mut old_keys,
        &mut old_values,
        &mut old_times,
        &mut old_diffs,
        &mut new_keys,
        &mut new_values,
        &mut new_times,
        &mut new_diffs,
        &mut out_keys,
        &mut out_values,
        &mut out_times,
        &mut out_diffs,
        &mut pending_keys,
        &mut pending_times,
    );
    let old = Run {
        keys: &old_keys,
        values: &old_values,
        times: &old_times,
        diffs: &old_diffs,
    };
    let new = Run {
        keys: &new_keys,
        values: &new_values,
        times: &new_times,
        diffs: &new_diffs,
    };
    let output = Run {
        keys: &out_keys,
        values: &out_values,
        times: &out_times,
        diffs: &out_diffs,
    };
    let lists = Lists {
        lower: &lower,
        upper: &upper,
        held: &held,
        old,
        new,
        out: output,
        pending_keys: &pending_keys,
        pending_times: &pending_times,
    };
    reply_to(asked, lists, out)
}
