// The answer of a call that works, whatever its runs.
#![tactic(auto)]

ghost use Rattle.grid.specs.Records.{most_records};
ghost use Rattle.requests.specs.Memory.{SameResults};
ghost use Rattle.backends.specs.Modes.{mode_number};
ghost use Rattle.concluding.specs.Lending.{runs_of};
ghost use Rattle.concluding.specs.Answered.{Answering, Answered};

use answers::{Outcome, conclude};
use backends::Mode;
use keys::changed_keys;
use requests::{Pending, Request, ResultMemory, Run};
use results::Scratch;
use windows::work_windows;

// Finds the changed keys, works their windows, and writes the answer. The columns are long enough for every call, and local here; after the windows some
// of them are scratch once more.
pub fn answer_fully(
    q: &Request<'_>,
    mode: Mode,
    input: &Run<'_>,
    moments: &mut [u64],
    results: &mut ResultMemory<'_>,
) -> Outcome
    requires { Answering most_records (runs_of q.now input.now) q.now.width q.now.frontiers.lower.now q.now.frontiers.held.now moments.old results.old.numbers.now results.old.diffs.now }
    ensures answered { Answered (runs_of q.now input.now) (mode_number mode) q.now.width q.now.frontiers.lower.now q.now.frontiers.held.now result results.old.numbers.now results.new.numbers.now results.old.diffs.now results.new.diffs.now }
    ensures same { SameResults results.old results.new }
{
    let mut keys = [0u64; 8192];
    let mut uv = [0u64; 8192];
    let mut ut = [0u64; 8192];
    let mut ud = [0i64; 8192];
    let mut iv = [0u64; 8192];
    let mut id = [0i64; 8192];
    let mut ov = [0u64; 8192];
    let mut od = [0i64; 8192];
    let mut cd = [0i64; 16384];
    let mut wv = [0u64; 8192];
    let mut seeds = [0u64; 4096];
    let mut output = [0u64; 4096];
    let mut tracked = [0u64; 5121];
    let mut nk = [0u64; 4096];
    let mut nt = [0u64; 4096];
    let mut fk = [0u64; 4096];
    let mut fv = [0u64; 4096];
    let mut ft = [0u64; 4096];
    let mut fd = [0i64; 4096];
    let n = changed_keys(q.new.keys, q.pending.keys, &mut keys);
    let c = work_windows(
        mode,
        q.width as usize,
        q.frontiers.upper,
        &keys[..n],
        q.new.keys,
        q.new.times,
        q.pending.keys,
        q.pending.times,
        input.keys,
        input.values,
        input.times,
        input.diffs,
        q.out.keys,
        q.out.values,
        q.out.times,
        q.out.diffs,
        moments,
        &mut uv,
        &mut ut,
        &mut ud,
        &mut iv,
        &mut id,
        &mut ov,
        &mut od,
        &mut cd,
        &mut wv,
        &mut seeds,
        &mut output,
        &mut tracked,
        &mut nk,
        &mut nt,
        &mut fk,
        &mut fv,
        &mut ft,
        &mut fd,
        results.numbers,
    );
    conclude(
        &q.frontiers,
        &Run {
            keys: &fk,
            values: &fv,
            times: &ft,
            diffs: &fd,
        },
        &Pending {
            keys: &nk,
            times: &nt,
        },
        c,
        Scratch {
            tiles: &mut iv,
            places: &mut ov,
            work: &mut wv,
        },
        results,
    )
}
