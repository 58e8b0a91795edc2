// The answer of a call of few records.
#![tactic(auto)]

ghost use Rattle.requests.specs.Memory.{SameResults};
ghost use Rattle.backends.specs.Modes.{mode_number};
ghost use Rattle.concluding.specs.Lending.{runs_of};
ghost use Rattle.concluding.specs.Answered.{Answering, Tries};

use answers::{Outcome, conclude};
use backends::Mode;
use keys::changed_keys;
use requests::{Pending, Request, ResultMemory, Run};
use results::Scratch;
use windows::work_windows;

// Finds the changed keys, works their windows, and writes the answer, if there is room in short columns for the corrections and the next pending list.
pub fn answer_briefly(
    q: &Request<'_>,
    mode: Mode,
    input: &Run<'_>,
    moments: &mut [u64],
    results: &mut ResultMemory<'_>,
) -> Option<Outcome>
    requires { Answering 64 (runs_of q.now input.now) q.now.width q.now.frontiers.lower.now q.now.frontiers.held.now moments.old results.old.numbers.now results.old.diffs.now }
    ensures tries { Tries (runs_of q.now input.now) (mode_number mode) q.now.width q.now.frontiers.lower.now q.now.frontiers.held.now result results.old.numbers.now results.new.numbers.now results.old.diffs.now results.new.diffs.now }
    ensures same { SameResults results.old results.new }
{
    let mut keys = [0u64; 128];
    let n = changed_keys(q.new.keys, q.pending.keys, &mut keys);
    let mut uv = [0u64; 128];
    let mut ut = [0u64; 128];
    let mut ud = [0i64; 128];
    let mut iv = [0u64; 128];
    let mut id = [0i64; 128];
    let mut ov = [0u64; 128];
    let mut od = [0i64; 128];
    let mut cd = [0i64; 256];
    let mut wv = [0u64; 1089];
    let mut seeds = [0u64; 64];
    let mut output = [0u64; 64];
    let mut tracked = [0u64; 1089];
    let mut nk = [0u64; 64];
    let mut nt = [0u64; 64];
    let mut fk = [0u64; 64];
    let mut fv = [0u64; 64];
    let mut ft = [0u64; 64];
    let mut fd = [0i64; 64];
    let c = work_windows(
        mode,
        q.width as usize,
        q.frontiers.upper,
        &keys[..n],
        q.new.keys,
        q.new.times,
        q.pending.keys,
        q.pending.times,
        input.keys,
        input.values,
        input.times,
        input.diffs,
        q.out.keys,
        q.out.values,
        q.out.times,
        q.out.diffs,
        moments,
        &mut uv,
        &mut ut,
        &mut ud,
        &mut iv,
        &mut id,
        &mut ov,
        &mut od,
        &mut cd,
        &mut wv,
        &mut seeds,
        &mut output,
        &mut tracked,
        &mut nk,
        &mut nt,
        &mut fk,
        &mut fv,
        &mut ft,
        &mut fd,
        results.numbers,
    );
    if c.over || c.large {
        return None;
    }
    Some(conclude(
        &q.frontiers,
        &Run {
            keys: &fk,
            values: &fv,
            times: &ft,
            diffs: &fd,
        },
        &Pending {
            keys: &nk,
            times: &nt,
        },
        c,
        Scratch {
            tiles: &mut iv,
            places: &mut ov,
            work: &mut wv,
        },
        results,
    ))
}
