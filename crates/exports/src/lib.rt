// The call and the line form for other languages, as functions over numbers and slices only. exports_c gives them to C under the same names.
#![tactic(auto)]

ghost use Rattle.std.specs.Prelude.{◌≡◌, ◌≤◌};
ghost use Rattle.rules.specs.Memory.{numbers_size};
ghost use Rattle.form.specs.Show.{reply};
ghost use Rattle.form.proofs.Room.{most_text};
ghost use Rattle.grid.specs.Records.{most_records};
ghost use Rattle.checks.specs.Checks.{columns};
ghost use Rattle.demands.specs.Lending.{column_needed, moments_needed, memory, lent};
ghost use Rattle.exports.specs.Exported.{Exported, Printed};

use answering::{TEXT_SIZE, answer};
use demands::{COLUMN_SIZE, MOMENTS_SIZE, column_needed, moments_needed};
use requests::{Frontiers, Pending, Request, ResultMemory, Run, WorkMemory};
use results::{DIFFS_SIZE, NUMBERS_SIZE};
use retire::retire;
use telling::tell;

// How many numbers and how many diffs result memory has.
pub fn daniskol_numbers_size() -> usize
    ensures { result ≡ numbers_size }
{
    NUMBERS_SIZE
}

pub fn daniskol_diffs_size() -> usize
    ensures { result ≡ most_records }
{
    DIFFS_SIZE
}

// How long the first work slice must be, and how long each of the others.
pub fn daniskol_moments_size() -> usize
    ensures { result ≡ 65537 }
{
    MOMENTS_SIZE
}

pub fn daniskol_column_size() -> usize
    ensures { result ≡ 8192 }
{
    COLUMN_SIZE
}

// How long they must be for one call: of its width, how many records the old run has, the keys of the new run and those of the pending list.
pub fn daniskol_moments_needed(
    width: u64,
    old: usize,
    newkeys: &[u64],
    pendingkeys: &[u64],
) -> usize
    ensures { result ≡ moments_needed width old newkeys.now pendingkeys.now }
{
    moments_needed(width, old, newkeys, pendingkeys)
}

pub fn daniskol_column_needed(old: usize, new: usize) -> usize
    ensures { result ≡ column_needed old new }
{
    column_needed(old, new)
}

// The call. Returns its status, and writes status, crossings, and how many tiles, corrections, pending entries and frontier times there are to the
// first six of counts; where these are fewer than six, lent memory is too short (11).
pub fn daniskol_retire(
    mode: u64,
    width: u64,
    lower: &[u64],
    upper: &[u64],
    held: &[u64],
    oldkeys: &[u64],
    oldvalues: &[u64],
    oldtimes: &[u64],
    olddiffs: &[i64],
    newkeys: &[u64],
    newvalues: &[u64],
    newtimes: &[u64],
    newdiffs: &[i64],
    outkeys: &[u64],
    outvalues: &[u64],
    outtimes: &[u64],
    outdiffs: &[i64],
    pendingkeys: &[u64],
    pendingtimes: &[u64],
    counts: &mut [u64],
    res: &mut [u64],
    rd: &mut [i64],
    moments: &mut [u64],
    tk: &mut [u64],
    tv: &mut [u64],
    tt: &mut [u64],
    uv: &mut [u64],
    ut: &mut [u64],
    td: &mut [i64],
    ud: &mut [i64],
) -> u64
    ensures { Exported (lent mode width lower.now upper.now held.now (columns oldkeys.now oldvalues.now oldtimes.now olddiffs.now) (columns newkeys.now newvalues.now newtimes.now newdiffs.now) (columns outkeys.now outvalues.now outtimes.now outdiffs.now) pendingkeys.now pendingtimes.now (memory res.old rd.old moments.old tk.old tv.old tt.old uv.old ut.old td.old ud.old)) counts.old counts.new (memory res.new rd.new moments.new tk.new tv.new tt.new uv.new ut.new td.new ud.new) result }
{
    if counts.len() < 6 {
        return 11;
    }
    let request = Request {
        mode,
        width,
        frontiers: Frontiers { lower, upper, held },
        old: Run {
            keys: oldkeys,
            values: oldvalues,
            times: oldtimes,
            diffs: olddiffs,
        },
        new: Run {
            keys: newkeys,
            values: newvalues,
            times: newtimes,
            diffs: newdiffs,
        },
        out: Run {
            keys: outkeys,
            values: outvalues,
            times: outtimes,
            diffs: outdiffs,
        },
        pending: Pending {
            keys: pendingkeys,
            times: pendingtimes,
        },
    };
    let mut results = ResultMemory {
        numbers: res,
        diffs: rd,
    };
    let mut work = WorkMemory {
        keys: tk,
        values: tv,
        times: tt,
        diffs: td,
        out_values: uv,
        out_times: ut,
        out_diffs: ud,
    };
    let r = retire(&request, &mut results, moments, &mut work);
    tell(r, counts);
    r.status.number()
}

// How many bytes the longest reply has.
pub fn daniskol_text_size() -> usize
    ensures { result ≡ most_text }
{
    TEXT_SIZE
}

// Reads the lines of a request, makes the call in memory of its own, and writes the lines of its reply. Returns how many bytes these have; where the text
// may be too long for out, none is written.
pub fn daniskol_answer(request: &[u8], out: &mut [u8]) -> usize
    ensures { Printed (reply request.now) out.old out.new result }
{
    if out.len() < TEXT_SIZE {
        return 0;
    }
    answer(request, out)
}
