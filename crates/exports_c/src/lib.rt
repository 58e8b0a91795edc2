// The call for programs in Rust and C, and the line form: numbers and slices only. A slice crosses as its address and its length. Each function is that
// of the library exports, with its clauses.
#![tactic(auto)]

ghost use Rattle.std.specs.Prelude.{◌≡◌, ◌≤◌};
ghost use Rattle.rules.specs.Memory.{numbers_size};
ghost use Rattle.form.specs.Show.{reply};
ghost use Rattle.form.proofs.Room.{most_text};
ghost use Rattle.grid.specs.Records.{most_records};
ghost use Rattle.checks.specs.Checks.{columns};
ghost use Rattle.demands.specs.Lending.{column_needed, moments_needed, memory, lent};
ghost use Rattle.exports.specs.Exported.{Exported, Printed};

// How many numbers and how many diffs result memory has.
#[unsafe(no_mangle)]
pub extern "C" fn daniskol_numbers_size() -> usize
    ensures { result ≡ numbers_size }
{
    exports::daniskol_numbers_size()
}

#[unsafe(no_mangle)]
pub extern "C" fn daniskol_diffs_size() -> usize
    ensures { result ≡ most_records }
{
    exports::daniskol_diffs_size()
}

// How long the first work slice must be, and how long each of the others.
#[unsafe(no_mangle)]
pub extern "C" fn daniskol_moments_size() -> usize
    ensures { result ≡ 65537 }
{
    exports::daniskol_moments_size()
}

#[unsafe(no_mangle)]
pub extern "C" fn daniskol_column_size() -> usize
    ensures { result ≡ 8192 }
{
    exports::daniskol_column_size()
}

// How long they must be for one call: of its width, how many records the old run has, the keys of the new run and those of the pending list.
#[unsafe(no_mangle)]
pub extern "C" fn daniskol_moments_needed(
    width: u64,
    old: usize,
    newkeys: &[u64],
    pendingkeys: &[u64],
) -> usize
    ensures { result ≡ moments_needed width old newkeys.now pendingkeys.now }
{
    exports::daniskol_moments_needed(width, old, newkeys, pendingkeys)
}

#[unsafe(no_mangle)]
pub extern "C" fn daniskol_column_needed(old: usize, new: usize) -> usize
    ensures { result ≡ column_needed old new }
{
    exports::daniskol_column_needed(old, new)
}

// The call. Returns its status, and writes status, crossings, and how many tiles, corrections, pending entries and frontier times there are to the
// first six of counts; where these are fewer than six, lent memory is too short (11).
#[unsafe(no_mangle)]
pub extern "C" fn daniskol_retire(
    mode: u64,
    width: u64,
    lower: &[u64],
    upper: &[u64],
    held: &[u64],
    oldkeys: &[u64],
    oldvalues: &[u64],
    oldtimes: &[u64],
    olddiffs: &[i64],
    newkeys: &[u64],
    newvalues: &[u64],
    newtimes: &[u64],
    newdiffs: &[i64],
    outkeys: &[u64],
    outvalues: &[u64],
    outtimes: &[u64],
    outdiffs: &[i64],
    pendingkeys: &[u64],
    pendingtimes: &[u64],
    counts: &mut [u64],
    res: &mut [u64],
    rd: &mut [i64],
    moments: &mut [u64],
    tk: &mut [u64],
    tv: &mut [u64],
    tt: &mut [u64],
    uv: &mut [u64],
    ut: &mut [u64],
    td: &mut [i64],
    ud: &mut [i64],
) -> u64
    ensures { Exported (lent mode width lower.now upper.now held.now (columns oldkeys.now oldvalues.now oldtimes.now olddiffs.now) (columns newkeys.now newvalues.now newtimes.now newdiffs.now) (columns outkeys.now outvalues.now outtimes.now outdiffs.now) pendingkeys.now pendingtimes.now (memory res.old rd.old moments.old tk.old tv.old tt.old uv.old ut.old td.old ud.old)) counts.old counts.new (memory res.new rd.new moments.new tk.new tv.new tt.new uv.new ut.new td.new ud.new) result }
{
    exports::daniskol_retire(
        mode,
        width,
        lower,
        upper,
        held,
        oldkeys,
        oldvalues,
        oldtimes,
        olddiffs,
        newkeys,
        newvalues,
        newtimes,
        newdiffs,
        outkeys,
        outvalues,
        outtimes,
        outdiffs,
        pendingkeys,
        pendingtimes,
        counts,
        res,
        rd,
        moments,
        tk,
        tv,
        tt,
        uv,
        ut,
        td,
        ud,
    )
}

// How many bytes the longest reply has.
#[unsafe(no_mangle)]
pub extern "C" fn daniskol_text_size() -> usize
    ensures { result ≡ most_text }
{
    exports::daniskol_text_size()
}

// Reads the lines of a request, makes the call in memory of its own, and writes the lines of its reply. Returns how many bytes these have; where the text
// may be too long for out, none is written.
#[unsafe(no_mangle)]
pub extern "C" fn daniskol_answer(request: &[u8], out: &mut [u8]) -> usize
    ensures { Printed (reply request.now) out.old out.new result }
{
    exports::daniskol_answer(request, out)
}
