// Whether edits are consolidated already, as a buffer is.
ghost use Rattle.std.specs.Prelude.{not, map, ◌≡◌};
ghost use Rattle.grid.specs.Consolidate.{is_zero};
ghost use Rattle.grid.specs.Lists.{every, ascending};
ghost use Rattle.rules.specs.Histories.{by_value};
ghost use Rattle.edits.specs.Edits.{edits, Alike, key_of, is_consolidated};

use rows::pair_before;

// Whether the edits ascend strictly by (value, time).
fn ascend_by_value(times: &[u64], values: &[u64], diffs: &[i64]) -> bool
    requires { Alike times.now values.now diffs.now }
    ensures { result ≡ ascending by_value (map key_of (edits times.now values.now diffs.now)) }
{
    for i in 1..times.len() {
        if !pair_before(values[i - 1], times[i - 1], values[i], times[i]) {
            return false;
        }
    }
    true
}

// Whether no diff is zero.
fn no_zeros(diffs: &[i64]) -> bool
    ensures { result ≡ every (λ d. not (is_zero d)) diffs.now }
{
    diffs.iter().all(|d| *d != 0)
}

// Whether the edits are a consolidated buffer: ascending by (value, time), and no diff is zero.
pub fn is_consolidated(times: &[u64], values: &[u64], diffs: &[i64]) -> bool
    requires { Alike times.now values.now diffs.now }
    ensures { result ≡ is_consolidated (edits times.now values.now diffs.now) }
{
    ascend_by_value(times, values, diffs) && no_zeros(diffs)
}
