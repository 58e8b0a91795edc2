// One key's correction.
ghost use Rattle.std.specs.Prelude.{◌≡◌, length, drop};
ghost use Rattle.rules.specs.Backends.{correction};
ghost use Rattle.backends.specs.Columns.{entries, Appended};
ghost use Rattle.backends.specs.Correct.{distinct_minus, turn, Ready, Segment};
ghost use Rattle.backends.specs.Modes.{mode_number};

use crate::listed::is_listed;
use crate::mode::Mode;
use diffs::{count_id, is_zero, negated, one_less, total};
use std::cmp::Ordering;

// Which of the two least entries the walk takes: the input's, the output's, both, or the input's, which is not listed.
#[derive(Clone, Copy)]
enum Turn {
    Input,
    Output,
    Both,
    Unlisted,
}

// Which turn the walk takes, where it has come to i in the input and to j in the output.
fn which(iv: &[u64], id: &[i64], i: usize, ov: &[u64], j: usize) -> Turn
    requires { length id.now ≡ length iv.now }
    ensures { result ≡ turn (drop i (entries iv.now id.now)) (drop j ov.now) }
{
    if i >= iv.len() {
        Turn::Output
    } else if !is_listed(id[i]) {
        Turn::Unlisted
    } else if j >= ov.len() {
        Turn::Input
    } else {
        match iv[i].cmp(&ov[j]) {
            Ordering::Less => Turn::Input,
            Ordering::Greater => Turn::Output,
            Ordering::Equal => Turn::Both,
        }
    }
}

// Appends at `at` the listed values of the input, each once, minus the output.
fn differ(
    iv: &[u64],
    id: &[i64],
    ov: &[u64],
    od: &[i64],
    cv: &mut [u64],
    cd: &mut [i64],
    at: usize,
) -> usize
    requires { Ready iv.now id.now ov.now od.now cv.old cd.old at }
    ensures { Appended cv.old cd.old at (distinct_minus (entries iv.now id.now) (entries ov.now od.now)) cv.new cd.new result }
{
    let mut i = 0;
    let mut j = 0;
    let mut k = at;
    // A turn moves one index or both, and need not write: none of the three counts the turns.
    while i + j < iv.len() + ov.len() {
        match which(iv, id, i, ov, j) {
            Turn::Input => {
                cv[k] = iv[i];
                cd[k] = 1;
                i += 1;
                k += 1;
            }
            Turn::Output => {
                cv[k] = ov[j];
                cd[k] = negated(od[j]);
                j += 1;
                k += 1;
            }
            Turn::Both => {
                let e = one_less(od[j]);
                if !is_zero(e) {
                    cv[k] = iv[i];
                    cd[k] = e;
                    k += 1;
                }
                i += 1;
                j += 1;
            }
            Turn::Unlisted => i += 1,
        }
    }
    k
}

// Appends at `at` one key's correction. A count is a record that distinct lists.
pub fn correct(
    mode: Mode,
    iv: &[u64],
    id: &[i64],
    ov: &[u64],
    od: &[i64],
    cv: &mut [u64],
    cd: &mut [i64],
    at: usize,
) -> usize
    requires { Segment iv.now id.now ov.now od.now cv.old cd.old at }
    ensures { Appended cv.old cd.old at (correction (mode_number mode) (entries iv.now id.now) (entries ov.now od.now)) cv.new cd.new result }
{
    if !mode.counts() {
        return differ(iv, id, ov, od, cv, cd, at);
    }
    let count = total(id);
    if is_zero(count) {
        differ(&[], &[], ov, od, cv, cd, at)
    } else {
        differ(&[count_id(count)], &[1], ov, od, cv, cd, at)
    }
}
