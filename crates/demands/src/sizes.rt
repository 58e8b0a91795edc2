// "Work sizes are published constants": how long the work slices must be.
ghost use Rattle.std.specs.Prelude.{◌≡◌, ◌+◌, ◌<◌, ◌≤◌, min, length, drop};
ghost use Rattle.grid.specs.Records.{most_records};
ghost use Rattle.demands.specs.Lending.{heads, column_needed, moments_needed};

// Long enough for every call: the moments of a window, and each column of the input.
pub const MOMENTS_SIZE: usize = 65537;

pub const COLUMN_SIZE: usize = 8192;

// How many records of a run count: at most as many as it may have.
fn few(n: usize) -> usize
    ensures { result ≡ min n most_records }
{
    n.min(4096)
}

// 1 where a stretch of equal keys ends at i, else 0.
fn end_at(keys: &[u64], i: usize) -> usize
    requires { i < length keys.now }
    ensures { (heads (drop i keys.now) ≡ result + heads (drop (i + 1) keys.now)) × (result ≤ 1) }
{
    if i + 1 == keys.len() {
        1
    } else if keys[i] == keys[i + 1] {
        0
    } else {
        1
    }
}

// How many stretches of equal keys there are.
fn count_heads(keys: &[u64]) -> usize
    ensures { result ≡ heads keys.now }
{
    let mut n = 0;
    for i in 0..keys.len() {
        n += end_at(keys, i);
    }
    n
}

// How many keys a window has at most, where n keys are changed at most.
fn window_keys(width: u64, n: usize) -> usize
    ensures { result ≡ min (min width 64) n }
{
    (width.min(64) as usize).min(n)
}

// Long enough for a call: each column of the input.
pub fn column_needed(old: usize, new: usize) -> usize
    ensures { result ≡ column_needed old new }
{
    few(old) + few(new)
}

// Long enough for a call: the moments of a window, which serve as a column of the input first.
pub fn moments_needed(width: u64, old: usize, newkeys: &[u64], pendingkeys: &[u64]) -> usize
    ensures { result ≡ moments_needed width old newkeys.now pendingkeys.now }
{
    let n = column_needed(old, newkeys.len());
    let k = window_keys(width, count_heads(newkeys) + count_heads(pendingkeys));
    n.max(1024 * k + 1)
}
