// Single diffs, and columns of them: zero, range, differences, sums.
#![tactic(auto)]

ghost use Rattle.std.specs.Prelude.{◌≤◌, ◌<◌, ◌^◌, ◌≡◌, pos, ◌+ℤ◌, neg_ℤ, nat_abs, length};
ghost use Rattle.std.specs.Int.Signed.{mag};
ghost use Rattle.grid.specs.Consolidate.{is_zero};
ghost use Rattle.grid.specs.Lists.{every};
ghost use Rattle.grid.specs.Records.{in_range, good_diff};
ghost use Rattle.grid.proofs.Lists.{All};
ghost use Rattle.grid.proofs.Sums.{sum};
ghost use Rattle.diffs.specs.Diffs.{modest};

// x + y.
pub fn plus(x: i64, y: i64) -> i64
    requires { mag (x +ℤ y) < 2 ^ 63 }
    ensures { result ≡ x +ℤ y }
{
    x + y
}

// Whether a diff is zero.
pub fn is_zero(a: i64) -> bool
    ensures { result ≡ is_zero a }
{
    a == 0
}

// Whether a diff is from -2^31 to 2^31.
fn is_in_range(d: i64) -> bool
    ensures { result ≡ in_range d }
{
    d.unsigned_abs() <= 2147483648
}

// Whether every diff of a column is.
pub fn are_in_range(ds: &[i64]) -> bool
    ensures { result ≡ every in_range ds.now }
{
    ds.iter().all(|d| is_in_range(*d))
}

// Whether a diff is nonzero and from -2^31 to 2^31.
fn is_good_diff(d: i64) -> bool
    ensures { result ≡ good_diff d }
{
    d != 0 && is_in_range(d)
}

// Whether every diff is good.
pub fn all_good(ds: &[i64]) -> bool
    ensures { result ≡ every good_diff ds.now }
{
    ds.iter().all(|d| is_good_diff(*d))
}

// -a.
pub fn negated(a: i64) -> i64
    requires { modest a }
    ensures { result ≡ neg_ℤ a }
{
    -a
}

// 1 - a.
pub fn one_less(a: i64) -> i64
    requires { modest a }
    ensures { result ≡ pos 1 +ℤ neg_ℤ a }
{
    1 - a
}

// The value id of a count.
pub fn count_id(c: i64) -> u64
    requires { nat_abs c ≤ 2 ^ 62 }
    ensures { result ≡ nat_abs (pos 9223372036854775808 +ℤ c) }
{
    if c < 0 {
        9223372036854775808 - c.unsigned_abs()
    } else {
        9223372036854775808 + c as u64
    }
}

// The sum of a column.
pub fn total(d: &[i64]) -> i64
    requires { (length d.now ≤ 8192) × All modest d.now }
    ensures { (result ≡ sum (λ x. x) d.now) × (nat_abs result ≤ 2 ^ 62) }
{
    let mut t: i64 = 0;
    for x in d {
        t += *x;
    }
    t
}
