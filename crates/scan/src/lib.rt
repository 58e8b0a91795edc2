// Reading what lines are made of, at a place of a slice of bytes: words, numbers, times and diffs. Nothing is written.
// A reader gives what it read and the place after it, or nothing where something else stands.
#![tactic(auto)]

ghost use Rattle.std.specs.Prelude.{◌≤◌, ◌<◌, ◌-◌, ◌^◌, [], ◌∷◌, ◌≡◌, negsuc, pos, get_or, drop, length, IfSome};
ghost use Rattle.grid.specs.Lists.{front};
ghost use Rattle.form.specs.Read.{word, digit, plain, up_to, number, ending, time, signed};
ghost use Rattle.scan.specs.Told.{told_place, told_num, told_time, told_diff};

use times::PackedTime;

// The bytes from a place on, none past the end.
fn rest(s: &[u8], at: usize) -> &[u8]
    ensures { result.now ≡ drop at s.now }
{
    s.get(at..).unwrap_or(&[])
}

// Whether a digit stands in front.
fn starts_with_digit(s: &[u8]) -> bool
    ensures { result ≡ digit (get_or s.now 0 0) }
{
    matches!(s, [b'0'..=b'9', ..])
}

// Whether some digit stands in front, and no 0 before another digit.
fn is_plain(s: &[u8]) -> bool
    ensures { result ≡ plain (front digit s.now) }
{
    match s {
        [b'0', more @ ..] => !starts_with_digit(more),
        [first, ..] => first.is_ascii_digit(),
        [] => false,
    }
}

// The number that the digits in front make, and how many they are, if it is at most `most`.
fn digits_up_to(s: &[u8], most: u64) -> Option<(u64, usize)>
    requires { 9 ≤ most }
    ensures told { told_num s.now result ≡ up_to most 0 s.now }
    ensures small { IfSome result (λ x. x.0 ≤ most) }
    ensures inside { IfSome result (λ x. x.1 ≤ length s.now) }
{
    let mut n: u64 = 0;
    for (i, b) in s.iter().enumerate() {
        if !b.is_ascii_digit() {
            return Some((n, i));
        }
        let digit = u64::from(*b - b'0');
        if (most - digit) / 10 < n {
            return None;
        }
        n = n * 10 + digit;
    }
    Some((n, s.len()))
}

// A number without leading zeros, at most `most`.
pub fn read_number(s: &[u8], at: usize, most: u64) -> Option<(u64, usize)>
    requires { 9 ≤ most }
    ensures told { told_num s.now result ≡ number most (drop at s.now) }
    ensures small { IfSome result (λ x. x.0 ≤ most) }
{
    let digits = rest(s, at);
    if !is_plain(digits) {
        return None;
    }
    let (n, count) = digits_up_to(digits, most)?;
    Some((n, at + count))
}

// The bytes of w.
pub fn read_word(s: &[u8], at: usize, w: &[u8]) -> Option<usize>
    ensures { told_place s.now result ≡ word w.now (drop at s.now) }
{
    if rest(s, at).starts_with(w) {
        Some(at + w.len())
    } else {
        None
    }
}

// The one byte b.
pub fn read_mark(s: &[u8], at: usize, b: u8) -> Option<usize>
    ensures { told_place s.now result ≡ word (b ∷ []) (drop at s.now) }
{
    read_word(s, at, &[b])
}

// A number and the one byte b.
#[tactic(auto, unfolding(form::specs::Read::ending))]
pub fn number_and(s: &[u8], at: usize, most: u64, b: u8) -> Option<(u64, usize)>
    requires { 9 ≤ most }
    ensures told { told_num s.now result ≡ ending (b ∷ []) (number most) (drop at s.now) }
    ensures small { IfSome result (λ x. x.0 ≤ most) }
{
    let (n, end) = read_number(s, at, most)?;
    let next = read_mark(s, end, b)?;
    Some((n, next))
}

// Two numbers of 32 bits and a ':' between them.
#[tactic(auto, unfolding(form::specs::Read::time))]
pub fn read_time(s: &[u8], at: usize) -> Option<(PackedTime, usize)>
    ensures { told_time s.now result ≡ time (drop at s.now) }
{
    let (a, second) = number_and(s, at, u64::from(u32::MAX), b':')?;
    let (b, next) = read_number(s, second, u64::from(u32::MAX))?;
    Some((PackedTime::new(a as u32, b as u32), next))
}

// A time and the one byte b.
#[tactic(auto, unfolding(form::specs::Read::ending))]
pub fn time_and(s: &[u8], at: usize, b: u8) -> Option<(PackedTime, usize)>
    ensures { told_time s.now result ≡ ending (b ∷ []) time (drop at s.now) }
{
    let (t, end) = read_time(s, at)?;
    let next = read_mark(s, end, b)?;
    Some((t, next))
}

// The number n with a minus.
fn negative(n: u64) -> i64
    requires n_nonzero { 0 < n }
    requires n_bound { n ≤ 2 ^ 63 }
    ensures { result ≡ negsuc (n - 1) }
{
    -1 - ((n - 1) as i64)
}

// A number without leading zeros, or one that is not 0 after a minus.
pub fn read_signed(s: &[u8], at: usize) -> Option<(i64, usize)>
    ensures { told_diff s.now result ≡ signed (drop at s.now) }
{
    match read_mark(s, at, b'-') {
        Some(digits) => match read_number(s, digits, i64::MIN.unsigned_abs())? {
            (0, _) => None,
            (n, next) => Some((negative(n), next)),
        },
        None => {
            let (n, next) = read_number(s, at, i64::MAX as u64)?;
            Some((n as i64, next))
        }
    }
}
