// Writing what lines are made of into a slice of bytes, from a place on. Each function answers the place after what it wrote. It takes any
// place: past the end nothing is written, and the place after it then lies past the end, too.
#![tactic(auto)]

ghost use Rattle.std.specs.Prelude.{[], ◌∷◌, ◌≡◌};
ghost use Rattle.form.specs.Read.{the_row};
ghost use Rattle.form.specs.Show.{decimal, signed_decimal, show_time, show_more, show_list, show_row, show_pair};
ghost use Rattle.print.specs.Put.{Put, show_key_value};

use times::{KeyHash, PackedTime, ValueId};

// The one byte b.
pub fn put_mark(out: &mut [u8], at: usize, b: u8) -> usize
    ensures { Put (b ∷ []) out.old out.new at result }
{
    if at < out.len() {
        out[at] = b;
        at + 1
    } else {
        out.len() + 1
    }
}

// The bytes of w.
pub fn put_word(out: &mut [u8], from: usize, w: &[u8]) -> usize
    ensures { Put w.now out.old out.new from result }
{
    let mut at = from;
    for b in w {
        at = put_mark(out, at, *b);
    }
    at
}

// A number without leading zeros.
pub fn put_decimal(out: &mut [u8], at: usize, n: u64) -> usize
    ensures { Put (decimal n) out.old out.new at result }
{
    if n < 10 {
        put_mark(out, at, b'0' + n as u8)
    } else {
        let last = put_decimal(out, at, n / 10);
        put_mark(out, last, b'0' + (n % 10) as u8)
    }
}

// The same, after a minus if d is below 0.
pub fn put_signed(out: &mut [u8], at: usize, d: i64) -> usize
    ensures { Put (signed_decimal d) out.old out.new at result }
{
    if d < 0 {
        let k = put_mark(out, at, b'-');
        put_decimal(out, k, d.unsigned_abs())
    } else {
        put_decimal(out, at, d.unsigned_abs())
    }
}

// Both parts of a time, and a ':' between them.
pub fn put_time(out: &mut [u8], at: usize, t: PackedTime) -> usize
    ensures { Put (show_time t.0) out.old out.new at result }
{
    let a = put_decimal(out, at, u64::from(t.hi()));
    let b = put_mark(out, a, b':');
    put_decimal(out, b, u64::from(t.lo()))
}

// Times, each after a ';'.
fn put_more(out: &mut [u8], from: usize, ts: &[u64]) -> usize
    ensures { Put (show_more ts.now) out.old out.new from result }
{
    let mut at = from;
    for t in ts {
        let k = put_mark(out, at, b';');
        at = put_time(out, k, PackedTime(*t));
    }
    at
}

// Times with a ';' between them, or a '-' if there are none.
pub fn put_list(out: &mut [u8], at: usize, ts: &[u64]) -> usize
    ensures { Put (show_list ts.now) out.old out.new at result }
{
    match ts {
        [] => put_mark(out, at, b'-'),
        [first, more @ ..] => {
            let k = put_time(out, at, PackedTime(*first));
            put_more(out, k, more)
        }
    }
}

// A key and a time.
pub fn put_pair(out: &mut [u8], at: usize, key: KeyHash, time: PackedTime) -> usize
    ensures { Put (show_pair (key.0, time.0)) out.old out.new at result }
{
    let a = put_decimal(out, at, key.0);
    let b = put_mark(out, a, b',');
    put_time(out, b, time)
}

// A key and a value, each with the "," after it.
fn put_key_value(out: &mut [u8], at: usize, key: KeyHash, value: ValueId) -> usize
    ensures { Put (show_key_value key.0 value.0) out.old out.new at result }
{
    let a = put_decimal(out, at, key.0);
    let b = put_mark(out, a, b',');
    let e = put_decimal(out, b, value.0);
    put_mark(out, e, b',')
}

// A record: key, value, time and diff.
pub fn put_row(
    out: &mut [u8],
    at: usize,
    key: KeyHash,
    value: ValueId,
    time: PackedTime,
    diff: i64,
) -> usize
    ensures { Put (show_row (the_row key.0 value.0 time.0 diff)) out.old out.new at result }
{
    let a = put_key_value(out, at, key, value);
    let b = put_time(out, a, time);
    let e = put_mark(out, b, b',');
    put_signed(out, e, diff)
}
