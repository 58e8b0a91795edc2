// A key's part of a lent run.
ghost use Rattle.std.specs.Prelude.{◌≡◌, ◌+◌, eqb, ltb, length, drop};
ghost use Rattle.grid.specs.Lists.{front};
ghost use Rattle.backends.specs.Segments.{part};
ghost use Rattle.keys.specs.Spans.{Spans, Within};

use crate::Span;
use histories::rest;
use times::KeyHash;

// Where the keys below a key end, from the place `start` on.
fn end_below(keys: &[u64], start: usize, key: KeyHash) -> usize
    ensures { result ≡ start + length (front (λ x. ltb x key.0) (drop start keys.now)) }
{
    start + rest(keys, start).iter().take_while(|x| **x < key.0).count()
}

// Where the keys equal to a key end, from the place `start` on.
pub fn end_equal(keys: &[u64], start: usize, key: KeyHash) -> usize
    ensures { result ≡ start + length (front (eqb key.0) (drop start keys.now)) }
{
    start
        + rest(keys, start)
            .iter()
            .take_while(|x| key.0 == **x)
            .count()
}

// A key's part of a run. The keys that one asks for ascend, so that each search goes on where the last one ended.
pub fn span_of(keys: &[u64], start: usize, key: KeyHash) -> Span
    ensures { Spans keys.now start key.0 result }
{
    let from = end_below(keys, start, key);
    let to = end_equal(keys, from, key);
    Span { from, to }
}

// That part of a column, of keys, of times or of diffs, as it lies in the lent run.
pub fn key_part<'a, T>(column: &'a [T], s: Span) -> &'a [T]
    requires { Within (length column.now) s }
    ensures { result.now ≡ part s.from s.to column.now }
{
    &column[s.from..s.to]
}
