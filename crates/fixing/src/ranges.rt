// "Some correction is outside -2^31 to 2^31 or there are over 4,096."
ghost use Rattle.std.specs.Prelude.{◌≡◌, not, ◌||◌, ◌+◌, ◌≤◌, ltb, length};
ghost use Rattle.grid.specs.Lists.{every};
ghost use Rattle.grid.specs.Records.{most_records, in_range};

use diffs::are_in_range;

// Whether, beside `count` corrections so far, these are more than there is room for, or one of them is out of range.
pub fn is_too_large(count: usize, cd: &[i64], most: usize) -> bool
    requires { (count ≤ most) × (most ≤ most_records) }
    ensures { result ≡ (not (every in_range cd.now) || ltb most (count + length cd.now)) }
{
    !are_in_range(cd) || count + cd.len() > most
}
