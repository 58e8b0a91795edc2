// A column laid into result memory, from a place on. What lies before it and past it stays as it was.
ghost use Rattle.std.specs.Prelude.{map, ◌≡◌, ◌+◌, ◌≤◌, length, get_or};
ghost use Rattle.placing.specs.Parts.{laid_at};

use slices::{Entry, copy, gather};

pub fn put_column(src: &[u64], res: &mut [u64], at: usize)
    requires { at + length src.now ≤ length res.old }
    ensures { res.new ≡ laid_at at src.now res.old }
{
    let past = at + src.len();
    copy(src, &mut res[at..past]);
}

// The entries of src at the given places, in the order of the places.
pub fn gather_column<T: Entry>(src: &[T], places: &[u64], res: &mut [T], at: usize)
    requires { at + length places.now ≤ length res.old }
    ensures { res.new ≡ laid_at at (map (λ place. get_or src.now place T.ZERO) places.now) res.old }
{
    let past = at + places.len();
    gather(src, places, &mut res[at..past]);
}
