// Clearing, copying and gathering lent columns: numbers, and diffs.
#![tactic(auto)]

ghost use Rattle.std.specs.Prelude.{◌≡◌, ◌-◌, ◌≤◌, ◌++◌, map, length, take, drop, replicate, pos, get_or};
ghost use Rattle.slices.specs.Places.{up_to};

// What a column holds: numbers or diffs. ZERO stands for what lies past its end.
pub trait Entry: Copy {
    const ZERO: Self;

    ghost ZERO: { Self };

    // A clone is the entry itself, and does not fail.
    ghost clone_is_same: { (x y : Self) → Self.is_clone x y → y ≡ x };

    ghost clone_succeeds: { (x : Self) → Self.is_infallible x };
}

impl Entry for u64 {
    const ZERO: u64 = 0;

    ghost ZERO = { 0 };

    ghost clone_is_same = { λ _ _ h. h };

    ghost clone_succeeds = { λ _. tt };
}

impl Entry for i64 {
    const ZERO: i64 = 0;

    ghost ZERO = { pos 0 };

    ghost clone_is_same = { λ _ _ h. h };

    ghost clone_succeeds = { λ _. tt };
}

// Sets every entry from the place `from` on to 0.
pub fn clear_from<T: Entry>(s: &mut [T], from: usize)
    requires { from ≤ length s.old }
    ensures { s.new ≡ take from s.old ++ replicate (length s.old - from) T.ZERO }
{
    s[from..].fill(T::ZERO);
}

pub fn clear<T: Entry>(s: &mut [T])
    ensures { s.new ≡ replicate (length s.old) T.ZERO }
{
    s.fill(T::ZERO);
}

// Copies src into the front of dst, whose rest stays as it is.
pub fn copy<T: Entry>(src: &[T], dst: &mut [T])
    requires { length src.now ≤ length dst.old }
    ensures { dst.new ≡ src.now ++ drop (length src.now) dst.old }
{
    dst[..src.len()].copy_from_slice(src);
}

// The entry at a place, 0 past the end, so that it asks nothing.
pub fn entry_at<T: Entry>(s: &[T], place: u64) -> T
    ensures { result ≡ get_or s.now place T.ZERO }
{
    s.get(place as usize).copied().unwrap_or(T::ZERO)
}

// Lists all places of a slice, in order.
pub fn count_up(s: &mut [u64])
    ensures { s.new ≡ up_to (length s.old) }
{
    for (i, place) in s.iter_mut().enumerate() {
        *place = i as u64;
    }
}

// Puts the entries of src at the given places into dst, in the order of the places.
pub fn gather<T: Entry>(src: &[T], places: &[u64], dst: &mut [T])
    requires { length dst.old ≡ length places.now }
    ensures { dst.new ≡ map (λ place. get_or src.now place T.ZERO) places.now }
{
    for (i, place) in places.iter().enumerate() {
        dst[i] = entry_at(src, *place);
    }
}
