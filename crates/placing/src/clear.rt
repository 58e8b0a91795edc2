// Memory, cleared.
ghost use Rattle.std.specs.Prelude.{[], ◌∷◌, ◌≡◌};
ghost use Rattle.requests.specs.Memory.{SameResults, SameWork};
ghost use Rattle.placing.specs.Parts.{Zeros, emptied, emptied_diffs};

use requests::{ResultMemory, WorkMemory};
use slices::clear;

// Result memory, all zero.
pub fn clear_results(r: &mut ResultMemory<'_>)
    ensures zeros { Zeros r.old.numbers.now r.new.numbers.now r.old.diffs.now r.new.diffs.now }
    ensures same { SameResults r.old r.new }
{
    clear(r.numbers);
    clear(r.diffs);
}

// Work memory: six slices of numbers and two of diffs.
pub fn clear_work(moments: &mut [u64], w: &mut WorkMemory<'_>)
    ensures numbers { moments.new ∷ w.new.keys.now ∷ w.new.values.now ∷ w.new.times.now ∷ w.new.out_values.now ∷ w.new.out_times.now ∷ [] ≡ emptied (moments.old ∷ w.old.keys.now ∷ w.old.values.now ∷ w.old.times.now ∷ w.old.out_values.now ∷ w.old.out_times.now ∷ []) }
    ensures diffs { w.new.diffs.now ∷ w.new.out_diffs.now ∷ [] ≡ emptied_diffs (w.old.diffs.now ∷ w.old.out_diffs.now ∷ []) }
    ensures same { SameWork w.old w.new }
{
    clear(moments);
    clear(w.keys);
    clear(w.values);
    clear(w.times);
    clear(w.out_values);
    clear(w.out_times);
    clear(w.diffs);
    clear(w.out_diffs);
}
