// Memory that a call is lent to write.
ghost use Rattle.std.specs.Prelude.{◌≡◌, ◌≤◌, length};
ghost use Rattle.requests.specs.Memory.{input_of};
ghost use Rattle.requests.specs.Runs.{columns_of, first_of};

use crate::Run;

// Where a call leaves its results: numbers and diffs, at published places.
#[derive(Drop)]
pub struct ResultMemory<'a> {
    pub numbers: &'a mut [u64],
    pub diffs: &'a mut [i64],
}

// Where a call works, beside the moments of a window: the columns of its input, and those of a key's output.
#[derive(Drop)]
pub struct WorkMemory<'a> {
    pub keys: &'a mut [u64],
    pub values: &'a mut [u64],
    pub times: &'a mut [u64],
    pub diffs: &'a mut [i64],
    pub out_values: &'a mut [u64],
    pub out_times: &'a mut [u64],
    pub out_diffs: &'a mut [i64],
}

impl WorkMemory<'_> {
    // The first n records of the input.
    pub fn input(&self, n: usize) -> Run<'_>
        requires { (n ≤ length self.now.keys.now) × ((n ≤ length self.now.values.now) × ((n ≤ length self.now.times.now) × (n ≤ length self.now.diffs.now))) }
        ensures { columns_of result ≡ first_of n (input_of self.now) }
    {
        Run {
            keys: &self.keys[..n],
            values: &self.values[..n],
            times: &self.times[..n],
            diffs: &self.diffs[..n],
        }
    }
}
