// What a call is lent, as structs of borrowed columns, and the table of its statuses.
#![tactic(auto)]

ghost use Rattle.std.specs.Prelude.{◌≡◌, ◌≤◌, length, take};
ghost use Rattle.requests.specs.Runs.{columns_of, first_of};

mod memory;
mod status;

pub use memory::{ResultMemory, WorkMemory};
pub use status::Status;

// A run of records: a key, a value, a time and a diff, each in a column of its own. Whether the columns are of one length is a check of the call.
#[derive(Clone, Copy)]
pub struct Run<'a> {
    pub keys: &'a [u64],
    pub values: &'a [u64],
    pub times: &'a [u64],
    pub diffs: &'a [i64],
}

// A pending list: keys and times.
#[derive(Clone, Copy)]
pub struct Pending<'a> {
    pub keys: &'a [u64],
    pub times: &'a [u64],
}

// The three frontiers of a call: where it begins, where it ends, and the times at which the caller may write.
#[derive(Clone, Copy)]
pub struct Frontiers<'a> {
    pub lower: &'a [u64],
    pub upper: &'a [u64],
    pub held: &'a [u64],
}

// A call's request, in columns.
#[derive(Clone, Copy)]
pub struct Request<'a> {
    pub mode: u64,
    pub width: u64,
    pub frontiers: Frontiers<'a>,
    pub old: Run<'a>,
    pub new: Run<'a>,
    pub out: Run<'a>,
    pub pending: Pending<'a>,
}

impl<'a> Run<'a> {
    // Its first n records.
    pub fn first(&self, n: usize) -> Run<'a>
        requires { (n ≤ length self.now.keys.now) × ((n ≤ length self.now.values.now) × ((n ≤ length self.now.times.now) × (n ≤ length self.now.diffs.now))) }
        ensures { columns_of result ≡ first_of n (columns_of self.now) }
    {
        Run {
            keys: &self.keys[..n],
            values: &self.values[..n],
            times: &self.times[..n],
            diffs: &self.diffs[..n],
        }
    }
}

impl<'a> Pending<'a> {
    // Its first n entries.
    pub fn first(&self, n: usize) -> Pending<'a>
        requires { (n ≤ length self.now.keys.now) × (n ≤ length self.now.times.now) }
        ensures keys { result.keys.now ≡ take n self.now.keys.now }
        ensures times { result.times.now ≡ take n self.now.times.now }
    {
        Pending {
            keys: &self.keys[..n],
            times: &self.times[..n],
        }
    }
}
