// TimeHistory: times replayed in ascending order. A history and its buffer share one lent column: the buffer is the first `count` entries,
// and what is ahead are the entries from `at` on.
#![tactic(auto)]

ghost use Rattle.std.specs.Prelude.{◌≡◌, ◌+◌, ◌-◌, ◌≤◌, ltb};

mod columns;
mod time_history;

pub use columns::{copy_joined, end_of_equal, end_through, join_each, move_down, rest};
pub use time_history::{
    advance_buffer_by, head_of, load_times, meet_ahead, step_through, step_while_time_is,
    suffix_meets,
};

#[derive(Clone, Copy)]
pub struct Place {
    pub count: usize,
    pub at: usize,
}

// The place after a step, and whether anything moved into the buffer.
#[derive(Clone, Copy)]
pub struct Stepped {
    pub place: Place,
    pub moved: bool,
}

impl Place {
    // The place once what is ahead up to `to` moved into the buffer.
    pub fn stepped_to(self, to: usize) -> Stepped
        requires { (self.count ≤ self.at) × (self.at ≤ to) }
        ensures { result ≡ record { place = record { count = self.count + (to - self.at); at = to }; moved = ltb self.at to } }
    {
        Stepped {
            place: Place {
                count: self.count + (to - self.at),
                at: to,
            },
            moved: self.at < to,
        }
    }
}
