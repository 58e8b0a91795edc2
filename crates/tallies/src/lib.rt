// What is counted of a window's keys, one after the other, and the next pending list, to which their pended times are appended.
#![tactic(auto)]

mod count;
mod next;

pub use count::{pended_count, tally_with};
pub use next::append_pended;

// How many moments of the window and how many entries of the next pending list there are so far, and whether a limit was passed, in which case
// they mean nothing.
#[derive(Clone, Copy)]
pub struct Tally {
    pub moments: usize,
    pub pended: usize,
    pub over: bool,
}
