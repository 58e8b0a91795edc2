// The answer of a call: which it is, and result memory with it.
#![tactic(auto)]

mod others;
mod worked;

pub use others::{say_nothing, say_quiet};
use requests::Status;
pub use worked::conclude;

// What a call says beside what it writes.
#[derive(Clone, Copy)]
pub struct Outcome {
    pub status: Status,
    pub crossings: u64,
    pub tiles: usize,
    pub fixes: usize,
    pub pending: usize,
    pub frontier: usize,
}

// What the windows of a call gave: how many pended times and corrections, in how many rounds keys crossed, whether corrections were too large,
// and whether a limit was passed.
#[derive(Clone, Copy)]
pub struct Course {
    pub pended: usize,
    pub fixes: usize,
    pub crossings: u64,
    pub large: bool,
    pub over: bool,
}
