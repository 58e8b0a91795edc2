// discover_times, per key.
#![tactic(auto)]

mod key;
mod loads;
mod walks;

pub use key::discover_key;

// How many moments and pended times there are.
#[derive(Clone, Copy)]
pub struct Found {
    pub moments: usize,
    pub pended: usize,
}
