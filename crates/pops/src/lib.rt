// The walk of discover_times: where it stands, and how all five are stepped past n.
#![tactic(auto)]

mod stepping;

use histories::Place;
pub use stepping::pop_all;
use times::PackedTime;

// The places and counts of a walk in its lent columns, and the meet of all that remained before it.
#[derive(Clone, Copy)]
pub struct Walk {
    pub seeds: Place,
    pub pending: usize,
    pub input: Place,
    pub output: Place,
    pub waiting: usize,
    pub tracked: usize,
    pub moments: usize,
    pub pended: usize,
    pub m: Option<PackedTime>,
}

// How many waiting joins and tracked times there are.
#[derive(Clone, Copy)]
pub struct Taken {
    pub waiting: usize,
    pub tracked: usize,
}

// A walk whose five histories were stepped, and whether a seed, a pending time or a waiting join moved.
#[derive(Clone, Copy)]
pub struct Popped {
    pub walk: Walk,
    pub hit: bool,
}
