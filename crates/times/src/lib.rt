// "Times and frontiers": each function equals its definition in grid's specs.
#![tactic(auto)]

mod frontier;
mod insert;
mod minimal;
mod optional;
mod time;

pub use frontier::{MOST_TIMES, fresh_frontier, is_beyond, is_frontier};
pub use insert::insert_time;
pub use minimal::minimal_times;
pub use optional::{joined, meet_of, meet_onto, meets};
pub use time::{KeyHash, PackedTime, ValueId};
