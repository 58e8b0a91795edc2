// The results of a call, written to result memory at published places; and memory cleared.
#![tactic(auto)]

mod fixes;
mod others;
mod worked;

pub use others::{publish_nothing, publish_quiet};
pub use placing::{
    DIFFS_SIZE, FIX_KEYS, FIX_TILES, FIX_TIMES, FIX_VALUES, FRONTIER, NUMBERS_SIZE, PENDING_KEYS,
    PENDING_TIMES, TILES, clear_work,
};
pub use worked::{Counts, Scratch, publish};
