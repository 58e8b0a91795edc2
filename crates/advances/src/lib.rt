// Buffers of discover_times advanced by the meet. In a chain of times all that was replayed is one entry after each step, so that a buffer has at most
// two when it is advanced: these need no sort. Of edits those that were advanced before are in order still, and a few that were stepped since follow:
// these are put in where they belong. What work slices hold afterwards is not said.
#![tactic(auto)]

mod buffer;
mod few;
mod put;

pub use buffer::{advance_edits, advance_in_place, consolidate_front};
pub use few::advance_times;
