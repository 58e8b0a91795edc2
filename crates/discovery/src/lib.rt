// discover_times as a call: total, with a refusal where there is no answer.
#![tactic(auto)]

mod call;
mod sizes;

pub use call::{Refusal, discover_times};
pub use sizes::{FOUND_SIZE, MEETS_SIZE, MOST_EDITS, MOST_RECORDS, TRACKED_SIZE};
