// One step of discover_times, per key.
#![tactic(auto)]

mod acts;
mod whole;

pub use whole::{is_over, step};
