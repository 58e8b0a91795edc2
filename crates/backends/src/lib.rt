// "Backends": what is wanted of a key's summed input, minus what is present of its output.
#![tactic(auto)]

mod correction;
mod listed;
mod mode;

pub use correction::correct;
pub use mode::{Mode, mode_of};
