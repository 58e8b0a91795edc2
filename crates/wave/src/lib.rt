// bilinear_wave: two histories replayed together, each step's edit paired with the other's buffer.
#![tactic(auto)]

mod call;
mod checks;
mod loads;
mod replay;
mod stepping;

pub use call::{Refusal, bilinear_wave};
