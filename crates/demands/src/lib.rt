// What a call is lent and what it leaves there: how long the work slices must be (here), how the call's answer is read in memory, and the three demands about
// it (specs/, proofs/).
#![tactic(auto)]

mod sizes;

pub use sizes::{COLUMN_SIZE, MOMENTS_SIZE, column_needed, moments_needed};
