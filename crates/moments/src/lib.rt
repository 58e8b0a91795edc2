// "Retire": what is seen of a key at a moment.
#![tactic(auto)]

mod moment;

pub use moment::present;
