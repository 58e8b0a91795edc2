// "One call": the checks, then the work of the windows, then the answer.
#![tactic(auto)]

mod call;

pub use call::retire;
