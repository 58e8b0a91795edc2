// One window's turn: its keys are sought in the runs, and its rounds are settled.
#![tactic(auto)]

mod first;
mod one;

pub use one::work_window;
