// A window's turn, first half: its keys' parts of the runs are found, then their moments and their pended times.
#![tactic(auto)]

mod seek;

pub use seek::seek_window;
