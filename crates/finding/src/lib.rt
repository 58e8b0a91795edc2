// A window's discovery: its keys' moments and their pended times.
#![tactic(auto)]

mod all;
mod single;

pub use all::find_window;
