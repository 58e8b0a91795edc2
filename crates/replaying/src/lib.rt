// "Retire": the rounds of a window's keys by a collapsed replay, key by key: each is loaded, and then all is ahead.
#![tactic(auto)]

mod key;
mod window;

pub use window::settle_replayed;
