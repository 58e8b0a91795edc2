// A key's view by reference, and discover_times through it.
#![tactic(auto)]

mod key;

pub use key::{KeyView, discover_through, discover_view, key_view, seed_count};
