// A window's rounds, left out once a limit is passed or the corrections are too large.
#![tactic(auto)]

mod correct;

pub use correct::correct_window;
