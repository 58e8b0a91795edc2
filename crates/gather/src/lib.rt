// "Retire": a key's edits in a replay: loaded by time, and gathered up to a moment into what is held, which is collapsed by the meet of the moments that
// are left.
#![tactic(auto)]

mod gathering;
mod loads;
mod meets;

pub use gathering::{append_dated, gather_from, gather_within};
pub use loads::load_key;

// How many edits are held, and where those begin that are ahead.
#[derive(Clone, Copy)]
pub struct Held {
    pub count: usize,
    pub at: usize,
}

// How many edits of a key's input and of its output are loaded.
#[derive(Clone, Copy)]
pub struct Loaded {
    pub input: usize,
    pub output: usize,
}
