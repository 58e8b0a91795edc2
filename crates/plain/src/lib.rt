// "Retire": the rounds of a window's keys by plain sums, key by key.
#![tactic(auto)]

mod back;
mod key;
mod round;
mod window;

pub use window::settle_plainly;

// What a round leaves: how many edits the key's output has, whether the key crossed, and how many corrections there are.
#[derive(Clone, Copy)]
pub struct Turn {
    pub output: usize,
    pub crossed: bool,
    pub fixes: usize,
}
