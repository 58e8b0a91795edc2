// "Retire": a key's round once what is seen of it is known: its correction, as records beside those so far.
#![tactic(auto)]

mod appends;
mod moment;
mod ranges;

pub use moment::settle_moment;

// Some correction is out of range, or there are more than there is room for.
#[derive(Clone, Copy)]
pub struct TooLarge;

// How many entries the correction of one round has, and how many corrections there are with it.
#[derive(Clone, Copy)]
pub struct Fixed {
    pub count: usize,
    pub fixes: usize,
}
