// "Retire": the rounds of a key by a collapsed replay, as the tactic does it: what is held of a key are its edits up to the moment at hand, joined with
// the meet of the moments that are left and consolidated, and the others are ahead in order of time.
#![tactic(auto)]

mod all;
mod turn;

pub use all::replay_rounds;

// How far a key's replay has come: how many edits are held of its input and of its output, where those ahead begin, whether it crossed in the last
// round, and how many corrections there are.
#[derive(Clone, Copy)]
pub struct Stage {
    pub held: usize,
    pub at: usize,
    pub output: usize,
    pub out: usize,
    pub crossed: bool,
    pub fixes: usize,
}
