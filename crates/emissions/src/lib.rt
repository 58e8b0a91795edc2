// What a step of bilinear_wave is made of: the head comparison, the other's buffer advanced, and the pairs of an edit with it, appended to four
// columns.
#![tactic(auto)]

mod advance;
mod columns;
mod emit;
mod head;

pub use advance::advance_beside;
pub use columns::clear_columns;
pub use emit::emit_pairs;
pub use head::{Stand, first_steps, goes_on, head_first};

// At most so many edits a side, and so many emissions.
pub const MOST_EDITS: usize = 1024;

pub const MOST_EMISSIONS: usize = 4096;
