// "Retire": edits appended to a key's output, and a round's correction merged into it.
#![tactic(auto)]

mod lays;
mod merges;

pub use lays::append_edits;
pub use merges::merge_corrections;
