// The keys of a call: which have changed, and a key's part of a lent run.
#![tactic(auto)]

mod changes;
mod parts;

pub use changes::changed_keys;
pub use parts::{key_part, span_of};

// Where a key's part of a run begins, and where it ends.
#[derive(Clone, Copy)]
pub struct Span {
    pub from: usize,
    pub to: usize,
}
