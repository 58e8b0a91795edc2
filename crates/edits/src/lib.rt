// ValueHistory: edits, each a time, a value and a diff, replayed in ascending order of time. A history and its buffer share three lent
// columns, as a TimeHistory and its buffer share one.
#![tactic(auto)]

mod buffer;
mod order;
mod stepping;

pub use buffer::{advance_buffer_by, load_edits};
pub use stepping::{move_edits, step, step_through, step_while_time_is};
