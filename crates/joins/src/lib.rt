// What a step of discover_times reads of all that remains, and the joins that it makes.
#![tactic(auto)]

mod made;
mod remaining;

pub use made::{Counts, MOST_MOMENTS, join_both, put_time, retrack};
pub use remaining::{meet_of_four, next_time};
