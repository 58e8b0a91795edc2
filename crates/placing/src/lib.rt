// Result memory at published places: a column, the tiles, the pending list and the next frontier written to it; and memory cleared.
#![tactic(auto)]

mod clear;
mod columns;
mod lists;
mod memory;
mod place;

pub use clear::{clear_results, clear_work};
pub use columns::gather_column;
pub use lists::publish_lists;
pub use memory::{
    DIFFS_SIZE, FIX_KEYS, FIX_TILES, FIX_TIMES, FIX_VALUES, FRONTIER, NUMBERS_SIZE, PENDING_KEYS,
    PENDING_TIMES, TILES,
};
pub use place::publish_tiles;
