// "tile_descriptions": the interval from lower to upper, cut along the held times; and the tile of a correction.
#![tactic(auto)]

mod cut;
mod describe;
mod place;
mod tile;
mod write;

pub use describe::{TILES_SIZE, tile_descriptions};
pub use place::tile_of;
pub use tile::TILE_SIZE;
pub use write::MOST_BOUND;
