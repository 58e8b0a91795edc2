// Result memory: where the four columns of corrections, the two of pending entries, the tiles and the frontier start.
pub const FIX_TILES: usize = 0;

pub const FIX_KEYS: usize = 4096;

pub const FIX_VALUES: usize = 8192;

pub const FIX_TIMES: usize = 12288;

pub const PENDING_KEYS: usize = 16384;

pub const PENDING_TIMES: usize = 20480;

pub const TILES: usize = 24576;

pub const FRONTIER: usize = 25616;

// How many numbers and how many diffs it has.
pub const NUMBERS_SIZE: usize = 25632;

pub const DIFFS_SIZE: usize = 4096;
