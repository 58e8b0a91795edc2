// Writing an answer from the result memory into a slice of bytes.
#![tactic(auto)]

ghost use Rattle.std.specs.Prelude.{◌+◌, ◌≤◌, min, true, [], ◌∷◌, ◌++◌, map, ◌≡◌, length};
ghost use Rattle.grid.specs.Lists.{flat};
ghost use Rattle.grid.specs.Records.{most_records};
ghost use Rattle.grid.specs.Frontiers.{most_times};
ghost use Rattle.rules.specs.Memory.{numbers_size};
ghost use Rattle.form.specs.Read.{the_row};
ghost use Rattle.form.specs.Show.{decimal, show_list, show_line, show_fix, show_pair, show_tile, show_results, show_answer, show_bad};
ghost use Rattle.print.specs.Put.{Put};
ghost use Rattle.writing.specs.Answered.{places, fix_at, pair_at, bound_at, tile_from, tile_at, frontier_at, standing, the_fix, Fits, sizes_fit, counts_fit, memory_fits, told, Written};

use times::{KeyHash, PackedTime, ValueId};

// How long the result memory is, and where its columns begin: the tiles of the corrections, which come first, and then these.
const NUMBERS_SIZE: usize = 25632;

const MOST_RECORDS: usize = 4096;

const FIX_KEYS: usize = 4096;

const FIX_VALUES: usize = 8192;

const FIX_TIMES: usize = 12288;

const PENDING_KEYS: usize = 16384;

const PENDING_TIMES: usize = 20480;

const TILES: usize = 24576;

const FRONTIER: usize = 25616;

const MOST_TIMES: usize = 16;

// How many numbers a tile takes: two bounds, each of a length and 31 times, and the time at which it is held.
const TILE_SIZE: usize = 65;

const MOST_BOUND: u64 = 31;

// Status, crossings, and how many tiles, corrections, pending entries and frontier times the result memory holds.
#[derive(Clone, Copy)]
pub struct Results {
    pub status: u64,
    pub crossings: u64,
    pub tiles: usize,
    pub fixes: usize,
    pub pending: usize,
    pub frontier: usize,
}

// A name, a number, a line feed.
fn put_number_line(out: &mut [u8], at: usize, name: &[u8], n: u64) -> usize
    ensures { Put (name.now ++ decimal n ++ (10 ∷ [])) out.old out.new at result }
{
    let a = print::put_word(out, at, name);
    let b = print::put_decimal(out, a, n);
    print::put_mark(out, b, b'\n')
}

// A name, a list of times, a line feed.
fn put_list_line(out: &mut [u8], at: usize, name: &[u8], ts: &[u64]) -> usize
    ensures { Put (name.now ++ show_list ts.now ++ (10 ∷ [])) out.old out.new at result }
{
    let a = print::put_word(out, at, name);
    let b = print::put_list(out, a, ts);
    print::put_mark(out, b, b'\n')
}

// A pending entry.
fn put_pending_line(out: &mut [u8], at: usize, key: KeyHash, time: PackedTime) -> usize
    ensures { Put (show_line "pend=" (show_pair (key.0, time.0))) out.old out.new at result }
{
    let a = print::put_word(out, at, b"pend=");
    let b = print::put_pair(out, a, key, time);
    print::put_mark(out, b, b'\n')
}

// A correction: the place of its tile, and a record.
fn put_fix_line(
    out: &mut [u8],
    at: usize,
    tile: u64,
    key: KeyHash,
    value: ValueId,
    time: PackedTime,
    diff: i64,
) -> usize
    ensures { Put (show_line "fix=" (show_fix (the_fix tile (the_row key.0 value.0 time.0 diff)))) out.old out.new at result }
{
    let a = print::put_word(out, at, b"fix=");
    let b = print::put_decimal(out, a, tile);
    let e = print::put_mark(out, b, b',');
    let f = print::put_row(out, e, key, value, time, diff);
    print::put_mark(out, f, b'\n')
}

// A bound of a tile, with its length before it.
fn put_bound(out: &mut [u8], at: usize, numbers: &[u64], from: usize) -> usize
    requires { from + 32 ≤ length numbers.now }
    ensures { Put (show_list (bound_at numbers.now from)) out.old out.new at result }
{
    let n = numbers[from].min(MOST_BOUND) as usize;
    let first = from + 1;
    print::put_list(out, at, &numbers[first..first + n])
}

// Both bounds of a tile, and the time at which it is held.
fn put_tile(out: &mut [u8], at: usize, numbers: &[u64], from: usize) -> usize
    requires { from + 65 ≤ length numbers.now }
    ensures { Put (show_tile (tile_from numbers.now from)) out.old out.new at result }
{
    let a = put_bound(out, at, numbers, from);
    let b = print::put_mark(out, a, b'/');
    let e = put_bound(out, b, numbers, from + 32);
    let f = print::put_mark(out, e, b'/');
    print::put_time(out, f, PackedTime(numbers[from + 64]))
}

// A tile.
fn put_tile_line(out: &mut [u8], at: usize, numbers: &[u64], from: usize) -> usize
    requires { from + 65 ≤ length numbers.now }
    ensures { Put (show_line "tile=" (show_tile (tile_from numbers.now from))) out.old out.new at result }
{
    let a = print::put_word(out, at, b"tile=");
    let b = put_tile(out, a, numbers, from);
    print::put_mark(out, b, b'\n')
}

// The first n tiles.
fn put_tiles(out: &mut [u8], from: usize, numbers: &[u64], n: usize) -> usize
    requires few { n ≤ most_times }
    requires room_numbers { numbers_size ≤ length numbers.now }
    ensures { Put (flat (λ t. show_line "tile=" (show_tile t)) (map (tile_at numbers.now) (places 0 n))) out.old out.new from result }
{
    let mut at = from;
    for i in 0..n {
        at = put_tile_line(out, at, numbers, TILES + TILE_SIZE * i);
    }
    at
}

// The first n corrections.
fn put_fixes(out: &mut [u8], from: usize, numbers: &[u64], diffs: &[i64], n: usize) -> usize
    requires few { n ≤ most_records }
    requires room_numbers { numbers_size ≤ length numbers.now }
    requires room_diffs { most_records ≤ length diffs.now }
    ensures { Put (flat (λ f. show_line "fix=" (show_fix f)) (map (fix_at numbers.now diffs.now) (places 0 n))) out.old out.new from result }
{
    let mut at = from;
    for i in 0..n {
        at = put_fix_line(
            out,
            at,
            numbers[i],
            KeyHash(numbers[FIX_KEYS + i]),
            ValueId(numbers[FIX_VALUES + i]),
            PackedTime(numbers[FIX_TIMES + i]),
            diffs[i],
        );
    }
    at
}

// The first n pending entries.
fn put_pending(out: &mut [u8], from: usize, numbers: &[u64], n: usize) -> usize
    requires few { n ≤ most_records }
    requires room_numbers { numbers_size ≤ length numbers.now }
    ensures { Put (flat (λ p. show_line "pend=" (show_pair p)) (map (pair_at numbers.now) (places 0 n))) out.old out.new from result }
{
    let mut at = from;
    for i in 0..n {
        at = put_pending_line(
            out,
            at,
            KeyHash(numbers[PENDING_KEYS + i]),
            PackedTime(numbers[PENDING_TIMES + i]),
        );
    }
    at
}

// The first n times of the frontier.
fn put_frontier(out: &mut [u8], at: usize, numbers: &[u64], n: usize) -> usize
    requires few { n ≤ most_times }
    requires room_numbers { numbers_size ≤ length numbers.now }
    ensures { Put (show_line "frontier=" (show_list (frontier_at numbers.now n))) out.old out.new at result }
{
    put_list_line(out, at, b"frontier=", &numbers[FRONTIER..FRONTIER + n])
}

// All that a worked answer has after its status.
fn put_results(out: &mut [u8], at: usize, numbers: &[u64], diffs: &[i64], a: Results) -> usize
    requires { Fits a (length numbers.now) (length diffs.now) }
    ensures { Put (show_results (standing a numbers.now diffs.now)) out.old out.new at result }
{
    let b = put_number_line(out, at, b"crossings=", a.crossings);
    let e = put_tiles(out, b, numbers, a.tiles);
    let f = put_fixes(out, e, numbers, diffs, a.fixes);
    let g = put_pending(out, f, numbers, a.pending);
    put_frontier(out, g, numbers, a.frontier)
}

// Whether so many entries are a result memory.
#[tactic(auto, unfolding(crate::specs::Answered::sizes_fit))]
fn sizes_fit(numbers: usize, diffs: usize) -> bool
    ensures { result ≡ sizes_fit numbers diffs }
{
    NUMBERS_SIZE <= numbers && MOST_RECORDS <= diffs
}

// Whether the counts are no larger than the result memory.
#[tactic(auto, unfolding(crate::specs::Answered::counts_fit))]
fn counts_fit(a: Results) -> bool
    ensures { result ≡ counts_fit a }
{
    a.tiles <= MOST_TIMES
        && a.fixes <= MOST_RECORDS
        && a.pending <= MOST_RECORDS
        && a.frontier <= MOST_TIMES
}

// Only an answer with status 0 to 2 reads the memory.
#[tactic(auto, unfolding(crate::specs::Answered::memory_fits))]
fn memory_fits(a: Results, numbers: usize, diffs: usize) -> bool
    ensures { result ≡ memory_fits a numbers diffs }
{
    a.status > 2 || sizes_fit(numbers, diffs) && counts_fit(a)
}

// The whole text.
fn put_answer(out: &mut [u8], numbers: &[u64], diffs: &[i64], a: Results) -> usize
    requires { memory_fits a (length numbers.now) (length diffs.now) ≡ true }
    ensures { Put (show_answer (standing a numbers.now diffs.now)) out.old out.new 0 result }
{
    let k = put_number_line(out, 0, b"status=", a.status);
    if a.status > 2 {
        print::put_word(out, k, b"end=\n")
    } else {
        let m = put_results(out, k, numbers, diffs, a);
        print::put_word(out, m, b"end=\n")
    }
}

// How many bytes the text has, if it has room.
fn text_of(n: usize, most: usize) -> Option<usize>
    ensures { result ≡ told n most }
{
    if n <= most { Some(n) } else { None }
}

// The text of the answer that stands in the result memory: how many bytes it has. If it has no room, its front part is written; if the memory is
// none of an answer, nothing.
pub fn write_answer(out: &mut [u8], numbers: &[u64], diffs: &[i64], a: Results) -> Option<usize>
    ensures { Written (memory_fits a (length numbers.now) (length diffs.now)) (show_answer (standing a numbers.now diffs.now)) out.old out.new result }
{
    if memory_fits(a, numbers.len(), diffs.len()) {
        let n = put_answer(out, numbers, diffs, a);
        text_of(n, out.len())
    } else {
        None
    }
}

// The text of a bad line's number, without a test of the room.
fn put_bad(out: &mut [u8], line: u64) -> usize
    ensures { Put (show_bad line) out.old out.new 0 result }
{
    let a = put_number_line(out, 0, b"status=", 20);
    let b = put_number_line(out, a, b"line=", line);
    print::put_word(out, b, b"end=\n")
}

// The text of a bad line's number: how many bytes it has. If it has no room, its front part is written.
pub fn write_bad(out: &mut [u8], line: u64) -> Option<usize>
    ensures { Written true (show_bad line) out.old out.new result }
{
    let n = put_bad(out, line);
    text_of(n, out.len())
}
