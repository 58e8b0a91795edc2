// Reading the lines of records: one line; where the lines of each kind stand; and the lines of a kind into lent columns.
#![tactic(auto)]

ghost use Rattle.std.specs.Prelude.{ℕ, ◌≤◌, ◌≡◌, drop, length};
ghost use Rattle.grid.specs.Records.{Row};
ghost use Rattle.form.specs.Read.{Reader, row, pair, line, many, sections};
ghost use Rattle.scan.specs.Told.{told};
ghost use Rattle.records.specs.Told.{row_of, pair_of, Counted, SectionsStand, RowsRead, PairsRead, RowsStored, PairsStored};

use times::{KeyHash, PackedTime, ValueId};

// The most lines of a kind.
const MOST_LINES: usize = 512;

// A record: an entry of each column.
#[derive(Clone, Copy)]
pub struct Record {
    pub key: KeyHash,
    pub value: ValueId,
    pub time: PackedTime,
    pub diff: i64,
}

// A key, and a time at which it is to be looked at again.
#[derive(Clone, Copy)]
pub struct Pending {
    pub key: KeyHash,
    pub time: PackedTime,
}

// The lines of one kind: the place of the first, how many there are, and the place after them.
#[derive(Clone, Copy, Default)]
pub struct Section {
    pub first: usize,
    pub count: usize,
    pub next: usize,
}

// Where the lines of each kind stand.
#[derive(Clone, Copy, Default)]
pub struct Lines {
    pub old: Section,
    pub new: Section,
    pub out: Section,
    pub pending: Section,
}

// What a line tells after its name.
pub trait Entry: Copy {
    // What `form` reads of such a line, and the value that an entry stands for.
    ghost Value: { Type 0 };

    ghost value: { Self → Value };

    ghost reads: { Reader Value };

    // The entry and the place after it.
    fn read(s: &[u8], at: usize) -> Option<(Self, usize)>
        ensures { told value s.now result ≡ reads (drop at s.now) };
}

impl Entry for Record {
    ghost Value = { Row };

    ghost value = { row_of };

    ghost reads = { row };

    #[tactic(auto, unfolding(form::specs::Read::row))]
    fn read(s: &[u8], at: usize) -> Option<(Record, usize)> {
        let (key, a) = scan::number_and(s, at, u64::MAX, b',')?;
        let (value, b) = scan::number_and(s, a, u64::MAX, b',')?;
        let (time, c) = scan::time_and(s, b, b',')?;
        let (diff, next) = scan::read_signed(s, c)?;
        let record = Record {
            key: KeyHash(key),
            value: ValueId(value),
            time,
            diff,
        };
        Some((record, next))
    }
}

impl Entry for Pending {
    ghost Value = { ℕ × ℕ };

    ghost value = { pair_of };

    ghost reads = { pair };

    #[tactic(auto, unfolding(form::specs::Read::pair))]
    fn read(s: &[u8], at: usize) -> Option<(Pending, usize)> {
        let (key, a) = scan::number_and(s, at, u64::MAX, b',')?;
        let (time, next) = scan::read_time(s, a)?;
        let pending = Pending {
            key: KeyHash(key),
            time,
        };
        Some((pending, next))
    }
}

// A whole line: its name, an entry, a line feed.
#[tactic(auto, unfolding(form::specs::Read::line, form::specs::Read::ending))]
pub fn read_line<E: Entry>(s: &[u8], at: usize, name: &[u8]) -> Option<(E, usize)>
    ensures { told E.value s.now result ≡ line name.now E.reads (drop at s.now) }
{
    let start = scan::read_word(s, at, name)?;
    let (entry, end) = E::read(s, start)?;
    let next = scan::read_mark(s, end, b'\n')?;
    Some((entry, next))
}

// As many lines of this name as there are, at most 512.
fn count_lines<E: Entry>(s: &[u8], first: usize, name: &[u8]) -> Section
    ensures { Counted s.now (line name.now E.reads) first result }
{
    let mut next = first;
    for count in 0..MOST_LINES {
        let Some((_, after)) = read_line::<E>(s, next, name) else {
            return Section { first, count, next };
        };
        next = after;
    }
    Section {
        first,
        count: MOST_LINES,
        next,
    }
}

// Where the lines of records stand.
pub fn find_sections(s: &[u8], from: usize) -> Lines
    ensures { SectionsStand s.now (sections (drop from s.now)) result }
{
    let old = count_lines::<Record>(s, from, b"old=");
    let new = count_lines::<Record>(s, old.next, b"new=");
    let out = count_lines::<Record>(s, new.next, b"out=");
    let pending = count_lines::<Pending>(s, out.next, b"pend=");
    Lines {
        old,
        new,
        out,
        pending,
    }
}

// The lines of this name from a place on, at most `most`, into the columns from their first element on.
fn read_rows(
    s: &[u8],
    from: usize,
    name: &[u8],
    most: usize,
    keys: &mut [u64],
    values: &mut [u64],
    times: &mut [u64],
    diffs: &mut [i64],
)
    requires room_keys { most ≤ length keys.old }
    requires room_values { most ≤ length values.old }
    requires room_times { most ≤ length times.old }
    requires room_diffs { most ≤ length diffs.old }
    ensures { RowsRead (many (line name.now row) most (drop from s.now)).0 keys.old values.old times.old diffs.old keys.new values.new times.new diffs.new }
{
    let mut next = from;
    for n in 0..most {
        let Some((record, after)) = read_line::<Record>(s, next, name) else {
            return;
        };
        keys[n] = record.key.0;
        values[n] = record.value.0;
        times[n] = record.time.0;
        diffs[n] = record.diff;
        next = after;
    }
}

// The same of keys and times. It stays apart from read_rows, since each lends columns of its own and one loop for both would pass a closure that writes them.
fn read_pairs(s: &[u8], from: usize, name: &[u8], most: usize, keys: &mut [u64], times: &mut [u64])
    requires room_keys { most ≤ length keys.old }
    requires room_times { most ≤ length times.old }
    ensures { PairsRead (many (line name.now pair) most (drop from s.now)).0 keys.old times.old keys.new times.new }
{
    let mut next = from;
    for n in 0..most {
        let Some((pending, after)) = read_line::<Pending>(s, next, name) else {
            return;
        };
        keys[n] = pending.key.0;
        times[n] = pending.time.0;
        next = after;
    }
}

// The lines of a section into the columns, and zeros past them.
pub fn store_rows(
    s: &[u8],
    x: Section,
    name: &[u8],
    keys: &mut [u64],
    values: &mut [u64],
    times: &mut [u64],
    diffs: &mut [i64],
)
    requires room_keys { x.count ≤ length keys.old }
    requires room_values { x.count ≤ length values.old }
    requires room_times { x.count ≤ length times.old }
    requires room_diffs { x.count ≤ length diffs.old }
    ensures { RowsStored (many (line name.now row) x.count (drop x.first s.now)).0 keys.old values.old times.old diffs.old keys.new values.new times.new diffs.new }
{
    keys.fill(0);
    values.fill(0);
    times.fill(0);
    diffs.fill(0);
    read_rows(s, x.first, name, x.count, keys, values, times, diffs);
}

// The same of a key and a time.
pub fn store_pairs(s: &[u8], x: Section, name: &[u8], keys: &mut [u64], times: &mut [u64])
    requires room_keys { x.count ≤ length keys.old }
    requires room_times { x.count ≤ length times.old }
    ensures { PairsStored (many (line name.now pair) x.count (drop x.first s.now)).0 keys.old times.old keys.new times.new }
{
    keys.fill(0);
    times.fill(0);
    read_pairs(s, x.first, name, x.count, keys, times);
}
