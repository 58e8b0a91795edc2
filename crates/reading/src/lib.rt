// Reading a whole request into lent columns.
#![tactic(auto)]

ghost use Rattle.std.specs.Prelude.{ℕ, ◌≤◌, ◌<◌, ◌≡◌, drop, length, IfSome, IfOk};
ghost use Rattle.grid.specs.Frontiers.{most_times};
ghost use Rattle.rules.specs.Call.{Request as AnyRequest};
ghost use Rattle.form.specs.Text.{ascii};
ghost use Rattle.form.specs.Read.{word, number, max64, times, list, mode, line, ended, request, parse};
ghost use Rattle.reading.specs.Told.{told_times, told_head, FewTimes, told_end, Few, LineAfter, Room, found_of, Looked, FrontRead, RequestRead};

use records::{Entry, Lines};

// The most bytes of a request, and the most times of a list.
const MOST_BYTES: usize = 65536;

const MOST_TIMES: usize = 16;

// The number of the first bad or missing line, counted from 1; 0 stands for more bytes than a request may have.
#[derive(Clone, Copy, Debug, PartialEq, Eq)]
pub struct BadLine(pub u64);

// How many times each list has, and how many lines each section.
#[derive(Clone, Copy, Debug, Default, PartialEq, Eq)]
pub struct Counts {
    pub lower: usize,
    pub upper: usize,
    pub held: usize,
    pub old: usize,
    pub new: usize,
    pub out: usize,
    pub pending: usize,
}

// What was asked, apart from what stands in the columns.
#[derive(Clone, Copy, Debug, Default, PartialEq, Eq)]
pub struct Request {
    pub mode: u64,
    pub width: u64,
    pub counts: Counts,
}

// The first five lines: mode, width, and how many times each list has.
#[derive(Clone, Copy)]
struct Head {
    mode: u64,
    width: u64,
    lower: usize,
    upper: usize,
    held: usize,
}

// A request, and where its lines of records stand.
#[derive(Clone, Copy, Default)]
struct Found {
    request: Request,
    lines: Lines,
}

// What is wanted of a key, as the line says it: 1 for count, 2 for distinct.
#[derive(Clone, Copy)]
struct Mode(u64);

#[derive(Clone, Copy)]
struct Width(u64);

impl Entry for Mode {
    ghost Value = { ℕ };

    ghost value = { λ m. m.0 };

    ghost reads = { mode };

    #[tactic(auto, unfolding(form::specs::Read::mode))]
    fn read(s: &[u8], at: usize) -> Option<(Mode, usize)> {
        if let Some(next) = scan::read_word(s, at, b"count") {
            Some((Mode(1), next))
        } else {
            let next = scan::read_word(s, at, b"distinct")?;
            Some((Mode(2), next))
        }
    }
}

impl Entry for Width {
    ghost Value = { ℕ };

    ghost value = { λ w. w.0 };

    ghost reads = { number max64 };

    fn read(s: &[u8], at: usize) -> Option<(Width, usize)> {
        let (width, next) = scan::read_number(s, at, u64::MAX)?;
        Some((Width(width), next))
    }
}

// One to 16 times joined by ";" into out: how many they are, and the place after them.
fn read_times(s: &[u8], from: usize, out: &mut [u64]) -> Option<(usize, usize)>
    requires { 16 ≤ length out.old }
    ensures told { told_times s.now out.new result ≡ times most_times (drop from s.now) }
    ensures few { IfSome result (λ x. x.0 ≤ most_times) }
{
    let mut at = from;
    for k in 0..MOST_TIMES {
        let (time, end) = scan::read_time(s, at)?;
        out[k] = time.0;
        let Some(next) = scan::read_mark(s, end, b';') else {
            return Some((k + 1, end));
        };
        at = next;
    }
    None
}

// A list of times into out.
#[tactic(auto, unfolding(form::specs::Read::list))]
fn read_list(s: &[u8], at: usize, out: &mut [u64]) -> Option<(usize, usize)>
    requires { 16 ≤ length out.old }
    ensures told { told_times s.now out.new result ≡ list (drop at s.now) }
    ensures few { IfSome result (λ x. x.0 ≤ most_times) }
{
    if let Some(next) = scan::read_mark(s, at, b'-') {
        Some((0, next))
    } else {
        read_times(s, at, out)
    }
}

// A line with a list. It is no Entry, since the list goes into lent memory.
#[tactic(auto, unfolding(form::specs::Read::line, form::specs::Read::ending))]
fn list_line(s: &[u8], at: usize, name: &[u8], out: &mut [u64]) -> Option<(usize, usize)>
    requires { 16 ≤ length out.old }
    ensures told { told_times s.now out.new result ≡ line name.now list (drop at s.now) }
    ensures few { IfSome result (λ x. x.0 ≤ most_times) }
{
    let start = scan::read_word(s, at, name)?;
    let (count, end) = read_list(s, start, out)?;
    let next = scan::read_mark(s, end, b'\n')?;
    Some((count, next))
}

// The first five lines, and the place after them.
#[tactic(auto, unfolding(form::specs::Read::request))]
fn read_head(
    s: &[u8],
    lower: &mut [u64],
    upper: &mut [u64],
    held: &mut [u64],
) -> Result<(Head, usize), BadLine>
    requires room_lower { 16 ≤ length lower.old }
    requires room_upper { 16 ≤ length upper.old }
    requires room_held { 16 ≤ length held.old }
    ensures told { told_head s.now lower.new upper.new held.new result ≡ request s.now }
    ensures few { IfOk result (λ x. FewTimes x.0.lower x.0.upper x.0.held) }
{
    let (mode, a) = records::read_line::<Mode>(s, 0, b"mode=").ok_or(BadLine(1))?;
    let (width, b) = records::read_line::<Width>(s, a, b"width=").ok_or(BadLine(2))?;
    let (lower, c) = list_line(s, b, b"lower=", lower).ok_or(BadLine(3))?;
    let (upper, d) = list_line(s, c, b"upper=", upper).ok_or(BadLine(4))?;
    let (held, next) = list_line(s, d, b"held=", held).ok_or(BadLine(5))?;
    let head = Head {
        mode: mode.0,
        width: width.0,
        lower,
        upper,
        held,
    };
    Ok((head, next))
}

// The line n is the last, and nothing follows.
#[tactic(auto, unfolding(form::specs::Read::ended))]
fn read_end(s: &[u8], at: usize, n: u64) -> Result<(), BadLine>
    requires { n < 4294967296 }
    ensures { (q : AnyRequest) → told_end q result ≡ ended n q (word (ascii "end=\n") (drop at s.now)) }
{
    let end = scan::read_word(s, at, b"end=\n").ok_or(BadLine(n))?;
    if end < s.len() {
        Err(BadLine(n + 1))
    } else {
        Ok(())
    }
}

// The number of the line after the sections.
fn line_after(x: Lines) -> u64
    requires { Few x.old.count x.new.count x.out.count x.pending.count }
    ensures { LineAfter x.old.count x.new.count x.out.count x.pending.count result }
{
    6 + x.old.count as u64 + x.new.count as u64 + x.out.count as u64 + x.pending.count as u64
}

// The whole request: the three lists into the front of their slices, and where the other lines stand.
fn look(s: &[u8], lower: &mut [u64], upper: &mut [u64], held: &mut [u64]) -> Result<Found, BadLine>
    requires room_lower { 16 ≤ length lower.old }
    requires room_upper { 16 ≤ length upper.old }
    requires room_held { 16 ≤ length held.old }
    ensures { Looked s.now (parse s.now) lower.new upper.new held.new result }
{
    if s.len() > MOST_BYTES {
        return Err(BadLine(0));
    }
    let (head, at) = read_head(s, lower, upper, held)?;
    let lines = records::find_sections(s, at);
    read_end(s, lines.pending.next, line_after(lines))?;
    let counts = Counts {
        lower: head.lower,
        upper: head.upper,
        held: head.held,
        old: lines.old.count,
        new: lines.new.count,
        out: lines.out.count,
        pending: lines.pending.count,
    };
    let request = Request {
        mode: head.mode,
        width: head.width,
        counts,
    };
    Ok(Found { request, lines })
}

// What was found, and nothing of each kind after a refusal.
fn found_or_nothing(found: Result<Found, BadLine>) -> Found
    ensures { result ≡ found_of found }
{
    found.unwrap_or_default()
}

// The same as look, with zeros past the lists, and nothing but zeros after a refusal.
fn read_front(
    s: &[u8],
    lower: &mut [u64],
    upper: &mut [u64],
    held: &mut [u64],
) -> Result<Found, BadLine>
    requires room_lower { 16 ≤ length lower.old }
    requires room_upper { 16 ≤ length upper.old }
    requires room_held { 16 ≤ length held.old }
    ensures { FrontRead s.now (parse s.now) lower.old upper.old held.old lower.new upper.new held.new result }
{
    let found = look(s, lower, upper, held);
    let counts = found_or_nothing(found).request.counts;
    slices::clear_from(lower, counts.lower);
    slices::clear_from(upper, counts.upper);
    slices::clear_from(held, counts.held);
    found
}

// The request into the columns, which are zero past it, and all zero after a refusal.
pub fn read_request(
    s: &[u8],
    lower: &mut [u64],
    upper: &mut [u64],
    held: &mut [u64],
    old_keys: &mut [u64],
    old_values: &mut [u64],
    old_times: &mut [u64],
    old_diffs: &mut [i64],
    new_keys: &mut [u64],
    new_values: &mut [u64],
    new_times: &mut [u64],
    new_diffs: &mut [i64],
    out_keys: &mut [u64],
    out_values: &mut [u64],
    out_times: &mut [u64],
    out_diffs: &mut [i64],
    pending_keys: &mut [u64],
    pending_times: &mut [u64],
) -> Result<Request, BadLine>
    requires { Room lower.old upper.old held.old old_keys.old old_values.old old_times.old old_diffs.old new_keys.old new_values.old new_times.old new_diffs.old out_keys.old out_values.old out_times.old out_diffs.old pending_keys.old pending_times.old }
    ensures { RequestRead (parse s.now) lower.old upper.old held.old old_keys.old old_values.old old_times.old old_diffs.old new_keys.old new_values.old new_times.old new_diffs.old out_keys.old out_values.old out_times.old out_diffs.old pending_keys.old pending_times.old lower.new upper.new held.new old_keys.new old_values.new old_times.new old_diffs.new new_keys.new new_values.new new_times.new new_diffs.new out_keys.new out_values.new out_times.new out_diffs.new pending_keys.new pending_times.new result }
{
    let found = read_front(s, lower, upper, held);
    let lines = found_or_nothing(found).lines;
    records::store_rows(
        s, lines.old, b"old=", old_keys, old_values, old_times, old_diffs,
    );
    records::store_rows(
        s, lines.new, b"new=", new_keys, new_values, new_times, new_diffs,
    );
    records::store_rows(
        s, lines.out, b"out=", out_keys, out_values, out_times, out_diffs,
    );
    records::store_pairs(s, lines.pending, b"pend=", pending_keys, pending_times);
    Ok(found?.request)
}
