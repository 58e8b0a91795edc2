// The least head, and the meet of what is ahead.
ghost use Rattle.std.specs.Prelude.{◌++◌, ◌≡◌, take, drop};
ghost use Rattle.std.proofs.Math.Option.{none};
ghost use Rattle.grid.specs.Times.{meets};
ghost use Rattle.times.specs.Meets.{optional};
ghost use Rattle.rules.specs.Discover.{lesser, least};
ghost use Rattle.histories.specs.Suffixes.{Suffixes};
ghost use Rattle.joins.specs.Heads.{head_with};

use times::{PackedTime, meet_onto};

// The lesser of t and another time, if there is one.
fn lesser(t: PackedTime, o: Option<PackedTime>) -> PackedTime
    ensures { result.0 ≡ lesser t.0 (optional o) }
{
    match o {
        Some(u) => if u < t { u } else { t },
        None => t,
    }
}

// The lesser of the next time and another, where they are there.
fn head_with(times: &[u64], at: usize, o: Option<PackedTime>) -> Option<PackedTime>
    ensures { optional result ≡ head_with (drop at times.now) (optional o) }
{
    if at < times.len() {
        Some(lesser(PackedTime(times[at]), o))
    } else {
        o
    }
}

// The least head of seeds, pending, input, output and waiting joins, absent if nothing remains.
pub fn next_time(
    seeds: &[u64],
    sat: usize,
    pending: &[u64],
    pat: usize,
    input: &[u64],
    iat: usize,
    output: &[u64],
    oat: usize,
    waiting: &[u64],
) -> Option<PackedTime>
    ensures { optional result ≡ least (take 1 (drop sat seeds.now) ++ (take 1 (drop pat pending.now) ++ (take 1 (drop iat input.now) ++ (take 1 (drop oat output.now) ++ take 1 waiting.now)))) }
{
    let a = head_with(waiting, 0, None);
    let b = head_with(output, oat, a);
    let c = head_with(input, iat, b);
    let d = head_with(pending, pat, c);
    head_with(seeds, sat, d)
}

// The meet of what is ahead and another, where they are there.
fn meet_with(
    times: &[u64],
    suffixes: &[u64],
    at: usize,
    o: Option<PackedTime>,
) -> Option<PackedTime>
    requires { Suffixes times.now suffixes.now at }
    ensures { optional result ≡ meets (drop at times.now) (optional o) }
{
    if at < times.len() {
        Some(meet_onto(PackedTime(suffixes[at]), o))
    } else {
        o
    }
}

// The meet of what is ahead in the four histories, absent if nothing is. Waiting joins are met with it once those of this step are made.
pub fn meet_of_four(
    seeds: &[u64],
    seedm: &[u64],
    sat: usize,
    pending: &[u64],
    pendm: &[u64],
    pat: usize,
    input: &[u64],
    inputm: &[u64],
    iat: usize,
    output: &[u64],
    outputm: &[u64],
    oat: usize,
) -> Option<PackedTime>
    requires { Suffixes seeds.now seedm.now sat × (Suffixes pending.now pendm.now pat × (Suffixes input.now inputm.now iat × Suffixes output.now outputm.now oat)) }
    ensures { optional result ≡ meets (drop sat seeds.now ++ (drop pat pending.now ++ (drop iat input.now ++ drop oat output.now))) none }
{
    let a = meet_with(output, outputm, oat, None);
    let b = meet_with(input, inputm, iat, a);
    let c = meet_with(pending, pendm, pat, b);
    meet_with(seeds, seedm, sat, c)
}
