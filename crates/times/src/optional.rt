// "A meet may be absent; each use takes the present case and otherwise goes on unchanged."
ghost use Rattle.std.specs.Prelude.{◌≡◌};
ghost use Rattle.std.proofs.Math.Option.{none};
ghost use Rattle.grid.specs.Times.{joined, meet_onto, meets};
ghost use Rattle.times.specs.Meets.{optional};

use crate::time::PackedTime;

// t joined with the meet, if there is one.
pub fn joined(m: Option<PackedTime>, t: PackedTime) -> PackedTime
    ensures { result.0 ≡ joined (optional m) t.0 }
{
    match m {
        Some(p) => p.join(t),
        None => t,
    }
}

// The meet of t and the meet, if there is one.
pub fn meet_onto(t: PackedTime, m: Option<PackedTime>) -> PackedTime
    ensures { result.0 ≡ meet_onto t.0 (optional m) }
{
    match m {
        Some(p) => t.meet(p),
        None => t,
    }
}

// The meet of a list of times and the meet, if there is one.
pub fn meets(ts: &[u64], m: Option<PackedTime>) -> Option<PackedTime>
    ensures { optional result ≡ meets ts.now (optional m) }
{
    let mut found = m;
    for t in ts.iter().rev() {
        found = Some(meet_onto(PackedTime(*t), found));
    }
    found
}

// The meet of a list of times, absent if there are none.
pub fn meet_of(ts: &[u64]) -> Option<PackedTime>
    ensures { optional result ≡ meets ts.now none }
{
    meets(ts, None)
}
