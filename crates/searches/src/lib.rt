// The parts of a window's keys in the runs of a call.
#![tactic(auto)]

ghost use Rattle.std.specs.Prelude.{length};
ghost use Rattle.searches.specs.Searched.{Searched, SearchRoom};

use keys::span_of;
use times::KeyHash;

// Where the searches in each of the runs of a call stand.
#[derive(Clone, Copy)]
pub struct Places {
    pub new: usize,
    pub pending: usize,
    pub input: usize,
    pub out: usize,
}

// Writes where each key's part of a run begins and ends. The keys ascend, so that one pass over the run serves all windows: it starts where the
// window before has ended, and says where it ends.
fn spans_of(keys: &[u64], run: &[u64], start: usize, from: &mut [usize], to: &mut [usize]) -> usize
    requires { SearchRoom (length keys.now) from.old to.old }
    ensures { Searched run.now start keys.now from.old to.old from.new to.new result }
{
    let mut at = start;
    for (b, key) in keys.iter().enumerate() {
        let s = span_of(run, at, KeyHash(*key));
        from[b] = s.from;
        to[b] = s.to;
        at = s.to;
    }
    at
}

// Finds the parts of a window's keys in the four runs of a call.
pub fn search_window(
    keys: &[u64],
    newkeys: &[u64],
    pendingkeys: &[u64],
    inkeys: &[u64],
    outkeys: &[u64],
    nfrom: &mut [usize],
    nto: &mut [usize],
    pfrom: &mut [usize],
    pto: &mut [usize],
    ifrom: &mut [usize],
    ito: &mut [usize],
    ofrom: &mut [usize],
    oto: &mut [usize],
    p: Places,
) -> Places
    requires { SearchRoom (length keys.now) nfrom.old nto.old × (SearchRoom (length keys.now) pfrom.old pto.old × (SearchRoom (length keys.now) ifrom.old ito.old × SearchRoom (length keys.now) ofrom.old oto.old)) }
    ensures { Searched newkeys.now p.new keys.now nfrom.old nto.old nfrom.new nto.new result.new × (Searched pendingkeys.now p.pending keys.now pfrom.old pto.old pfrom.new pto.new result.pending × (Searched inkeys.now p.input keys.now ifrom.old ito.old ifrom.new ito.new result.input × Searched outkeys.now p.out keys.now ofrom.old oto.old ofrom.new oto.new result.out)) }
{
    let new = spans_of(keys, newkeys, p.new, nfrom, nto);
    let pending = spans_of(keys, pendingkeys, p.pending, pfrom, pto);
    let input = spans_of(keys, inkeys, p.input, ifrom, ito);
    let out = spans_of(keys, outkeys, p.out, ofrom, oto);
    Places {
        new,
        pending,
        input,
        out,
    }
}
