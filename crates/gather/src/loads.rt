// A key before its first round.
ghost use Rattle.moments.specs.Present.{edits};
ghost use Rattle.gather.specs.Loads.{LoadsKey, LoadedKey};

use crate::Loaded;
use crate::meets::meets_back;
use edits::load_edits;
use times::PackedTime;

// Takes the meets of the key's moments, and loads its input and its output, joined with the meet of all of them.
pub fn load_key(
    moments: &[u64],
    values: &[u64],
    times: &[u64],
    diffs: &[i64],
    outvalues: &[u64],
    outtimes: &[u64],
    outdiffs: &[i64],
    far: &mut [u64],
    xv: &mut [u64],
    xt: &mut [u64],
    xd: &mut [i64],
    sv: &mut [u64],
    st: &mut [u64],
    sd: &mut [i64],
    joined: &mut [u64],
    places: &mut [u64],
) -> Loaded
    requires { LoadsKey moments.now values.now times.now diffs.now outvalues.now outtimes.now outdiffs.now far.old xv.old xt.old xd.old sv.old st.old sd.old joined.old places.old }
    ensures { LoadedKey moments.now (edits values.now times.now diffs.now) (edits outvalues.now outtimes.now outdiffs.now) far.new (edits xv.new xt.new xd.new) (edits sv.new st.new sd.new) result }
{
    meets_back(moments, far);
    let m = PackedTime(far[0]);
    let input = load_edits(Some(m), times, values, diffs, joined, places, xt, xv, xd);
    let output = load_edits(
        Some(m),
        outtimes,
        outvalues,
        outdiffs,
        joined,
        places,
        st,
        sv,
        sd,
    );
    Loaded { input, output }
}
