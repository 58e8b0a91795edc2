// The next pending list.
ghost use Rattle.std.specs.Prelude.{length};
ghost use Rattle.tallies.specs.Appends.{Appends, NextRoom};

use times::KeyHash;

// Appends a key and each of its pended times to the next pending list, which has n entries. Says how many it has then; where these would be too
// many, nothing is written.
pub fn append_pended(
    key: KeyHash,
    pended: &[u64],
    keys: &mut [u64],
    times: &mut [u64],
    n: usize,
) -> usize
    requires { NextRoom (length keys.old) n keys.old times.old }
    ensures { Appends (length keys.old) key.0 n pended.now keys.old times.old keys.new times.new result }
{
    let end = n + pended.len();
    if end <= keys.len() {
        keys[n..end].fill(key.0);
        times[n..end].copy_from_slice(pended);
    }
    end
}
