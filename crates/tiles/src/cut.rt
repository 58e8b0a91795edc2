// The cuts.
ghost use Rattle.std.specs.Prelude.{◌+◌, ◌<◌, length};
ghost use Rattle.grid.specs.Frontiers.{all_inserted};
ghost use Rattle.tiles.specs.Described.{Front};

use crate::write;
use times::{PackedTime, insert_time};

// "Cut i is upper with held[i+1..] inserted, dominated times removed": of the later held times, to the front of a slice.
pub fn cut(upper: &[u64], later: &[u64], f: &mut [u64]) -> usize
    requires { length later.now + length upper.now < length f.old }
    ensures { Front (all_inserted later.now upper.now) f.new result }
{
    let mut count = write::write_all(f, 0, upper);
    for t in later.iter().rev() {
        count = insert_time(f, count, PackedTime(*t));
    }
    count
}
