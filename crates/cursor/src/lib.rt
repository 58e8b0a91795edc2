// "The replay's place is one small record, stepped in place." Loops step it by value (histories::step_while_time_is); this is the same step of a place
// that stays where it is.
#![tactic(auto)]

ghost use Rattle.std.specs.Prelude.{eqb, length};
ghost use Rattle.histories.specs.Places.{Placed, Steps};
ghost use Rattle.cursor.specs.Told.{told};

use histories::{Place, step_while_time_is};
use times::PackedTime;

// Steps times while the next equals n, and the place with them. Returns whether any moved into the buffer.
pub fn step_place<'c, 't>(c: &'c mut Place, times: &'t mut [u64], n: PackedTime) -> bool
    requires { Placed (length times.old) c.old }
    ensures { Steps (eqb n.0) times.old c.old times.new (told c.new result) }
{
    let s = step_while_time_is(times, *c, n);
    *c = s.place;
    s.moved
}
