// The loop over the windows of a call: where it stands, and what it comes to.
#![tactic(auto)]

ghost use Rattle.std.specs.Prelude.{◌+◌, ◌≤◌, min, ◌≡◌};
ghost use Rattle.looping.specs.Looped.{course_of};

use answers::Course;
use progress::Progress;

// Where the window of the keys from p on ends.
pub fn window_end(p: usize, width: usize, n: usize) -> usize
    requires { p ≤ n }
    ensures { result ≡ min (p + width) n }
{
    p + width.min(n - p)
}

// What is told of the windows once they are done.
pub fn course(w: Progress) -> Course
    ensures { result ≡ course_of w }
{
    Course {
        pended: w.pended,
        fixes: w.fixes,
        crossings: w.crossings,
        large: w.large,
        over: w.over,
    }
}
