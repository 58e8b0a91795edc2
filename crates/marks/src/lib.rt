// "Crossings counts the rounds in which at least one key crossed": a mark for each round of a window.
#![tactic(auto)]

ghost use Rattle.std.specs.Prelude.{◌<◌, ◌≤◌, ◌^◌, ◌≡◌, length, set};
ghost use Rattle.marks.specs.Marks.{marked_at, count_of, span_from, Steps};

// Marks round j, if a key crossed in it.
pub fn mark(crossed: bool, j: usize, marks: &mut [u8])
    requires { j < length marks.old }
    ensures { marks.new ≡ marked_at crossed j marks.old }
{
    if crossed {
        marks[j] = 1;
    }
}

// How many rounds are marked.
pub fn count_marks(marks: &[u8]) -> usize
    requires { length marks.now < 2 ^ 32 }
    ensures { result ≡ count_of marks.now }
{
    marks.iter().filter(|m| **m == 1).count()
}

// How long the longest list of moments is. Each ends where `ends` tells.
pub fn longest(ends: &[usize]) -> usize
    requires { Steps 0 ends.now }
    ensures { result ≡ span_from 0 0 ends.now }
{
    let mut first = 0;
    let mut most: usize = 0;
    for end in ends {
        most = most.max(*end - first);
        first = *end;
    }
    most
}
