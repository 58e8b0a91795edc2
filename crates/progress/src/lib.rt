// How far a call has come.
#![tactic(auto)]

ghost use Rattle.std.specs.Prelude.{◌||◌, ◌≡◌};

// Where the searches in its runs stand, how many pended times and corrections there are, in how many rounds keys have
// crossed, whether corrections are too large, and whether a limit was passed.
#[derive(Clone, Copy, Default)]
pub struct Progress {
    pub new: usize,
    pub pending: usize,
    pub input: usize,
    pub out: usize,
    pub pended: usize,
    pub fixes: usize,
    pub crossings: u64,
    pub large: bool,
    pub over: bool,
}

// Whether the rounds that are left can be left out: once a limit is passed or the corrections are too large, none of them can change the answer.
pub fn is_done(p: Progress) -> bool
    ensures { result ≡ (p.over || p.large) }
{
    p.over || p.large
}
