// What answering a call asks and leaves: of every call, and of a call of few records, which is tried in less memory first.
#![tactic(auto)]

ghost use Rattle.std.specs.Prelude.{true, false, ◌≡◌};
ghost use Rattle.concluding.specs.Answered.{Few};

use backends::Mode;

// Whether a call has so few records that it is tried in less memory. A count makes two corrections at most moments, of which there are at least as
// many as new times.
pub fn is_few(mode: Mode, new: usize, pending: usize, input: usize, out: usize) -> bool
    ensures { result ≡ true → Few new pending input out }
{
    new <= 64
        && pending <= 64
        && input <= 128
        && out <= 64
        && (mode == Mode::Distinct || new + pending <= 32)
}
