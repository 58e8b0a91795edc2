// "One call", its table of statuses.
ghost use Rattle.std.specs.Prelude.{◌≡◌, ◌&&◌, leb, ltb};
ghost use Rattle.requests.specs.Statuses.{number_of};

// A status, by its number. Those of the table have names. A call that does no work, and what is told of a call, take any number, as no enum would.
#[derive(Clone, Copy, PartialEq, Eq)]
pub struct Status(pub u64);

impl Status {
    pub const DONE: Status = Status(0);

    pub const QUIET: Status = Status(1);

    pub const UNCHANGED: Status = Status(2);

    pub const SHORT: Status = Status(11);

    pub const NOT_FRONTIERS: Status = Status(12);

    pub const BELOW_LOWER: Status = Status(13);

    pub const OUT_OF_ORDER: Status = Status(14);

    pub const PENDING_OUT_OF_ORDER: Status = Status(15);

    pub const MISPLACED: Status = Status(16);

    pub const NOT_HELD: Status = Status(17);

    pub const OVER_LIMIT: Status = Status(18);

    pub const TOO_LARGE: Status = Status(19);

    // Whether the call is refused before any work: 11 to 17.
    pub fn is_refusal(self) -> bool
        ensures { result ≡ (ltb 10 (number_of self) && leb (number_of self) 17) }
    {
        let n = self.number();
        Status::SHORT.0 <= n && n <= Status::NOT_HELD.0
    }

    // Its number in the table.
    pub fn number(self) -> u64
        ensures { result ≡ number_of self }
    {
        self.0
    }
}
