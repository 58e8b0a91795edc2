// Key hash, value id and time, each of a type of its own, so that they cannot be swapped.
ghost use Rattle.std.specs.Prelude.{◌≡◌, max, min};
ghost use Rattle.grid.specs.Times.{hi, lo, at, join, meet, below};
ghost use Rattle.grid.specs.Frontiers.{comparable};

// How many numbers a part can be.
pub const SPAN: u64 = 4294967296;

#[derive(Clone, Copy, PartialEq, Eq, PartialOrd, Ord)]
pub struct KeyHash(pub u64);

#[derive(Clone, Copy, PartialEq, Eq, PartialOrd, Ord)]
pub struct ValueId(pub u64);

// A pair of 32-bit numbers, the first in the upper half. Ascending order is that of the numbers.
#[derive(Clone, Copy, PartialEq, Eq, PartialOrd, Ord)]
pub struct PackedTime(pub u64);

impl PackedTime {
    pub const LEAST: PackedTime = PackedTime(0);

    pub fn new(a: u32, b: u32) -> PackedTime
        ensures { result.0 ≡ at a b }
    {
        PackedTime((a as u64) * SPAN + (b as u64))
    }

    pub fn hi(self) -> u32
        ensures { result ≡ hi self.0 }
    {
        (self.0 / SPAN) as u32
    }

    pub fn lo(self) -> u32
        ensures { result ≡ lo self.0 }
    {
        (self.0 % SPAN) as u32
    }

    pub fn join(self, other: PackedTime) -> PackedTime
        ensures { result.0 ≡ join self.0 other.0 }
    {
        PackedTime::new(self.hi().max(other.hi()), self.lo().max(other.lo()))
    }

    pub fn meet(self, other: PackedTime) -> PackedTime
        ensures { result.0 ≡ meet self.0 other.0 }
    {
        PackedTime::new(self.hi().min(other.hi()), self.lo().min(other.lo()))
    }

    // At or below, in both parts.
    pub fn below(self, other: PackedTime) -> bool
        ensures { result ≡ below self.0 other.0 }
    {
        self.hi() <= other.hi() && self.lo() <= other.lo()
    }

    pub fn comparable(self, other: PackedTime) -> bool
        ensures { result ≡ comparable self.0 other.0 }
    {
        self.below(other) || other.below(self)
    }
}
