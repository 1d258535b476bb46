// Integers in decimal, as the writer of a line takes them.
ghost use Rattle.std.specs.Prelude.{◌≡◌, [], ◌∷◌, ◌++◌, ◌≤◌, length, if◌then◌else◌};
ghost use Rattle.std.specs.Fmt.{decimal};

use itoa::Integer;

// An integer that is told as its sign and its magnitude, whose digits can then be written in place.
pub trait Number: Integer {
    // Is it below zero, and its magnitude.
    fn parts(self) -> (bool, u64)
        ensures text { Self.text self ≡ (if result.0 then 45 ∷ [] else []) ++ decimal result.1 }
        ensures short { length (Self.text self) ≤ Self.MAX_STR_LEN };
}

impl Number for u8 {
    fn parts(self) -> (bool, u64) {
        (false, self as u64)
    }
}

impl Number for u16 {
    fn parts(self) -> (bool, u64) {
        (false, self as u64)
    }
}

impl Number for u32 {
    fn parts(self) -> (bool, u64) {
        (false, self as u64)
    }
}

impl Number for usize {
    fn parts(self) -> (bool, u64) {
        (false, self as u64)
    }
}

impl Number for i32 {
    fn parts(self) -> (bool, u64) {
        (self < 0, self.unsigned_abs() as u64)
    }
}

// How many digits a number has.
pub fn places(n: u64) -> usize
    ensures { result ≡ length (decimal n) }
{
    if n < 10 {
        1
    } else if n < 100 {
        2
    } else if n < 1000 {
        3
    } else if n < 10000 {
        4
    } else {
        4 + places(n / 10000)
    }
}
