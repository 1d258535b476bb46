// What signed 32-bit numbers stand for: an identifier for a set, and a value for the sixteen bits of a semaphore.
ghost use Rattle.std.specs.Prelude.{◌≡◌};
ghost use Rattle.model.specs.Checks.{slot_of, in_range};
ghost use Rattle.judging.specs.Value.{value_of};

use crate::amount::MOST;
use model::SETS;

// The slot in an identifier.
pub fn slot_of(identifier: i32) -> usize
    ensures { result ≡ slot_of identifier }
{
    match usize::try_from(identifier) {
        Ok(identifier) => identifier % SETS,
        Err(_) => 0,
    }
}

// Is a value 0 to 32,767?
pub fn in_range(value: i32) -> bool
    ensures { result ≡ in_range value }
{
    (0..=MOST).contains(&value)
}

// A value in range as a semaphore holds it; 0 for any other.
pub fn value_of(value: i32) -> u16
    ensures { result ≡ value_of value }
{
    if in_range(value) { value as u16 } else { 0 }
}
