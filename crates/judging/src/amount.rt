// What an amount makes of a value and of an adjustment. Sums and magnitudes are taken in 32 bits, where none of them wraps:
// the magnitude of -32,768 is 32,768.
ghost use Rattle.std.specs.Prelude.{◌≡◌, pos, ◌+ℤ◌};
ghost use Rattle.model.specs.Operation.{is_negative};
ghost use Rattle.model.specs.Judge.{next_value, next_adjustment};
ghost use Rattle.model.specs.Events.{cut as cut_to};

use model::{Halt, VALUE_MAX};

// The largest value, and the range of an adjustment, in 32 bits.
pub const MOST: i32 = VALUE_MAX as i32;

const LEAST: i32 = -MOST;

pub fn is_negative(amount: i16) -> bool
    ensures { result ≡ is_negative amount }
{
    amount.is_negative()
}

// The value with the amount added: below 0 if the value is smaller than the magnitude of an amount below 0.
pub fn moved(value: u16, amount: i16) -> i32
    ensures { result ≡ pos value +ℤ amount }
{
    let old = value as i32;
    let needed = 0 - (amount as i32);
    old - needed
}

// The value with the amount added, or why there is none. The common case is one test of the range. A value above it can only
// be lowered. An amount of 0 is told apart first, so that the others wait for no choice.
pub fn next_value(value: u16, amount: i16) -> Result<u16, Halt>
    ensures { result ≡ next_value value amount }
{
    if amount == 0 {
        if value == 0 {
            return Ok(0);
        }
        return Err(Halt::Stop);
    }
    let new = moved(value, amount);
    if 0 <= new && new <= MOST {
        Ok(new as u16)
    } else if new < 0 {
        Err(Halt::Stop)
    } else if 0 < amount {
        Err(Halt::Over)
    } else {
        Ok(new as u16)
    }
}

// The adjustment with the amount subtracted, if it is in range.
pub fn next_adjustment(adjustment: i16, amount: i16) -> Option<i16>
    ensures { result ≡ next_adjustment adjustment amount }
{
    let new = (adjustment as i32) - (amount as i32);
    if LEAST <= new && new <= MOST {
        Some(new as i16)
    } else {
        None
    }
}

// The value with the adjustment added, cut to 0 to 32,767.
pub fn cut(value: u16, adjustment: i16) -> u16
    ensures { result ≡ cut_to value adjustment }
{
    let sum = (value as i32) + (adjustment as i32);
    sum.clamp(0, MOST) as u16
}
