// Where an array stops, by the values alone: no flag is asked and no adjustment. That is enough for an array that would sleep,
// as every sleeper's would: had an earlier operation left a range, the array would have ended there.
ghost use Rattle.std.specs.Prelude.{◌≡◌, ◌%◌, is_none};
ghost use Rattle.model.specs.Limits.{semaphores};
ghost use Rattle.model.specs.Operation.{operations_of};
ghost use Rattle.judging.specs.Stop.{stop_from, goes_through, number_of, amount_of};

use crate::amount::moved;
use crate::identifier::{in_range, value_of};
use crate::operation::operation_of;
use model::{OPERATION_BYTES, SEMAPHORES};

// An operation that stops: its number within a set, and its amount.
#[derive(Clone, Copy)]
pub struct Stop {
    pub number: u16,
    pub amount: i16,
}

// The first operation that does not go through on the values that are lent, if there is one; they are left as those before it
// leave them.
pub fn stop_of(values: &mut [u16; SEMAPHORES], bytes: &[u8]) -> Option<Stop>
    ensures number_value { number_of result ≡ (stop_from (operations_of bytes.now) values.old).operation.number % semaphores }
    ensures amount_value { amount_of result ≡ (stop_from (operations_of bytes.now) values.old).operation.amount }
    ensures none_value { is_none result ≡ goes_through (operations_of bytes.now) values.old }
    ensures values_after { values.new ≡ (stop_from (operations_of bytes.now) values.old).values }
{
    let (pieces, _) = bytes.as_chunks::<OPERATION_BYTES>();
    for piece in pieces {
        let operation = operation_of(piece);
        let number = operation.number % (SEMAPHORES as u16);
        let amount = operation.amount;
        let value = values[number as usize];
        if amount == 0 {
            if value != 0 {
                return Some(Stop { number, amount });
            }
        } else {
            let new = moved(value, amount);
            if !in_range(new) {
                return Some(Stop { number, amount });
            }
            values[number as usize] = value_of(new);
        }
    }
    None
}
