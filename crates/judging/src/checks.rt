// The tests on an array's operations that come before judging, and the semaphores that it names, in one walk.
ghost use Rattle.std.specs.Prelude.{◌≡◌, cond, not, IfOk};
ghost use Rattle.model.specs.Refusal.{code_in};
ghost use Rattle.model.specs.Operation.{operations_of, is_zero};
ghost use Rattle.model.specs.Checks.{check, number_too_high, permitted};
ghost use Rattle.judging.specs.Named.{named_within};

use crate::named::number_bit;
use crate::operation::operation_of;
use model::{OPERATION_BYTES, Refusal};

// May one who reads and alters so do an operation of this amount?
fn may(amount: i16, reads: bool, alters: bool) -> bool
    ensures { result ≡ cond (is_zero amount) reads alters }
{
    if amount == 0 { reads } else { alters }
}

// The checks of the operations, in one walk: 27 for a number at or above the count, else 13 for one who may not do what they need.
// Who may read and alter needs no look at the amounts. The answer is the semaphores that the array names, as a mask.
pub fn check_array(count: u8, reads: bool, alters: bool, bytes: &[u8]) -> Result<u8, Refusal>
    ensures code_value { code_in result ≡ check (number_too_high count (operations_of bytes.now)) 27 (check (not (permitted reads alters (operations_of bytes.now))) 13 0) }
    ensures names_value { IfOk result (λ names. names ≡ named_within 0 (operations_of bytes.now)) }
{
    let both = reads & alters;
    let past = u16::from(count);
    let (pieces, _) = bytes.as_chunks::<OPERATION_BYTES>();
    let mut allowed = true;
    let mut names: u8 = 0;
    for piece in pieces {
        let operation = operation_of(piece);
        if past <= operation.number {
            return Err(Refusal::NumberTooHigh);
        }
        names |= number_bit(operation.number);
        if !both {
            allowed &= may(operation.amount, reads, alters);
        }
    }
    if allowed {
        Ok(names)
    } else {
        Err(Refusal::NotPermitted)
    }
}
