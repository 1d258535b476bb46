// Judging an array on copies that are lent. Nothing goes by value, and nothing is taken back: the copies are left as they
// stand where the array ends or is decided, and the caller keeps them only if the outcome is Done.
//
// `operate` does one operation on its semaphore; `judge` goes from one to the next.
ghost use Rattle.std.specs.Prelude.{◌≡◌, ℕ, ◌≤◌, length};
ghost use Rattle.model.specs.Operation.{operations_of};
ghost use Rattle.model.specs.Judge.{judged, step};
ghost use Rattle.judging.specs.Walk.{stopped as stopped_by, walk_from};

use crate::amount::{is_negative, next_adjustment, next_value};
use crate::operation::{IPC_NOWAIT, SEM_UNDO, has, operation_of};
use model::{Copies, Halt, OPERATION_BYTES, Operation, Outcome, SEMAPHORES};

// The outcome, and the position of the operation that decided. A done array has one too, the number of operations: so the promise
// of `judge` has it, by `judged` of the model.
#[derive(Clone, Copy)]
pub struct Verdict {
    pub outcome: Outcome,
    pub position: usize,
}

// What an operation comes to that stops.
fn stopped(flags: u16) -> Outcome
    ensures { result ≡ stopped_by flags }
{
    if has(flags, IPC_NOWAIT) {
        Outcome::Again
    } else {
        Outcome::Sleep
    }
}

// An operation whose number no semaphore has: value and adjustment read as 0, every amount from 0 on fits both, and nothing is
// stored.
fn unheld(copies: &Copies, operation: Operation) -> Outcome
    requires values_too { length copies.now.values ≤ operation.number }
    requires adjustments_too { length copies.now.adjustments ≤ operation.number }
    ensures { (i : ℕ) → judged result i copies.now ≡ step copies.now operation i }
{
    if is_negative(operation.amount) {
        stopped(operation.flags)
    } else {
        Outcome::Done
    }
}

// One operation: it changes the numbers of its semaphore only if it goes through.
fn operate(copies: &mut Copies, operation: Operation) -> Outcome
    ensures { (i : ℕ) → judged result i copies.new ≡ step copies.old operation i }
{
    let number = operation.number as usize;
    let amount = operation.amount;
    if SEMAPHORES <= number {
        return unheld(copies, operation);
    }
    match next_value(copies.values[number], amount) {
        Err(Halt::Over) => Outcome::Range,
        Err(Halt::Stop) => stopped(operation.flags),
        Ok(new) => {
            if has(operation.flags, SEM_UNDO) {
                match next_adjustment(copies.adjustments[number], amount) {
                    None => return Outcome::Range,
                    Some(adjustment) => copies.adjustments[number] = adjustment,
                }
            }
            copies.values[number] = new;
            Outcome::Done
        }
    }
}

// The first operation that does not go through decides. The copies are left as the operations before it leave them.
pub fn judge(copies: &mut Copies, bytes: &[u8]) -> Verdict
    ensures { judged result.outcome result.position copies.new ≡ walk_from (operations_of bytes.now) copies.old 0 }
{
    let (pieces, _) = bytes.as_chunks::<OPERATION_BYTES>();
    for (position, piece) in pieces.iter().enumerate() {
        let operation = operation_of(piece);
        match operate(copies, operation) {
            Outcome::Done => {}
            outcome => return Verdict { outcome, position },
        }
    }
    Verdict {
        outcome: Outcome::Done,
        position: pieces.len(),
    }
}
