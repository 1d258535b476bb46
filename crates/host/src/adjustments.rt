// The undo adjustments: one for each process and semaphore, by process, slot and number.
ghost use Rattle.std.specs.Prelude.{◌≡◌, ◌+◌, ◌≤◌, MatchOption, pos, slice_set};
ghost use Rattle.std.proofs.lemmas.List.Edits.{sets};
ghost use Rattle.model.specs.Limits.{semaphores, all_adjustments};
ghost use Rattle.host.specs.Rows.{from, undo_at};

use crate::sleepers::entry_of;
use model::{ALL_ADJUSTMENTS, ALL_SEMAPHORES, PROCESSES, SEMAPHORES, SETS};
use std::array;

// Where the adjustments of a process for a slot begin; nowhere for no process or no slot.
fn start_of(process: u8, slot: usize) -> Option<usize>
    ensures { MatchOption result (undo_at process slot ≡ all_adjustments) (λ start. (start ≡ undo_at process slot) × (start + semaphores ≤ all_adjustments)) }
{
    let i = entry_of(process);
    if i < PROCESSES && slot < SETS {
        Some(i * ALL_SEMAPHORES + slot * SEMAPHORES)
    } else {
        None
    }
}

// The adjustments of a process for a slot.
pub fn adjustments_of(
    adjustments: &[i16; ALL_ADJUSTMENTS],
    process: u8,
    slot: usize,
) -> [i16; SEMAPHORES]
    ensures { result ≡ from (pos 0) semaphores (undo_at process slot) adjustments.now }
{
    let Some(start) = start_of(process, slot) else {
        return [0; SEMAPHORES];
    };
    array::from_fn(|j| adjustments[start + j])
}

// A process gets these adjustments for a slot. One by one, as `put_bytes` does.
pub fn put_adjustments(
    adjustments: &mut [i16; ALL_ADJUSTMENTS],
    process: u8,
    slot: usize,
    new: [i16; SEMAPHORES],
)
    ensures { adjustments.new ≡ sets adjustments.old (undo_at process slot) new }
{
    if let Some(start) = start_of(process, slot) {
        for (j, adjustment) in new.iter().enumerate() {
            let adjustment = *adjustment;
            adjustments[start + j] = adjustment;
        }
    }
}

// An adjustment by its index.
pub fn put_adjustment(adjustments: &mut [i16; ALL_ADJUSTMENTS], i: usize, adjustment: i16)
    ensures { adjustments.new ≡ slice_set adjustments.old i adjustment }
{
    if i < ALL_ADJUSTMENTS {
        adjustments[i] = adjustment;
    }
}
