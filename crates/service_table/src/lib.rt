// A part of the service: what events and judged arrays do to the numbers of the semaphores.
//
// Each function is lent the host's row and its adjustments, and promises the whole host after it by an equation with the
// model's definition. The two stand apart, with no struct that holds both: C lends them apart, as `vairolent_create_in` does.
#![tactic(auto)]

ghost use Rattle.std.specs.Prelude.{◌≡◌};
ghost use Rattle.model.specs.Limits.{processes};
ghost use Rattle.model.specs.Look.{values_of};
ghost use Rattle.model.specs.Marks.{differing};
ghost use Rattle.model.specs.State.{row, clear_rows, cleared};
ghost use Rattle.model.specs.Values.{values_in};
ghost use Rattle.model.specs.Events.{clear_number, assigned, assigned_all, undo_all};
ghost use Rattle.host.specs.Parts.{values, row_in};
ghost use Rattle.host.specs.Holding.{host_in, table_in};
ghost use Rattle.service_table.specs.Numbered.{IsNumber, AreValues};
ghost use Rattle.judging.specs.Value.{values_held};
ghost use Rattle.service_table.specs.Written.{tabled, with_copies, with_values_from, exited_at, all_zero};

mod process;
mod slot;

use host::{
    HOST_BYTES, adjustments_of, put_adjustment, put_adjustments, put_lasts, put_value, put_values,
    values_of,
};
use judging::{cut, value_in};
use model::{ALL_ADJUSTMENTS, ALL_SEMAPHORES, Copies, PROCESSES, SEMAPHORES, VALUE_BYTES};
pub use process::Process;
pub use slot::Slot;
use std::array;

// The numbers at which two rows of values differ, as a mask.
pub fn differing_mask(before: [u16; SEMAPHORES], after: [u16; SEMAPHORES]) -> u8
    ensures { result ≡ differing 0 0 before after }
{
    let mut mask: u8 = 0;
    // `after` by the index, which the bit needs too.
    for (i, value) in before.iter().enumerate() {
        if *value != after[i] {
            mask = mask | (1u8 << i);
        }
    }
    mask
}

// The copies of a judged array become a slot's numbers, and the process the last of the semaphores in the mask.
pub fn apply(
    host: &mut [u8; HOST_BYTES],
    adjustments: &mut [i16; ALL_ADJUSTMENTS],
    process: u8,
    slot: usize,
    mask: u8,
    copies: Copies,
)
    ensures { host_in host.new adjustments.new ≡ with_copies (host_in host.old adjustments.old) process slot mask copies }
{
    put_values(&mut *host, slot, copies.values);
    put_lasts(host, slot, mask, process);
    put_adjustments(adjustments, process, slot, copies.adjustments);
}

// Puts the adjustments of every process for a slot to 0. Counted from 0, as `clear_rows` counts the rows that are clear; host's
// writer takes a process, from 1.
fn clear_adjustments(adjustments: &mut [i16; ALL_ADJUSTMENTS], slot: Slot)
    ensures { adjustments.new ≡ clear_rows processes slot.index adjustments.old }
{
    for n in 0..PROCESSES {
        put_adjustments(
            &mut *adjustments,
            (n as u8) + 1,
            slot.index,
            [0i16; SEMAPHORES],
        );
    }
}

// Puts every number of a slot to 0.
pub fn clear_slot(host: &mut [u8; HOST_BYTES], adjustments: &mut [i16; ALL_ADJUSTMENTS], slot: Slot)
    ensures { host_in host.new adjustments.new ≡ tabled (host_in host.old adjustments.old) (cleared (table_in (host_in host.old adjustments.old)) slot.index) }
{
    put_values(&mut *host, slot.index, [0u16; SEMAPHORES]);
    put_lasts(host, slot.index, 255, 0);
    clear_adjustments(adjustments, slot);
}

// Puts every process's adjustment of a semaphore to 0. By the index, which host's writer takes: its promise is of the whole array.
fn forget(adjustments: &mut [i16; ALL_ADJUSTMENTS], slot: Slot, number: usize)
    requires { IsNumber number }
    ensures { adjustments.new ≡ clear_number processes slot.index number adjustments.old }
{
    let at = slot.index * SEMAPHORES + number;
    for n in 0..PROCESSES {
        put_adjustment(&mut *adjustments, n * ALL_SEMAPHORES + at, 0);
    }
}

// Gives a semaphore a value, and forgets its adjustments. The last processes stay.
pub fn assign(
    host: &mut [u8; HOST_BYTES],
    adjustments: &mut [i16; ALL_ADJUSTMENTS],
    slot: Slot,
    number: usize,
    value: u16,
)
    requires { IsNumber number }
    ensures { host_in host.new adjustments.new ≡ tabled (host_in host.old adjustments.old) (assigned (table_in (host_in host.old adjustments.old)) slot.index number value) }
{
    put_value(host, slot.index * SEMAPHORES + number, value);
    forget(adjustments, slot, number);
}

// Gives the semaphores of a slot, from its first on, the values that these bytes hold. Counted by hand: `value_in` promises a value
// by its number, which its place in the row needs too.
fn put_all(host: &mut [u8; HOST_BYTES], slot: Slot, bytes: &[u8])
    ensures { row_in host.new ≡ with_values_from (row_in host.old) (row slot.index) (values_held (values_in bytes.now)) }
{
    let count = bytes.len() / VALUE_BYTES;
    for n in 0..count {
        put_value(&mut *host, slot.index * SEMAPHORES + n, value_in(bytes, n));
    }
}

// Gives all semaphores of a set these values, and forgets its adjustments. The last processes stay.
pub fn assign_all(
    host: &mut [u8; HOST_BYTES],
    adjustments: &mut [i16; ALL_ADJUSTMENTS],
    slot: Slot,
    bytes: &[u8],
)
    ensures { host_in host.new adjustments.new ≡ tabled (host_in host.old adjustments.old) (assigned_all (table_in (host_in host.old adjustments.old)) slot.index (values_held (values_in bytes.now))) }
{
    put_all(host, slot, bytes);
    clear_adjustments(adjustments, slot);
}

// Are all adjustments of a row zero?
fn all_zero(undo: [i16; SEMAPHORES]) -> bool
    ensures { result ≡ all_zero undo }
{
    undo.iter().all(|adjustment| *adjustment == 0)
}

// Each value with its adjustment added, cut to what a value can be.
fn cut_all(values: [u16; SEMAPHORES], undo: [i16; SEMAPHORES]) -> [u16; SEMAPHORES]
    ensures { result ≡ undo_all values undo }
{
    array::from_fn(|k| cut(values[k], undo[k]))
}

// Adds each adjustment of a process for a slot to its semaphore, cut to what a value can be, and puts it to 0. The answer is
// the mask of the values that now differ.
pub fn undo_slot(
    host: &mut [u8; HOST_BYTES],
    adjustments: &mut [i16; ALL_ADJUSTMENTS],
    process: Process,
    slot: Slot,
) -> u8
    requires { AreValues (row_in host.old values) }
    ensures adjustments_after { host_in host.new adjustments.new ≡ tabled (host_in host.old adjustments.old) (exited_at (table_in (host_in host.old adjustments.old)) process.number slot.index) }
    ensures value { result ≡ differing 0 0 (values_of (table_in (host_in host.old adjustments.old)) slot.index) (values_of (exited_at (table_in (host_in host.old adjustments.old)) process.number slot.index) slot.index) }
{
    let undo = adjustments_of(&*adjustments, process.number, slot.index);
    if all_zero(undo) {
        return 0;
    }
    let before = values_of(&*host, slot.index);
    let after = cut_all(before, undo);
    put_values(host, slot.index, after);
    put_adjustments(adjustments, process.number, slot.index, [0i16; SEMAPHORES]);
    differing_mask(before, after)
}
