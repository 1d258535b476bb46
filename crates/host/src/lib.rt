// The host: one row of bytes, which the caller keeps and lends to each event, and beside it the undo adjustments.
//
// src/parts.rt has the table of the row's parts, and nothing else knows where a part lies: readers and writers stand here,
// by subject. Each is total. What lies beyond a part reads as 0 and is not written. A writer promises the whole row after
// it, `row_in`, by an equation; proofs/Whole.antt has that two rows which say the same are the same bytes.
#![tactic(auto)]

mod adjustments;
mod bytes;
mod callers;
mod clock;
mod parts;
mod semaphores;
mod sets;
mod sleepers;
mod start;
mod waits;

pub use adjustments::{adjustments_of, put_adjustment, put_adjustments};
pub use callers::{caller_of, put_caller};
pub use clock::{put_time, time_of};
pub use parts::HOST_BYTES;
pub use semaphores::{last_at, lasts_of, put_lasts, put_value, put_values, value_at, values_of};
pub use sets::{put_set, set_at};
pub use sleepers::{
    array_of, asleep_of, clear_array, names_at, process_at, put_asleep, put_call, put_process,
    room_of, size_at, slot_at, slot_byte, store_array,
};
pub use start::{fresh, no_adjustments};
pub use waits::{is_due, put_wait, wait_number};
