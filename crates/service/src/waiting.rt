// Who waits at the semaphores of a set, found in one walk: a sleeper stops at one operation, so a walk tells it for all of them.
// Row and adjustments stand apart: C lends them so (`vairolent_query_in`).
ghost use Rattle.std.specs.Prelude.{◌≡◌, ◌%◌, false, not, ◌&&◌, ◌==◌, bit_or, slice_index, is_none};
ghost use Rattle.model.specs.Limits.{semaphores};
ghost use Rattle.model.specs.Operation.{operations_of, is_negative, has_bit};
ghost use Rattle.model.specs.Marks.{bit_of};
ghost use Rattle.host.specs.Parts.{row_in, sleeps_at, sizes};
ghost use Rattle.host.specs.Holding.{Held, host_in, table_in, queue_in, entry, room_in};
ghost use Rattle.judging.specs.Stop.{stop_from, goes_through, number_of, amount_of};
ghost use Rattle.service.specs.Waiting.{waiters_of, wait_if};

use host::{HOST_BYTES, room_of, size_at, slot_byte, values_of};
use judging::{Stop, is_negative, stop_of};
use model::{ALL_ADJUSTMENTS, PROCESSES, SEMAPHORES};
use service_table::{Process, Slot};
use service_waking::bit_of;

// At each semaphore of a set the processes that wait there, as masks: for an increase, and for zero; and how many arrays were
// judged to find them. Rows side by side: each goes whole into `QueriedSet`, which C has so.
#[derive(Clone, Copy)]
pub struct Waiters {
    pub increase: [u8; SEMAPHORES],
    pub zero: [u8; SEMAPHORES],
    pub judged: u32,
}

// Does the process sleep at the slot?
fn sleeps_at(host: &[u8; HOST_BYTES], process: u8, slot: u8) -> bool
    ensures { result ≡ (slice_index (row_in host.now sleeps_at) (entry process) == slot && not (slice_index (row_in host.now sizes) (entry process) == 0)) }
{
    slot_byte(host, process) == slot && size_at(host, process) != 0
}

// A sleeper waits at the semaphore of the operation where it stops: for an increase if the amount is negative, else for zero.
fn wait_at(increase: &mut [u8; SEMAPHORES], zero: &mut [u8; SEMAPHORES], stop: Stop, bit: u8)
    ensures increase_after { increase.new ≡ wait_if (is_negative stop.amount) increase.old (stop.number % semaphores) bit }
    ensures zero_after { zero.new ≡ wait_if (not (is_negative stop.amount)) zero.old (stop.number % semaphores) bit }
{
    let number = (stop.number as usize) % SEMAPHORES;
    if is_negative(stop.amount) {
        increase[number] |= bit;
    } else {
        zero[number] |= bit;
    }
}

// The array of a process that was not judged yet is judged on a copy of its set's values, to the operation where it stops. Then
// it is among those who were judged.
fn judge_one(
    host: &[u8; HOST_BYTES],
    process: Process,
    values: [u16; SEMAPHORES],
    judged: &mut u8,
) -> Option<Stop>
    requires { has_bit judged.old (bit_of process.number) ≡ false }
    ensures number_value { number_of result ≡ (stop_from (operations_of (room_in (row_in host.now) process.number)) values).operation.number % semaphores }
    ensures amount_value { amount_of result ≡ (stop_from (operations_of (room_in (row_in host.now) process.number)) values).operation.amount }
    ensures none_value { is_none result ≡ goes_through (operations_of (room_in (row_in host.now) process.number)) values }
    ensures judged_after { judged.new ≡ bit_or judged.old (bit_of process.number) }
{
    let mut copy = values;
    *judged |= bit_of(process);
    stop_of(&mut copy, room_of(host, process.number))
}

// The walk goes by process: a process sleeps at most once, and the masks are of processes. Each sleeper of the set is judged
// once, and none of another set. The adjustments are lent for the premise alone: where a sleeper stops, the values tell.
#[inline]
pub fn waiting(host: &[u8; HOST_BYTES], adjustments: &[i16; ALL_ADJUSTMENTS], slot: Slot) -> Waiters
    requires { Held (host_in host.now adjustments.now) }
    ensures { result ≡ waiters_of (table_in (host_in host.now adjustments.now)) slot.index (queue_in (host_in host.now adjustments.now).row) }
{
    let values = values_of(host, slot.index);
    let wanted = (slot.index % 256) as u8;
    let mut increase = [0u8; SEMAPHORES];
    let mut zero = [0u8; SEMAPHORES];
    let mut judged: u8 = 0;
    for n in 0..PROCESSES {
        let process = Process {
            number: (n as u8) + 1,
        };
        if sleeps_at(host, process.number, wanted) {
            if let Some(stop) = judge_one(host, process, values, &mut judged) {
                wait_at(&mut increase, &mut zero, stop, bit_of(process));
            }
        }
    }
    Waiters {
        increase,
        zero,
        judged: judged.count_ones(),
    }
}
