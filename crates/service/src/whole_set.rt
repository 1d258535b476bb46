// A whole set at once: what a query of each of its semaphores shows, by one walk over its sleepers.
ghost use Rattle.std.specs.Prelude.{◌≡◌, ℕ, count_ones, slice_index};
ghost use Rattle.model.specs.Refusal.{errno_of};
ghost use Rattle.model.specs.WholeSet.{each, set_refused, query_set};
ghost use Rattle.host.specs.Holding.{Held, host_in, state_in};

use crate::waiting::waiting;
use host::{HOST_BYTES, lasts_of, set_at, values_of};
use judging::slot_of;
use model::{ALL_ADJUSTMENTS, QueriedSet, READ, Refusal, SEMAPHORES};
use service_checks::check_access;
use service_table::Slot;

// How many processes are in each mask: the number of ones in it.
fn ones_of(masks: [u8; SEMAPHORES]) -> [u32; SEMAPHORES]
    ensures { result ≡ each (λ (n : ℕ). count_ones (slice_index masks n)) }
{
    masks.map(|mask| mask.count_ones())
}

// Refused: zeros after the code. No `From`: it is made once, here.
fn refused(refusal: Refusal) -> QueriedSet
    ensures { result ≡ set_refused (errno_of refusal) }
{
    QueriedSet {
        code: i32::from(refusal),
        count: 0,
        judged: 0,
        values: [0; SEMAPHORES],
        lasts: [0; SEMAPHORES],
        increase: [0; SEMAPHORES],
        zero: [0; SEMAPHORES],
        increase_masks: [0; SEMAPHORES],
        zero_masks: [0; SEMAPHORES],
    }
}

// Refused as a reading is.
pub fn query_set(
    host: &[u8; HOST_BYTES],
    adjustments: &[i16; ALL_ADJUSTMENTS],
    process: u8,
    identifier: i32,
) -> QueriedSet
    requires { Held (host_in host.now adjustments.now) }
    ensures { result ≡ query_set (state_in (host_in host.now adjustments.now)) process identifier }
{
    if let Err(refusal) = check_access(host, process, identifier, READ) {
        return refused(refusal);
    }
    let slot = slot_of(identifier);
    let set = set_at(host, slot);
    let waiters = waiting(host, adjustments, Slot { index: slot });
    let increase = waiters.increase;
    let zero = waiters.zero;
    QueriedSet {
        code: 0,
        count: set.count,
        judged: waiters.judged,
        values: values_of(host, slot),
        lasts: lasts_of(host, slot),
        increase: ones_of(increase),
        zero: ones_of(zero),
        increase_masks: increase,
        zero_masks: zero,
    }
}
