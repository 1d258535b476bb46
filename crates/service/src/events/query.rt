// Query: a semaphore's value and last process, and who waits for it.
ghost use Rattle.std.specs.Prelude.{◌≡◌, pos};
ghost use Rattle.model.specs.Refusal.{errno_of};
ghost use Rattle.model.specs.Events.{answer as answer_of, do_query};
ghost use Rattle.host.specs.Holding.{Held, host_in, state_in};
ghost use Rattle.service.specs.After.{queried_of, showing};

use crate::waiting::waiting;
use host::{HOST_BYTES, last_at, value_at};
use judging::slot_of;
use model::{ALL_ADJUSTMENTS, Queried, Refusal, SEMAPHORES};
use service_checks::check_query;
use service_table::Slot;

// A refused query: zeros after the code. No `From`: `Queried` is the crate model's, and `showing`, which says what it shows, is
// this one's.
fn refused(refusal: Refusal) -> Queried
    ensures { result ≡ showing (answer_of (pos (errno_of refusal))) 0 }
{
    Queried {
        code: i32::from(refusal),
        ..Queried::default()
    }
}

// A wait count is the number of ones in its mask.
pub fn query(
    host: &[u8; HOST_BYTES],
    adjustments: &[i16; ALL_ADJUSTMENTS],
    process: u8,
    identifier: i32,
    number: u16,
) -> Queried
    requires { Held (host_in host.now adjustments.now) }
    ensures { result ≡ queried_of (do_query (state_in (host_in host.now adjustments.now)) process identifier number) }
{
    if let Err(refusal) = check_query(host, process, identifier, number) {
        return refused(refusal);
    }
    let slot = slot_of(identifier);
    let n = number as usize;
    let at = slot * SEMAPHORES + n;
    let waiters = waiting(host, adjustments, Slot { index: slot });
    let increase = waiters.increase[n];
    let zero = waiters.zero[n];
    Queried {
        code: 0,
        value: value_at(host, at),
        last: last_at(host, at),
        increase: u8::count_ones(increase),
        zero: u8::count_ones(zero),
        increase_mask: increase,
        zero_mask: zero,
        looks: 0,
    }
}
