// Set value: the value of a semaphore; its adjustments are cleared.
ghost use Rattle.std.specs.Prelude.{◌≡◌};
ghost use Rattle.model.specs.Waking.{waker};
ghost use Rattle.model.specs.Events.{do_set_value};
ghost use Rattle.host.specs.Holding.{Held, host_in, state_in};
ghost use Rattle.service.specs.After.{after_in, after_of};

use crate::events::{refused, told};
use host::HOST_BYTES;
use judging::{slot_of, value_of};
use model::{ALL_ADJUSTMENTS, Engine, Told, WAKING_BYTES};
use service_checks::check_set_value;
use service_table::{Slot, assign};
use service_waking::{Tally, wake};
use wakings::clear;

// The named semaphore is always touched, whatever its value was: cleared adjustments can change an outcome.
pub fn set_value(
    host: &mut [u8; HOST_BYTES],
    adjustments: &mut [i16; ALL_ADJUSTMENTS],
    wakings: &mut [u8; WAKING_BYTES],
    engine: Engine,
    process: u8,
    identifier: i32,
    number: u16,
    value: i32,
) -> Told
    requires { Held (host_in host.old adjustments.old) }
    ensures { after_in host.new adjustments.new wakings.new result ≡ after_of (do_set_value (waker engine) (state_in (host_in host.old adjustments.old)) process identifier number value) }
{
    clear(&mut *wakings);
    if let Err(refusal) = check_set_value(&*host, process, identifier, number, value) {
        return refused(refusal);
    }
    let slot = Slot {
        index: slot_of(identifier),
    };
    let at = number as usize;
    assign(&mut *host, &mut *adjustments, slot, at, value_of(value));
    let touched = 1u8 << at;
    told(wake(
        host,
        adjustments,
        wakings,
        engine,
        slot,
        touched,
        Tally::default(),
    ))
}
