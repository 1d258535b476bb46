// Set all: the values of all semaphores of a set at once; its adjustments are cleared.
ghost use Rattle.std.specs.Prelude.{◌≡◌, ◌≤◌};
ghost use Rattle.model.specs.Limits.{semaphores};
ghost use Rattle.model.specs.Marks.{every_number};
ghost use Rattle.model.specs.Waking.{waker};
ghost use Rattle.model.specs.Events.{do_set_all};
ghost use Rattle.host.specs.Holding.{Held, host_in, state_in};
ghost use Rattle.service.specs.After.{after_in, after_of};

use crate::events::{refused, told};
use host::{HOST_BYTES, set_at};
use judging::slot_of;
use model::{ALL_ADJUSTMENTS, Engine, Told, WAKING_BYTES};
use service_checks::check_set_all;
use service_table::{Slot, assign_all};
use service_waking::{Tally, wake};
use wakings::clear;

// Every number of a set with so many semaphores, as a mask.
fn every_number(count: u8) -> u8
    requires { count ≤ semaphores }
    ensures { result ≡ every_number count }
{
    ((1u16 << count) - 1) as u8
}

// The values stand in the lent bytes, four each. Every semaphore of the set is touched, whatever its value was: cleared
// adjustments can change an outcome.
pub fn set_all(
    host: &mut [u8; HOST_BYTES],
    adjustments: &mut [i16; ALL_ADJUSTMENTS],
    wakings: &mut [u8; WAKING_BYTES],
    engine: Engine,
    process: u8,
    identifier: i32,
    values: &[u8],
) -> Told
    requires { Held (host_in host.old adjustments.old) }
    ensures { after_in host.new adjustments.new wakings.new result ≡ after_of (do_set_all (waker engine) (state_in (host_in host.old adjustments.old)) process identifier values.now) }
{
    clear(&mut *wakings);
    if let Err(refusal) = check_set_all(&*host, process, identifier, values) {
        return refused(refusal);
    }
    let slot = Slot {
        index: slot_of(identifier),
    };
    let set = set_at(&*host, slot.index);
    assign_all(&mut *host, &mut *adjustments, slot, values);
    let touched = every_number(set.count);
    told(wake(
        host,
        adjustments,
        wakings,
        engine,
        slot,
        touched,
        Tally::default(),
    ))
}
