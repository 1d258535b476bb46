// Create: the lowest free slot becomes a set of the caller's.
ghost use Rattle.std.specs.Prelude.{◌≡◌};
ghost use Rattle.model.specs.Events.{do_create};
ghost use Rattle.host.specs.Holding.{Held, host_in, state_in};
ghost use Rattle.service.specs.After.{after_in, after_of};

use crate::events::{done, refused};
use host::{HOST_BYTES, caller_of, put_set, set_at};
use model::{ALL_ADJUSTMENTS, SETS, Set, Told, WAKING_BYTES};
use service_checks::check_create;
use service_table::{Slot, clear_slot};
use wakings::clear;

pub fn create(
    host: &mut [u8; HOST_BYTES],
    adjustments: &mut [i16; ALL_ADJUSTMENTS],
    wakings: &mut [u8; WAKING_BYTES],
    process: u8,
    count: u8,
    mode: u16,
) -> Told
    requires { Held (host_in host.old adjustments.old) }
    ensures { after_in host.new adjustments.new wakings.new result ≡ after_of (do_create (state_in (host_in host.old adjustments.old)) process count mode) }
{
    clear(wakings);
    let slot = match check_create(&*host, process, count, mode) {
        Ok(slot) => slot,
        Err(refusal) => return refused(refusal),
    };
    let old = set_at(&*host, slot);
    let generation = old.generation;
    let caller = caller_of(&*host, process);
    let set = Set {
        generation: generation,
        count: count,
        owner: caller.user,
        group: caller.group,
        mode: mode,
    };
    put_set(&mut *host, slot, set);
    clear_slot(host, adjustments, Slot { index: slot });
    done((slot as u32) + (SETS as u32) * (generation as u32))
}
