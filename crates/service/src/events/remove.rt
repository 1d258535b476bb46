// Remove: a set's sleepers are ended, and its slot is free again.
ghost use Rattle.std.specs.Prelude.{◌≡◌};
ghost use Rattle.model.specs.Events.{do_remove};
ghost use Rattle.host.specs.Holding.{Held, host_in, state_in};
ghost use Rattle.service.specs.After.{after_in, after_of};

use crate::events::{refused, told};
use host::{HOST_BYTES, put_set, set_at};
use judging::slot_of;
use model::{ALL_ADJUSTMENTS, Set, Told, WAKING_BYTES};
use service_checks::check_remove;
use service_queue::{Ending, end_all};
use service_table::{Slot, clear_slot};
use service_waking::Tally;
use wakings::clear;

pub fn remove(
    host: &mut [u8; HOST_BYTES],
    adjustments: &mut [i16; ALL_ADJUSTMENTS],
    wakings: &mut [u8; WAKING_BYTES],
    process: u8,
    identifier: i32,
) -> Told
    requires { Held (host_in host.old adjustments.old) }
    ensures { after_in host.new adjustments.new wakings.new result ≡ after_of (do_remove (state_in (host_in host.old adjustments.old)) process identifier) }
{
    clear(&mut *wakings);
    if let Err(refusal) = check_remove(&*host, process, identifier) {
        return refused(refusal);
    }
    let slot = slot_of(identifier);
    let old = set_at(&*host, slot);
    let set = Set {
        generation: old.generation.wrapping_add(1),
        count: 0,
        owner: 0,
        group: 0,
        mode: 0,
    };
    put_set(&mut *host, slot, set);
    clear_slot(&mut *host, adjustments, Slot { index: slot });
    let woken = end_all(host, wakings, Ending::Removal(slot));
    told(Tally {
        looks: 0,
        woken: woken,
    })
}
