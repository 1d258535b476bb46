// Clock: the present time is told, and sleepers whose wait is over are ended.
ghost use Rattle.std.specs.Prelude.{◌≡◌};
ghost use Rattle.model.specs.Events.{do_clock};
ghost use Rattle.host.specs.Holding.{Held, host_in, state_in};
ghost use Rattle.service.specs.After.{after_in, after_of};

use crate::events::{refused, told};
use host::{HOST_BYTES, put_time};
use model::{ALL_ADJUSTMENTS, Told, WAKING_BYTES};
use service_checks::check_clock;
use service_queue::{Ending, end_all};
use service_waking::Tally;
use wakings::clear;

// No value changes, so nobody is looked at.
pub fn clock(
    host: &mut [u8; HOST_BYTES],
    adjustments: &mut [i16; ALL_ADJUSTMENTS],
    wakings: &mut [u8; WAKING_BYTES],
    time: u64,
) -> Told
    requires { Held (host_in host.old adjustments.old) }
    ensures { after_in host.new adjustments.new wakings.new result ≡ after_of (do_clock (state_in (host_in host.old adjustments.old)) time) }
{
    clear(&mut *wakings);
    if let Err(refusal) = check_clock(&*host, time) {
        return refused(refusal);
    }
    put_time(&mut *host, time);
    let woken = end_all(host, wakings, Ending::Expiry(time));
    told(Tally {
        looks: 0,
        woken: woken,
    })
}
