// Signal: a sleeping call is interrupted.
ghost use Rattle.std.specs.Prelude.{◌≡◌};
ghost use Rattle.model.specs.Events.{do_signal};
ghost use Rattle.host.specs.Holding.{Held, host_in, state_in};
ghost use Rattle.service.specs.After.{after_in, after_of};

use crate::events::{EINTR, done, refused, told};
use host::HOST_BYTES;
use model::{ALL_ADJUSTMENTS, Told, WAKING_BYTES};
use service_checks::check_process;
use service_queue::leave;
use service_waking::Tally;
use wakings::{clear, note};

pub fn signal(
    host: &mut [u8; HOST_BYTES],
    adjustments: &mut [i16; ALL_ADJUSTMENTS],
    wakings: &mut [u8; WAKING_BYTES],
    process: u8,
) -> Told
    requires { Held (host_in host.old adjustments.old) }
    ensures { after_in host.new adjustments.new wakings.new result ≡ after_of (do_signal (state_in (host_in host.old adjustments.old)) process) }
{
    clear(wakings);
    if let Err(refusal) = check_process(process) {
        return refused(refusal);
    }
    if !leave(host, process) {
        return done(0);
    }
    note(wakings, 0, process, EINTR, None);
    told(Tally { looks: 0, woken: 1 })
}
