// Act as: a process has another user and another group number.
ghost use Rattle.std.specs.Prelude.{◌≡◌};
ghost use Rattle.model.specs.Events.{do_act_as};
ghost use Rattle.host.specs.Holding.{Held, host_in, state_in};
ghost use Rattle.service.specs.After.{after_in, after_of};

use crate::events::{done, refused};
use host::{HOST_BYTES, put_caller};
use model::{ALL_ADJUSTMENTS, Caller, Told, WAKING_BYTES};
use service_checks::check_caller;
use wakings::clear;

// It asks no permission. Sets keep the owner that they have.
pub fn act_as(
    host: &mut [u8; HOST_BYTES],
    adjustments: &mut [i16; ALL_ADJUSTMENTS],
    wakings: &mut [u8; WAKING_BYTES],
    process: u8,
    user: u32,
    group: u32,
) -> Told
    requires { Held (host_in host.old adjustments.old) }
    ensures { after_in host.new adjustments.new wakings.new result ≡ after_of (do_act_as (state_in (host_in host.old adjustments.old)) process user group) }
{
    clear(wakings);
    if let Err(refusal) = check_caller(&*host, process) {
        return refused(refusal);
    }
    let caller = Caller {
        user: user,
        group: group,
    };
    put_caller(host, process, caller);
    done(0)
}
