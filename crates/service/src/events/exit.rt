// Exit: a process ends, and its adjustments are undone.
ghost use Rattle.std.specs.Prelude.{◌≡◌};
ghost use Rattle.model.specs.Waking.{waker};
ghost use Rattle.model.specs.Events.{do_exit, exited, touched_from};
ghost use Rattle.model.specs.Limits.{slots};
ghost use Rattle.model.specs.Invariant.{Good};
ghost use Rattle.host.specs.Holding.{Held, host_in, state_in, table_in};
ghost use Rattle.service_table.specs.Written.{tabled};
ghost use Rattle.service.specs.After.{after_in, after_of};

use crate::events::{refused, told};
use host::HOST_BYTES;
use model::{ALL_ADJUSTMENTS, Engine, SETS, Told, WAKING_BYTES};
use service_checks::check_process;
use service_queue::leave;
use service_table::{Process, Slot, undo_slot};
use service_waking::wake_all;
use wakings::clear;

// All sets are adjusted: the answer has for each the mask of its values that now differ.
fn undo_all(
    host: &mut [u8; HOST_BYTES],
    adjustments: &mut [i16; ALL_ADJUSTMENTS],
    process: Process,
) -> [u8; SETS]
    requires { Good (table_in (host_in host.old adjustments.old)) }
    ensures adjustments_after { host_in host.new adjustments.new ≡ tabled (host_in host.old adjustments.old) (exited (table_in (host_in host.old adjustments.old)) process.number) }
    ensures value { result ≡ touched_from slots 0 (table_in (host_in host.old adjustments.old)) (exited (table_in (host_in host.old adjustments.old)) process.number) }
{
    let mut touched = [0u8; SETS];
    for (slot, mask) in touched.iter_mut().enumerate() {
        *mask = undo_slot(&mut *host, &mut *adjustments, process, Slot { index: slot });
    }
    touched
}

// A sleeper of the process goes without a waking; all sets are adjusted first, then treated.
pub fn exit(
    host: &mut [u8; HOST_BYTES],
    adjustments: &mut [i16; ALL_ADJUSTMENTS],
    wakings: &mut [u8; WAKING_BYTES],
    engine: Engine,
    process: u8,
) -> Told
    requires { Held (host_in host.old adjustments.old) }
    ensures { after_in host.new adjustments.new wakings.new result ≡ after_of (do_exit (waker engine) (state_in (host_in host.old adjustments.old)) process) }
{
    clear(&mut *wakings);
    if let Err(refusal) = check_process(process) {
        return refused(refusal);
    }
    leave(&mut *host, process);
    let touched = undo_all(&mut *host, &mut *adjustments, Process { number: process });
    told(wake_all(host, adjustments, wakings, engine, touched))
}
