// Operate: an array of operations of a process at a set.
ghost use Rattle.std.specs.Prelude.{◌≡◌, ◌<◌, ◌≢◌, [], ◌∷◌, ◌++◌, length, if◌then◌else◌};
ghost use Rattle.model.specs.declared.Outcome.TheVariants.{Again, Sleep};
ghost use Rattle.model.specs.Limits.{processes};
ghost use Rattle.model.specs.State.{Sleeper};
ghost use Rattle.model.specs.Operation.{operations_of};
ghost use Rattle.model.specs.Marks.{named_by};
ghost use Rattle.model.specs.Waking.{waker};
ghost use Rattle.model.specs.Clock.{at_once};
ghost use Rattle.model.specs.Events.{do_operate};
ghost use Rattle.model.specs.Runs.{All};
ghost use Rattle.host.specs.Parts.{row_in};
ghost use Rattle.host.specs.Holding.{Held, time_in, with_queue, queue_in, host_in, state_in};
ghost use Rattle.host.specs.Queue.{Room, QueueHeld};
ghost use Rattle.service.specs.After.{after_in, after_of};

use crate::events::{not_done, refused, told};
use host::{HOST_BYTES, adjustments_of, values_of};
use judging::{judge, slot_of};
use model::{ALL_ADJUSTMENTS, Copies, Engine, Outcome, Told, WAKING_BYTES, Wait};
use service_checks::check_operate;
use service_queue::fall_asleep;
use service_table::{Slot, apply, differing_mask};
use service_waking::{Tally, wake};
use wakings::clear;

// A wait of 0.
fn at_once(wait: Wait) -> bool
    ensures { result ≡ at_once wait }
{
    wait == Some(0)
}

// A call that would sleep: with a wait of 0 it is refused and nothing changes, else it falls asleep. The answer is what it comes
// to.
fn would_sleep(
    host: &mut [u8; HOST_BYTES],
    process: u8,
    slot: usize,
    bytes: &[u8],
    names: u8,
    wait: Wait,
) -> Outcome
    requires queue_held { QueueHeld (row_in host.old) }
    requires room { Room (record { process = process; slot = slot; array = bytes.now; start = time_in (row_in host.old); wait = wait }) }
    requires all { All (λ (s : Sleeper). s.process ≢ process) (queue_in (row_in host.old)) }
    requires host_len_bound { length (queue_in (row_in host.old)) < processes }
    requires slot_bound { slot < 256 }
    requires names_value { names ≡ named_by 0 (operations_of bytes.now) }
    ensures host_after { row_in host.new ≡ (if at_once wait then row_in host.old else with_queue (row_in host.old) (queue_in (row_in host.old) ++ record { process = process; slot = slot; array = bytes.now; start = time_in (row_in host.old); wait = wait } ∷ [])) }
    ensures value { result ≡ (if at_once wait then Again else Sleep) }
{
    if at_once(wait) {
        return Outcome::Again;
    }
    fall_asleep(host, process, slot, bytes, names, wait);
    Outcome::Sleep
}

// The array is judged on a copy: done, the copy becomes the state and the set is treated; else it sleeps, if it may wait, or is
// refused, and the operation that decided is told.
pub fn operate(
    host: &mut [u8; HOST_BYTES],
    adjustments: &mut [i16; ALL_ADJUSTMENTS],
    wakings: &mut [u8; WAKING_BYTES],
    engine: Engine,
    process: u8,
    identifier: i32,
    wait: Wait,
    bytes: &[u8],
) -> Told
    requires { Held (host_in host.old adjustments.old) }
    ensures { after_in host.new adjustments.new wakings.new result ≡ after_of (do_operate (waker engine) (state_in (host_in host.old adjustments.old)) process identifier wait bytes.now) }
{
    clear(&mut *wakings);
    let names = match check_operate(&*host, process, identifier, bytes) {
        Ok(names) => names,
        Err(refusal) => return refused(refusal),
    };
    let slot = slot_of(identifier);
    let before = values_of(&*host, slot);
    let mut copies = Copies {
        values: before,
        adjustments: adjustments_of(&*adjustments, process, slot),
    };
    let verdict = judge(&mut copies, bytes);
    let outcome = verdict.outcome;
    match outcome {
        Outcome::Done => {
            apply(&mut *host, &mut *adjustments, process, slot, names, copies);
            let touched = differing_mask(before, copies.values);
            told(wake(
                host,
                adjustments,
                wakings,
                engine,
                Slot { index: slot },
                touched,
                Tally::default(),
            ))
        }
        Outcome::Sleep => {
            let ended = would_sleep(host, process, slot, bytes, names, wait);
            not_done(ended, verdict.position)
        }
        Outcome::Again | Outcome::Range => not_done(outcome, verdict.position),
    }
}
