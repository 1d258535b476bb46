// A part of the service: the queue of the sleepers, in the host's row. That the row holds a queue stands in the clauses, and in no
// type: the row is a program's own array, which C lends.
#![tactic(auto)]

ghost use Rattle.std.specs.Prelude.{◌≡◌, ◌≢◌, Bool, false, [], ◌∷◌, ◌++◌, ◌<◌, ◌≤◌, pos, length, MatchOption};
ghost use Rattle.model.specs.Limits.{processes};
ghost use Rattle.model.specs.State.{Sleeper};
ghost use Rattle.model.specs.Operation.{operations_of};
ghost use Rattle.model.specs.Marks.{named_by};
ghost use Rattle.model.specs.Waking.{without};
ghost use Rattle.model.specs.Checks.{asleep};
ghost use Rattle.model.specs.Events.{keep, ended_with, not_of};
ghost use Rattle.model.specs.Runs.{All};
ghost use Rattle.host.specs.Parts.{order, row_in, with};
ghost use Rattle.host.specs.Holding.{time_in, with_queue, queue_in};
ghost use Rattle.host.specs.Queue.{Room, QueueHeld};
ghost use Rattle.wakings.specs.Wakings.{places_in, list_of};
ghost use Rattle.service_queue.specs.Seated.{Seated, IsPositionOf, moved_up};
ghost use Rattle.service_queue.specs.Ended.{ended_by, code_by, spared_by, Tells, EndedAll};

use host::{
    HOST_BYTES, asleep_of, clear_array, is_due, process_at, put_asleep, put_call, put_process,
    put_wait, size_at, slot_at, store_array, time_of, wait_number,
};
use model::{WAKING_BYTES, Wait};
use wakings::note;

// A call joins behind the others at the time last told, with its wait and the mask of the semaphores that its array names.
pub fn fall_asleep(
    host: &mut [u8; HOST_BYTES],
    process: u8,
    slot: usize,
    bytes: &[u8],
    names: u8,
    wait: Wait,
)
    requires queue_held { QueueHeld (row_in host.old) }
    requires room { Room (record { process = process; slot = slot; array = bytes.now; start = time_in (row_in host.old); wait = wait }) }
    requires all { All (λ (s : Sleeper). s.process ≢ process) (queue_in (row_in host.old)) }
    requires host_len_bound { length (queue_in (row_in host.old)) < processes }
    requires slot_bound { slot < 256 }
    requires names_value { names ≡ named_by 0 (operations_of bytes.now) }
    ensures { row_in host.new ≡ with_queue (row_in host.old) (queue_in (row_in host.old) ++ record { process = process; slot = slot; array = bytes.now; start = time_in (row_in host.old); wait = wait } ∷ []) }
{
    let start = time_of(&*host);
    store_array(&mut *host, process, bytes);
    put_call(&mut *host, process, slot as u8, bytes.len() as u8, names);
    put_wait(&mut *host, process, start, wait_number(wait));
    let n = asleep_of(&*host);
    put_process(&mut *host, n, process);
    put_asleep(host, (n as u8) + 1);
}

// Those behind a position move up by one, as far as the last, whose place is free then. By the index: the order lies within the
// row, and host's reader and writer take a position.
fn move_up(host: &mut [u8; HOST_BYTES], at: usize, last: usize)
    requires { (at ≤ last) × (last < processes) }
    ensures { row_in host.new ≡ with (row_in host.old) order (moved_up (row_in host.old order) at last) }
{
    for i in at..last {
        let next = process_at(&*host, i + 1);
        put_process(&mut *host, i, next);
    }
    put_process(host, last, 0);
}

// The sleeper at a position is taken out.
pub fn take_out(host: &mut [u8; HOST_BYTES], at: usize)
    requires queue_held { QueueHeld (row_in host.old) }
    requires at_in_bounds { at < length (queue_in (row_in host.old)) }
    ensures { row_in host.new ≡ with_queue (row_in host.old) (without (queue_in (row_in host.old)) at) }
{
    let process = process_at(&*host, at);
    let size = size_at(&*host, process);
    put_call(&mut *host, process, 0, 0, 0);
    put_wait(&mut *host, process, 0, 0);
    let last = asleep_of(&*host) - 1;
    move_up(&mut *host, at, last);
    put_asleep(&mut *host, last as u8);
    clear_array(host, process, size);
}

// Does the process sleep?
pub fn is_asleep(host: &[u8; HOST_BYTES], process: u8) -> bool
    requires { Seated (row_in host.now) }
    ensures { result ≡ asleep process (queue_in (row_in host.now)) }
{
    0 < size_at(host, process)
}

// The position of the sleeper of a process, if it sleeps.
fn position(host: &[u8; HOST_BYTES], process: u8) -> Option<usize>
    requires { QueueHeld (row_in host.now) }
    ensures { MatchOption result (asleep process (queue_in (row_in host.now)) ≡ false) (IsPositionOf process (queue_in (row_in host.now))) }
{
    (0..asleep_of(host)).find(|at| process_at(host, *at) == process)
}

// The sleeper of a process, if it sleeps, is taken out: did it? For one that is awake the queue is not searched.
#[inline]
pub fn leave(host: &mut [u8; HOST_BYTES], process: u8) -> bool
    requires { Seated (row_in host.old) }
    ensures value { result ≡ asleep process (queue_in (row_in host.old)) }
    ensures host_after { row_in host.new ≡ with_queue (row_in host.old) (keep (not_of process) (queue_in (row_in host.old))) }
{
    if !is_asleep(&*host, process) {
        return false;
    }
    match position(&*host, process) {
        Some(at) => {
            take_out(host, at);
            true
        }
        None => false,
    }
}

// The codes of errno.h for a removal and for an expiry.
const EIDRM: u8 = 43;

const EAGAIN: u8 = 11;

// Whom an event ends without a look: the sleepers of a slot that is removed, or those whose wait is over at a time.
#[derive(Clone, Copy)]
pub enum Ending {
    Removal(usize),
    Expiry(u64),
}

// Ends them, oldest first, and takes them out. The answer is how many there were. Inlined, since each event that calls it needs
// one arm alone.
#[inline]
pub fn end_all(
    host: &mut [u8; HOST_BYTES],
    wakings: &mut [u8; WAKING_BYTES],
    ending: Ending,
) -> usize
    requires queue_held { QueueHeld (row_in host.old) }
    requires wakings_value { places_in wakings.old ≡ list_of [] }
    ensures host_after { row_in host.new ≡ with_queue (row_in host.old) (keep (spared_by ending) (queue_in (row_in host.old))) }
    ensures wakings_after { places_in wakings.new ≡ list_of (ended_with (code_by ending) (ended_by ending) (queue_in (row_in host.old))) }
    ensures value { result ≡ length (ended_with (code_by ending) (ended_by ending) (queue_in (row_in host.old))) }
{
    match ending {
        Ending::Removal(slot) => end_those(
            host,
            wakings,
            EIDRM,
            |host, process| slot_at(host, process) == slot,
        ),
        Ending::Expiry(time) => end_those(
            host,
            wakings,
            EAGAIN,
            |host, process| is_due(host, process, time),
        ),
    }
}

// The loop of both: the sleepers for whose processes the test holds are ended with the code.
fn end_those<F: Fn(&[u8; HOST_BYTES], u8) -> bool>(
    host: &mut [u8; HOST_BYTES],
    wakings: &mut [u8; WAKING_BYTES],
    code: u8,
    ended: F,
) -> usize
    requires callable { F.IsAlwaysCallable ended }
    requires queue_held { QueueHeld (row_in host.old) }
    requires wakings_value { places_in wakings.old ≡ list_of [] }
    ensures { (test : Sleeper → Bool) → Tells F.Fn ended test → EndedAll test (pos code) (row_in host.old) (row_in host.new) (places_in wakings.new) result }
{
    let mut woken = 0;
    // Stepped by hand: who is taken out leaves the position to the next.
    let mut at = 0;
    for _ in 0..asleep_of(&*host) {
        let process = process_at(&*host, at);
        if ended(&*host, process) {
            take_out(&mut *host, at);
            note(&mut *wakings, woken, process, code, None);
            woken += 1;
        } else {
            at += 1;
        }
    }
    woken
}
