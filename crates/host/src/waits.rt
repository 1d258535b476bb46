// Waits: by process since when it sleeps and how long at most, and whether that is over.
ghost use Rattle.std.specs.Prelude.{◌≡◌};
ghost use Rattle.model.specs.Clock.{over_by};
ghost use Rattle.host.specs.Parts.{row_in};
ghost use Rattle.host.specs.Waits.{wait_number, wait_of};
ghost use Rattle.host.specs.Holding.{start_in, wait_in, with_wait};

use crate::parts::{HOST_BYTES, STARTS, WAITS};
use crate::sleepers::entry_of;
use model::Wait;

// A wait as the number that the row has of it. No From, since Option and u64 are both std's.
pub fn wait_number(wait: Wait) -> u64
    ensures { result ≡ wait_number wait }
{
    match wait {
        None => 0,
        Some(n) => (n as u64) + 1,
    }
}

// The time that was last told when a process went to sleep.
fn start_at(host: &[u8; HOST_BYTES], process: u8) -> u64
    ensures { result ≡ start_in (row_in host.now) process }
{
    STARTS.get(host, entry_of(process))
}

// The wait of a process, as a number; no Wait, since a row may have a number that is too large for one.
fn wait_at(host: &[u8; HOST_BYTES], process: u8) -> u64
    ensures { result ≡ wait_in (row_in host.now) process }
{
    WAITS.get(host, entry_of(process))
}

// A process sleeps since then, with this wait.
pub fn put_wait(host: &mut [u8; HOST_BYTES], process: u8, start: u64, wait: u64)
    ensures { row_in host.new ≡ with_wait (row_in host.old) process start wait }
{
    let i = entry_of(process);
    STARTS.put(&mut *host, i, start);
    WAITS.put(host, i, wait);
}

// Is the wait of a process over at this time? Start plus wait is asked for by the difference, which is never too large.
pub fn is_due(host: &[u8; HOST_BYTES], process: u8, time: u64) -> bool
    ensures { result ≡ over_by time (start_in (row_in host.now) process) (wait_of (wait_in (row_in host.now) process)) }
{
    let Some(wait) = wait_at(host, process).checked_sub(1) else {
        return false;
    };
    let Some(since) = time.checked_sub(start_at(host, process)) else {
        return false;
    };
    wait <= since
}
