// The sleepers: their order, and by process what each sleeps with.
ghost use Rattle.std.specs.Prelude.{◌≡◌, ◌+◌, ◌*◌, ◌<◌, ◌≤◌, MatchOption, min, take, replicate, slice_index};
ghost use Rattle.std.proofs.lemmas.List.Edits.{sets};
ghost use Rattle.model.specs.Limits.{processes, array_bytes};
ghost use Rattle.host.specs.Parts.{asleep, order, sleeps_at, sizes, names, arrays, place, row_in, with, put};
ghost use Rattle.host.specs.Holding.{entry, with_call, room_in, array_in};

use crate::bytes::put_bytes;
use crate::parts::{ARRAYS, ASLEEP, HOST_BYTES, NAMES, ORDER, SIZES, SLEEPS};
use model::{ARRAY_BYTES, PROCESSES};

// How many sleep.
pub fn asleep_of(host: &[u8; HOST_BYTES]) -> usize
    ensures { result ≡ slice_index (row_in host.now asleep) 0 }
{
    ASLEEP.get(host, 0) as usize
}

pub fn put_asleep(host: &mut [u8; HOST_BYTES], count: u8)
    ensures { row_in host.new ≡ put (row_in host.old) asleep 0 count }
{
    ASLEEP.put(host, 0, count);
}

// The process of the sleeper at a position.
pub fn process_at(host: &[u8; HOST_BYTES], at: usize) -> u8
    ensures { result ≡ slice_index (row_in host.now order) at }
{
    ORDER.get(host, at)
}

pub fn put_process(host: &mut [u8; HOST_BYTES], at: usize, process: u8)
    ensures { row_in host.new ≡ put (row_in host.old) order at process }
{
    ORDER.put(host, at, process);
}

// Where a process stands in a part by process; beyond it for no process. No Option: a part reads as 0 there already, and a
// subtraction that goes round needs no jump.
pub fn entry_of(process: u8) -> usize
    ensures { result ≡ entry process }
{
    process.wrapping_sub(1) as usize
}

// The slot that a process sleeps at, as the byte that it is in the row, and as an index. Two, since both are public, and each
// has its callers.
pub fn slot_byte(host: &[u8; HOST_BYTES], process: u8) -> u8
    ensures { result ≡ slice_index (row_in host.now sleeps_at) (entry process) }
{
    SLEEPS.get(host, entry_of(process))
}

pub fn slot_at(host: &[u8; HOST_BYTES], process: u8) -> usize
    ensures { result ≡ slice_index (row_in host.now sleeps_at) (entry process) }
{
    slot_byte(host, process) as usize
}

// The bytes of the array that a process sleeps on; 0 if it is awake.
pub fn size_at(host: &[u8; HOST_BYTES], process: u8) -> usize
    ensures { result ≡ slice_index (row_in host.now sizes) (entry process) }
{
    SIZES.get(host, entry_of(process)) as usize
}

// The semaphores that a sleeping process's array names, as a mask.
pub fn names_at(host: &[u8; HOST_BYTES], process: u8) -> u8
    ensures { result ≡ slice_index (row_in host.now names) (entry process) }
{
    NAMES.get(host, entry_of(process))
}

// What a process sleeps with, but for the array: its slot, the array's bytes, and what it names.
pub fn put_call(host: &mut [u8; HOST_BYTES], process: u8, slot: u8, size: u8, names: u8)
    ensures { row_in host.new ≡ with_call (row_in host.old) process slot size names }
{
    let i = entry_of(process);
    SLEEPS.put(&mut *host, i, slot);
    SIZES.put(&mut *host, i, size);
    NAMES.put(host, i, names);
}

// Where in the row the room for a process's array begins.
fn room_at(process: u8) -> Option<usize>
    ensures { MatchOption result (processes ≤ entry process) (λ at. (entry process < processes) × (at ≡ (place arrays).at + array_bytes * entry process)) }
{
    let i = entry_of(process);
    if i < PROCESSES {
        Some(ARRAYS.at + ARRAY_BYTES * i)
    } else {
        None
    }
}

// The room for a process's array, lent from the row: the array, and zeros behind it.
pub fn room_of(host: &[u8; HOST_BYTES], process: u8) -> &[u8]
    ensures { result.now ≡ room_in (row_in host.now) process }
{
    match room_at(process) {
        Some(at) => &host[at..at + ARRAY_BYTES],
        None => &host[..0],
    }
}

// The array that a process sleeps on, lent from the row; none if it is awake.
pub fn array_of(host: &[u8; HOST_BYTES], process: u8) -> &[u8]
    ensures { result.now ≡ array_in (row_in host.now) process }
{
    let room = room_of(host, process);
    let size = room.len().min(size_at(host, process));
    &room[..size]
}

// The array of a process is stored, as much of it as there is room for.
pub fn store_array(host: &mut [u8; HOST_BYTES], process: u8, bytes: &[u8])
    ensures { row_in host.new ≡ with (row_in host.old) arrays (sets (row_in host.old arrays) (array_bytes * entry process) (take array_bytes bytes.now)) }
{
    if let Some(at) = room_at(process) {
        let size = bytes.len().min(ARRAY_BYTES);
        put_bytes(host, at, &bytes[..size]);
    }
}

// The first bytes of the room for a process's array are zero: as many as are asked for, and no more than there are.
pub fn clear_array(host: &mut [u8; HOST_BYTES], process: u8, size: usize)
    ensures { row_in host.new ≡ with (row_in host.old) arrays (sets (row_in host.old arrays) (array_bytes * entry process) (replicate (min array_bytes size) 0)) }
{
    if let Some(at) = room_at(process) {
        host[at..at + size.min(ARRAY_BYTES)].fill(0);
    }
}
