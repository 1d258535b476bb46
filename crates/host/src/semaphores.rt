// The values and the last processes of the semaphores: one by its index in the part, or the eight of a slot.
ghost use Rattle.std.specs.Prelude.{◌≡◌, ◌+◌, ◌*◌, ◌≤◌, map, slice_index};
ghost use Rattle.std.proofs.lemmas.List.Edits.{sets};
ghost use Rattle.model.specs.Limits.{semaphores, all_semaphores};
ghost use Rattle.model.specs.State.{row};
ghost use Rattle.host.specs.Parts.{values, lasts, host_bytes, AtPlace, row_in, with, put};
ghost use Rattle.host.specs.Rows.{from, masked};

use crate::bytes::Number;
use crate::parts::{HOST_BYTES, LASTS, Part, VALUES};
use model::{SEMAPHORES, SETS};
use std::array;

// The value of a semaphore.
pub fn value_at(host: &[u8; HOST_BYTES], i: usize) -> u16
    ensures { result ≡ slice_index (row_in host.now values) i }
{
    VALUES.get(host, i)
}

// A semaphore gets a value.
pub fn put_value(host: &mut [u8; HOST_BYTES], i: usize, value: u16)
    ensures { row_in host.new ≡ put (row_in host.old) values i value }
{
    VALUES.put(host, i, value);
}

// The eight numbers of a slot, in a part by semaphore.
fn eight_of<T: Number>(part: Part<T>, host: &[u8; HOST_BYTES], slot: usize) -> [T; SEMAPHORES]
    requires inside { part.at + T.WIDTH * part.count ≤ host_bytes }
    requires by_semaphore { part.count ≡ all_semaphores }
    ensures { AtPlace part.at T.WIDTH part.count (λ p. map T.value result ≡ from 0 semaphores (row slot) (row_in host.now p)) }
{
    if SETS <= slot {
        return [T::default(); SEMAPHORES];
    }
    array::from_fn(|j| part.get(host, slot * SEMAPHORES + j))
}

// The values of a slot.
pub fn values_of(host: &[u8; HOST_BYTES], slot: usize) -> [u16; SEMAPHORES]
    ensures { result ≡ from 0 semaphores (row slot) (row_in host.now values) }
{
    eight_of(VALUES, host, slot)
}

// A slot gets these values.
pub fn put_values(host: &mut [u8; HOST_BYTES], slot: usize, new: [u16; SEMAPHORES])
    ensures { row_in host.new ≡ with (row_in host.old) values (sets (row_in host.old values) (row slot) new) }
{
    if slot < SETS {
        for (j, value) in new.iter().enumerate() {
            VALUES.put(&mut *host, slot * SEMAPHORES + j, *value);
        }
    }
}

// The last process of a semaphore.
pub fn last_at(host: &[u8; HOST_BYTES], i: usize) -> u8
    ensures { result ≡ slice_index (row_in host.now lasts) i }
{
    LASTS.get(host, i)
}

// The last processes of a slot.
pub fn lasts_of(host: &[u8; HOST_BYTES], slot: usize) -> [u8; SEMAPHORES]
    ensures { result ≡ from 0 semaphores (row slot) (row_in host.now lasts) }
{
    eight_of(LASTS, host, slot)
}

// The process becomes the last of those semaphores of a slot that are in the mask.
pub fn put_lasts(host: &mut [u8; HOST_BYTES], slot: usize, mask: u8, process: u8)
    ensures { row_in host.new ≡ with (row_in host.old) lasts (masked mask process semaphores (row slot) (row_in host.old lasts)) }
{
    if slot < SETS {
        for j in 0..SEMAPHORES {
            let on = mask & (1u8 << j);
            if on != 0 {
                LASTS.put(&mut *host, slot * SEMAPHORES + j, process);
            }
        }
    }
}
