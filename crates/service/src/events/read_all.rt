// Read all: the values of all semaphores of a set, and with each who waits there.
ghost use Rattle.std.specs.Prelude.{◌≡◌, ◌≤◌};
ghost use Rattle.std.proofs.lemmas.List.Edits.{sets};
ghost use Rattle.model.specs.Limits.{semaphores};
ghost use Rattle.model.specs.WholeSet.{reads_from};
ghost use Rattle.model.specs.Events.{numbers_of, do_read_all};
ghost use Rattle.host.specs.Holding.{Held, host_in, state_in};
ghost use Rattle.service.specs.After.{read_out};

use crate::whole_set::query_set;
use host::HOST_BYTES;
use model::{ALL_ADJUSTMENTS, ALL_READ, ONE_READ, Reading, SEMAPHORES};

// Writes of so many semaphores, one behind the other, the value, and how many wait for an increase and for zero.
fn put_numbers(
    numbers: &mut [u32; ALL_READ],
    count: u8,
    values: [u16; SEMAPHORES],
    increase: [u32; SEMAPHORES],
    zero: [u32; SEMAPHORES],
)
    requires { count ≤ semaphores }
    ensures { numbers.new ≡ sets numbers.old 0 (numbers_of (reads_from values increase zero 0 count)) }
{
    let all: &mut [u32] = numbers;
    // By index: three rows side by side go into every third place, which a chain of zips would hide.
    for n in 0..(count as usize) {
        let at = ONE_READ * n;
        all[at] = u32::from(values[n]);
        all[at + 1] = increase[n];
        all[at + 2] = zero[n];
    }
}

// One walk over the sleepers tells all of it. It changes nothing of the host.
pub fn read_all(
    host: &[u8; HOST_BYTES],
    adjustments: &[i16; ALL_ADJUSTMENTS],
    numbers: &mut [u32; ALL_READ],
    process: u8,
    identifier: i32,
) -> Reading
    requires { Held (host_in host.now adjustments.now) }
    ensures { (result, numbers.new) ≡ read_out numbers.old (do_read_all (state_in (host_in host.now adjustments.now)) process identifier) }
{
    let set = query_set(host, adjustments, process, identifier);
    let values = set.values;
    let increase = set.increase;
    let zero = set.zero;
    put_numbers(numbers, set.count, values, increase, zero);
    Reading {
        code: set.code,
        count: set.count,
    }
}
