// The sets, by slot.
ghost use Rattle.std.specs.Prelude.{◌≡◌};
ghost use Rattle.host.specs.Parts.{row_in};
ghost use Rattle.host.specs.Holding.{set_at, with_set};

use crate::parts::{COUNTS, GENERATIONS, HOST_BYTES, MODES, OWNERS, OWNING_GROUPS};
use model::Set;

// The set in a slot; beyond the slots, a free one.
pub fn set_at(host: &[u8; HOST_BYTES], slot: usize) -> Set
    ensures { result ≡ set_at (row_in host.now) slot }
{
    Set {
        generation: GENERATIONS.get(host, slot),
        count: COUNTS.get(host, slot),
        owner: OWNERS.get(host, slot),
        group: OWNING_GROUPS.get(host, slot),
        mode: MODES.get(host, slot),
    }
}

// A slot holds this set.
pub fn put_set(host: &mut [u8; HOST_BYTES], slot: usize, set: Set)
    ensures { row_in host.new ≡ with_set (row_in host.old) slot set }
{
    GENERATIONS.put(&mut *host, slot, set.generation);
    COUNTS.put(&mut *host, slot, set.count);
    OWNERS.put(&mut *host, slot, set.owner);
    OWNING_GROUPS.put(&mut *host, slot, set.group);
    MODES.put(host, slot, set.mode);
}
