// A host at its start.
ghost use Rattle.std.specs.Prelude.{◌≡◌, replicate, pos};
ghost use Rattle.model.specs.Limits.{all_adjustments};
ghost use Rattle.model.specs.State.{fresh_state};
ghost use Rattle.host.specs.Parts.{row_in};
ghost use Rattle.host.specs.Holding.{host_of};

use crate::parts::HOST_BYTES;
use model::ALL_ADJUSTMENTS;

// Four free slots with every number 0, every user and group 0, and nobody asleep.
pub fn fresh() -> [u8; HOST_BYTES]
    ensures { row_in result ≡ (host_of fresh_state).row }
{
    [0u8; HOST_BYTES]
}

// "a fresh host has all 256 adjustments at zero"
pub fn no_adjustments() -> [i16; ALL_ADJUSTMENTS]
    ensures { result ≡ replicate all_adjustments (pos 0) }
{
    [0i16; ALL_ADJUSTMENTS]
}
