// An operation from its six bytes, little-endian: number, amount (signed), flags.
ghost use Rattle.std.specs.Prelude.{◌≡◌};
ghost use Rattle.model.specs.Operation.{operation_at, has_bit};

use model::{OPERATION_BYTES, Operation};

// The flags that count; other bits are ignored.
pub const IPC_NOWAIT: u16 = 2048;

pub const SEM_UNDO: u16 = 4096;

// The operation that the six bytes hold.
pub fn operation_of(bytes: &[u8; OPERATION_BYTES]) -> Operation
    ensures { result ≡ operation_at bytes.now 0 }
{
    let number = u16::from_le_bytes([bytes[0], bytes[1]]);
    let amount = i16::from_le_bytes([bytes[2], bytes[3]]);
    let flags = u16::from_le_bytes([bytes[4], bytes[5]]);
    Operation {
        number,
        amount,
        flags,
    }
}

// Is the bit on?
pub fn has(flags: u16, bit: u16) -> bool
    ensures { result ≡ has_bit flags bit }
{
    flags & bit != 0
}
