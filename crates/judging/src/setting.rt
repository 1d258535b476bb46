// The values of a setting, in the bytes that hold them: four each, little-endian and signed.
ghost use Rattle.std.specs.Prelude.{◌≡◌, get_or};
ghost use Rattle.model.specs.Checks.{all_in_range};
ghost use Rattle.model.specs.Values.{value_at, values_in};
ghost use Rattle.judging.specs.Value.{values_held};

use crate::identifier::{in_range, value_of};
use model::VALUE_BYTES;

// The value that the four bytes hold.
fn value_at(bytes: &[u8; VALUE_BYTES]) -> i32
    ensures { result ≡ value_at bytes.now 0 }
{
    i32::from_le_bytes(*bytes)
}

// Is every value 0 to 32,767?
pub fn all_in_range(bytes: &[u8]) -> bool
    ensures { result ≡ all_in_range (values_in bytes.now) }
{
    let (values, _) = bytes.as_chunks::<VALUE_BYTES>();
    values.iter().all(|value| in_range(value_at(value)))
}

// The i-th value as a semaphore holds it; 0 for one that is not in range, and behind the last.
pub fn value_in(bytes: &[u8], i: usize) -> u16
    ensures { result ≡ get_or (values_held (values_in bytes.now)) i 0 }
{
    let (values, _) = bytes.as_chunks::<VALUE_BYTES>();
    match values.get(i) {
        Some(value) => value_of(value_at(value)),
        None => 0,
    }
}
