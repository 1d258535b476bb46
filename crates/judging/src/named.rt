// The bit of a semaphore in a mask with one for each number of a set. A number is taken within a set.
ghost use Rattle.std.specs.Prelude.{◌≡◌};
ghost use Rattle.judging.specs.Named.{number_bit};

use model::SEMAPHORES;

pub fn number_bit(number: u16) -> u8
    ensures { result ≡ number_bit number }
{
    1u8 << (number % (SEMAPHORES as u16))
}
