// The time last told, in milliseconds.
ghost use Rattle.std.specs.Prelude.{◌≡◌};
ghost use Rattle.host.specs.Parts.{clock, row_in, put};
ghost use Rattle.host.specs.Holding.{time_in};

use crate::parts::{CLOCK, HOST_BYTES};

pub fn time_of(host: &[u8; HOST_BYTES]) -> u64
    ensures { result ≡ time_in (row_in host.now) }
{
    CLOCK.get(host, 0)
}

pub fn put_time(host: &mut [u8; HOST_BYTES], time: u64)
    ensures { row_in host.new ≡ put (row_in host.old) clock 0 time }
{
    CLOCK.put(host, 0, time);
}
