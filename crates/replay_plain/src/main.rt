// Replays a run file from standard input with the plain engine, and writes its lines on standard output.
#![tactic(auto)]

ghost use Rattle.std.specs.Prelude.{◌≡◌};
ghost use Rattle.model.specs.declared.Engine.TheVariants.{Plain};
ghost use Rattle.host.specs.Holding.{host_in};
ghost use Rattle.replaying.specs.Replay.{stage_in, last_stage};

use host::HOST_BYTES;
use model::{ALL_ADJUSTMENTS, Engine};
use replaying::Progress;

// The file descriptor of standard input.
const STANDARD_INPUT: i32 = 0;

// Replays a file with the plain engine: what the program is named for. The other program differs in the engine alone; one function of
// both would hand over what standard input holds, of which no contract speaks, and this promise is of any file.
fn plain(
    host: &mut [u8; HOST_BYTES],
    adjustments: &mut [i16; ALL_ADJUSTMENTS],
    file: &[u8],
) -> Progress
    ensures { stage_in (host_in host.new adjustments.new) result ≡ last_stage Plain file.now }
{
    console::print(host, adjustments, Engine::Plain, file)
}

// At most one byte more than the longest file is read: by it a longer one is noticed.
fn main() {
    let mut space = io::large_buffer();
    let read = io::read_full(STANDARD_INPUT, &mut space);
    let mut host = host::fresh();
    let mut adjustments = host::no_adjustments();
    plain(&mut host, &mut adjustments, &space[..read]);
}
