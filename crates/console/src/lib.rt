// Replays a run file onto standard output.
#![tactic(auto)]

ghost use Rattle.std.specs.Prelude.{◌≡◌};
ghost use Rattle.host.specs.Holding.{host_in};
ghost use Rattle.replaying.specs.Replay.{stage_in, last_stage};

use host::{HOST_BYTES, fresh, no_adjustments};
use model::{ALL_ADJUSTMENTS, Engine};
use replaying::{Progress, piece, start};

// The file descriptor of standard output.
const STANDARD_OUTPUT: i32 = 1;

// Writes the text of a file, in large pieces, and answers the progress behind all of its events. Whatever the host held, it
// begins as a fresh one and is left as the last event left it. Behind a write that fails or takes nothing no other is made,
// so that what was written is a beginning of the text, with no hole in it; the events run on to the last all the same.
pub fn print(
    host: &mut [u8; HOST_BYTES],
    adjustments: &mut [i16; ALL_ADJUSTMENTS],
    engine: Engine,
    file: &[u8],
) -> Progress
    ensures { stage_in (host_in host.new adjustments.new) result ≡ last_stage engine file.now }
{
    *host = fresh();
    *adjustments = no_adjustments();
    let mut out = io::large_buffer();
    let mut progress = start(file, &mut out);
    let mut whole = io::write_all(STANDARD_OUTPUT, &out[..progress.written]);
    while 0 < progress.left {
        progress = piece(
            &mut *host,
            &mut *adjustments,
            engine,
            file,
            progress,
            &mut out,
        );
        whole = whole && io::write_all(STANDARD_OUTPUT, &out[..progress.written]);
    }
    progress
}
