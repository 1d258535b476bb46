// Replays a run file: the file goes in, the text of its lines comes out, piece by piece.
//
// `start` checks the file and writes the first line; `piece` runs events on the host that it is lent and writes their lines
// while there is room for one more. Each promises one equation with its definition in specs/Replay.antt; proofs/Whole.antt
// has that the pieces put together are the whole text. The host's row and adjustments stand apart, as the service is lent them.
#![tactic(auto)]

ghost use Rattle.std.specs.Prelude.{◌≡◌, ◌+◌, ◌≤◌, length};
ghost use Rattle.model.specs.State.{fresh_state};
ghost use Rattle.host.specs.Holding.{host_in, host_of};
ghost use Rattle.wakings.specs.Wakings.{places_in};
ghost use Rattle.service.specs.After.{read_in};
ghost use Rattle.lines.specs.Buffer.{line_bytes, put_line};
ghost use Rattle.replaying.specs.Replay.{Came, stage_in, wrote_in, begun, piece_of, reply_text};

use host::HOST_BYTES;
use lines::{bad_line, has_room, head_line, query_line, read_line, told_line};
use model::{ALL_ADJUSTMENTS, ALL_READ, Engine, Reply, WAKING_BYTES};
use service::run;

// How far a replay has come: the position of the next event, how many are left, and where the next body begins; and how
// many bytes of the buffer were written on the way here. The host stands beside it, and the caller keeps it.
#[derive(Clone, Copy)]
pub struct Progress {
    pub position: usize,
    pub left: usize,
    pub at: usize,
    pub written: usize,
}

// The first line: how many events there are, or the code of a refused file, of which nothing is left to run. The host that
// goes with the progress is a fresh one.
pub fn start(file: &[u8], out: &mut [u8]) -> Progress
    ensures out_after { wrote_in (host_of fresh_state) result out.new ≡ begun file.now out.old }
    ensures written_in_bounds { result.written ≤ length out.new }
{
    let (left, written) = match runfile::check(file) {
        Ok(()) => {
            let events = runfile::count(file);
            (events, head_line(out, 0, events))
        }
        Err(bad) => (0, bad_line(out, 0, u16::from(bad))),
    };
    Progress {
        position: 0,
        left,
        at: runfile::HEAD_BYTES + runfile::ENTRY_BYTES * left,
        written,
    }
}

// The line of an event's reply, with the wakings in the list that the event was lent, and the numbers of a reading.
fn reply_line(
    out: &mut [u8],
    at: usize,
    position: usize,
    reply: Reply,
    wakings: &[u8; WAKING_BYTES],
    numbers: &[u32; ALL_READ],
) -> usize
    ensures out_after { (result, out.new) ≡ put_line out.old at (reply_text position (places_in wakings.now) (read_in numbers.now reply) reply) }
    ensures upper_bound { result ≤ at + line_bytes }
{
    match reply {
        Reply::Told(told) => told_line(out, at, position, told, wakings),
        Reply::Seen(answer) => query_line(out, at, position, answer),
        Reply::Read(reading) => read_line(out, at, position, reading, numbers),
    }
}

// Runs events and writes their lines.
pub fn piece(
    host: &mut [u8; HOST_BYTES],
    adjustments: &mut [i16; ALL_ADJUSTMENTS],
    engine: Engine,
    file: &[u8],
    p: Progress,
    out: &mut [u8],
) -> Progress
    requires { Came file.now (stage_in (host_in host.old adjustments.old) p) }
    ensures out_after { wrote_in (host_in host.new adjustments.new) result out.new ≡ piece_of engine file.now (stage_in (host_in host.old adjustments.old) p) out.old }
    ensures written_in_bounds { result.written ≤ length out.new }
{
    let mut wakings = [0u8; WAKING_BYTES];
    let mut numbers = [0u32; ALL_READ];
    let mut progress = Progress { written: 0, ..p };
    while 0 < progress.left && has_room(out.len(), progress.written) {
        let handed = runfile::handed_at(file, progress.at);
        let size = runfile::size_at(file, progress.at);
        let event = runfile::event_at(file, progress.at);
        let reply = run(
            &mut *host,
            &mut *adjustments,
            &mut wakings,
            &mut numbers,
            engine,
            event,
            handed,
        );
        progress.written = reply_line(
            out,
            progress.written,
            progress.position,
            reply,
            &wakings,
            &numbers,
        );
        progress.at += size;
        progress.position += 1;
        progress.left -= 1;
    }
    progress
}
