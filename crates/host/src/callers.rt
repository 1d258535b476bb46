// Who asks: the user and the group of each process.
ghost use Rattle.std.specs.Prelude.{◌≡◌};
ghost use Rattle.host.specs.Parts.{row_in};
ghost use Rattle.host.specs.Holding.{caller_in, with_caller_at};

use crate::parts::{GROUPS, HOST_BYTES, USERS};
use crate::sleepers::entry_of;
use model::Caller;

// The user and the group of a process; both 0 of no process.
pub fn caller_of(host: &[u8; HOST_BYTES], process: u8) -> Caller
    ensures { result ≡ caller_in (row_in host.now) process }
{
    let i = entry_of(process);
    Caller {
        user: USERS.get(host, i),
        group: GROUPS.get(host, i),
    }
}

// A process gets this user and this group.
pub fn put_caller(host: &mut [u8; HOST_BYTES], process: u8, caller: Caller)
    ensures { row_in host.new ≡ with_caller_at (row_in host.old) process caller }
{
    let i = entry_of(process);
    USERS.put(&mut *host, i, caller.user);
    GROUPS.put(host, i, caller.group);
}
