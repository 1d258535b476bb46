// What a caller may do with a set, by its owner, its owning group and its mode.
ghost use Rattle.std.specs.Prelude.{◌≡◌};
ghost use Rattle.model.specs.Permission.{class_bits, permits as permits_to, owns as owns_it};

use model::{Caller, Set};

// The three bits that count for the caller: of one class alone, the first that fits.
fn class_bits(caller: Caller, set: Set) -> u16
    ensures { result ≡ class_bits caller set }
{
    if caller.user == set.owner {
        set.mode / 64 % 8
    } else if caller.group == set.group {
        set.mode / 8 % 8
    } else {
        set.mode % 8
    }
}

// May the caller do what is asked? User 0 may do all.
pub fn permits(caller: Caller, set: Set, asked: u16) -> bool
    ensures { result ≡ permits_to caller set asked }
{
    caller.user == 0 || class_bits(caller, set) & asked != 0
}

// May the caller remove the set?
pub fn owns(caller: Caller, set: Set) -> bool
    ensures { result ≡ owns_it caller set }
{
    caller.user == 0 || caller.user == set.owner
}
