// A part of the service: the checks of each event, in the order in which they are asked. Each refuses with the first that
// applies.
//
// They read the row alone, so their promises hold whatever the adjustments are. Host, process and identifier stay parameters:
// each event is handed just these and asks once, so that a struct of them would be made for one call. That the row has its sleepers
// seated stands in the clauses, and in no type: the row is a program's own array, which C lends.
#![tactic(auto)]

ghost use Rattle.std.specs.Prelude.{◌≡◌, not, ◌||◌, List, ◌%◌, ◌<◌, eqb, ltb, leb, ℤ, IfOk};
ghost use Rattle.model.specs.Limits.{operation_bytes};
ghost use Rattle.model.specs.Refusal.{code_in};
ghost use Rattle.model.specs.Operation.{operations_of};
ghost use Rattle.model.specs.Permission.{owns as owns_it};
ghost use Rattle.model.specs.State.{caller_of};
ghost use Rattle.model.specs.Checks.{names_set, set_of, may as may_do, free_slot, check_caller, check_access, check_create, check_operate, check_query, check_set_value, check_set_all, check_remove, check_process, check_clock};
ghost use Rattle.judging.specs.Named.{named_within};
ghost use Rattle.host.specs.Parts.{row_in};
ghost use Rattle.host.specs.Holding.{sets_in, host_in, state_in};
ghost use Rattle.service_queue.specs.Seated.{Seated};
ghost use Rattle.service_checks.specs.Found.{slot_found};

use host::{HOST_BYTES, caller_of, set_at, time_of};
use judging::{all_in_range, check_array, in_range, owns, permits, slot_of};
use model::{
    ALTER, ARRAY_BYTES, MODE_MAX, OPERATION_BYTES, PROCESSES, READ, Refusal, SEMAPHORES, SETS,
    TIME_MAX, VALUE_BYTES,
};
use service_queue::is_asleep;

// Is the number not one of 1 to `most`?
fn beyond(number: u8, most: usize) -> bool
    ensures { result ≡ (eqb number 0 || ltb most number) }
{
    number == 0 || most < number as usize
}

// Are these bytes no array of operations, being none or no multiple of an operation's?
fn no_array(size: usize) -> bool
    ensures { result ≡ (eqb size 0 || not (eqb (size % operation_bytes) 0)) }
{
    size == 0 || size % OPERATION_BYTES != 0
}

// Does an identifier name a live set?
fn names_set(host: &[u8; HOST_BYTES], identifier: i32) -> bool
    ensures { result ≡ names_set (sets_in (row_in host.now)) identifier }
{
    let Ok(identifier) = usize::try_from(identifier) else {
        return false;
    };
    let set = set_at(host, identifier % SETS);
    if set.count == 0 {
        return false;
    }
    set.generation as usize == identifier / SETS
}

// The lowest free slot.
pub fn free_slot(host: &[u8; HOST_BYTES]) -> Option<usize>
    ensures { result ≡ slot_found (free_slot (sets_in (row_in host.now))) }
{
    (0..SETS).find(|&slot| set_at(host, slot).count == 0)
}

// Every event that names a caller: a process, and awake.
pub fn check_caller(host: &[u8; HOST_BYTES], process: u8) -> Result<(), Refusal>
    requires { Seated (row_in host.now) }
    ensures { (a : List ℤ) → code_in result ≡ check_caller (state_in (host_in host.now a)) process }
{
    check_process(process)?;
    if is_asleep(host, process) {
        Err(Refusal::Asleep)
    } else {
        Ok(())
    }
}

// May the process do this with the set in the identifier's slot?
fn may(host: &[u8; HOST_BYTES], process: u8, identifier: i32, asked: u16) -> bool
    requires { 0 < process }
    ensures { (a : List ℤ) → result ≡ may_do (state_in (host_in host.now a)) process identifier asked }
{
    permits(
        caller_of(host, process),
        set_at(host, slot_of(identifier)),
        asked,
    )
}

// May it remove that set?
fn may_remove(host: &[u8; HOST_BYTES], process: u8, identifier: i32) -> bool
    requires { 0 < process }
    ensures { (a : List ℤ) → result ≡ owns_it (caller_of (state_in (host_in host.now a)).callers process) (set_of (state_in (host_in host.now a)) identifier) }
{
    owns(caller_of(host, process), set_at(host, slot_of(identifier)))
}

// What asks something of a set: read all and a whole set ask nothing else.
pub fn check_access(
    host: &[u8; HOST_BYTES],
    process: u8,
    identifier: i32,
    asked: u16,
) -> Result<(), Refusal>
    requires { Seated (row_in host.now) }
    ensures { (a : List ℤ) → code_in result ≡ check_access (state_in (host_in host.now a)) process identifier asked }
{
    check_caller(host, process)?;
    if !names_set(host, identifier) {
        return Err(Refusal::Invalid);
    }
    if may(host, process, identifier, asked) {
        Ok(())
    } else {
        Err(Refusal::NotPermitted)
    }
}

// Create: the slot that is to be the set's, the lowest free one.
pub fn check_create(
    host: &[u8; HOST_BYTES],
    process: u8,
    count: u8,
    mode: u16,
) -> Result<usize, Refusal>
    requires { Seated (row_in host.now) }
    ensures code_value { (a : List ℤ) → code_in result ≡ check_create (state_in (host_in host.now a)) process count mode }
    ensures slot_value { IfOk result (λ slot. slot ≡ free_slot (sets_in (row_in host.now))) }
{
    check_caller(host, process)?;
    if beyond(count, SEMAPHORES) || MODE_MAX < mode {
        return Err(Refusal::Invalid);
    }
    free_slot(host).ok_or(Refusal::NoSlot)
}

// Operate: the semaphores that the array names.
pub fn check_operate(
    host: &[u8; HOST_BYTES],
    process: u8,
    identifier: i32,
    bytes: &[u8],
) -> Result<u8, Refusal>
    requires { Seated (row_in host.now) }
    ensures code_value { (a : List ℤ) → code_in result ≡ check_operate (state_in (host_in host.now a)) process identifier bytes.now }
    ensures names_value { IfOk result (λ names. names ≡ named_within 0 (operations_of bytes.now)) }
{
    check_caller(host, process)?;
    if no_array(bytes.len()) {
        return Err(Refusal::Invalid);
    }
    if ARRAY_BYTES < bytes.len() {
        return Err(Refusal::TooLong);
    }
    if !names_set(host, identifier) {
        return Err(Refusal::Invalid);
    }
    let set = set_at(host, slot_of(identifier));
    let reads = may(host, process, identifier, READ);
    let alters = may(host, process, identifier, ALTER);
    check_array(set.count, reads, alters, bytes)
}

// Does the set in the identifier's slot lack a semaphore of this number?
fn lacks(host: &[u8; HOST_BYTES], identifier: i32, number: u16) -> bool
    ensures { (a : List ℤ) → result ≡ leb (set_of (state_in (host_in host.now a)) identifier).count number }
{
    let set = set_at(host, slot_of(identifier));
    set.count as u16 <= number
}

// Query.
pub fn check_query(
    host: &[u8; HOST_BYTES],
    process: u8,
    identifier: i32,
    number: u16,
) -> Result<(), Refusal>
    requires { Seated (row_in host.now) }
    ensures { (a : List ℤ) → code_in result ≡ check_query (state_in (host_in host.now a)) process identifier number }
{
    check_access(host, process, identifier, READ)?;
    if lacks(host, identifier, number) {
        Err(Refusal::Invalid)
    } else {
        Ok(())
    }
}

// Set value.
pub fn check_set_value(
    host: &[u8; HOST_BYTES],
    process: u8,
    identifier: i32,
    number: u16,
    value: i32,
) -> Result<(), Refusal>
    requires { Seated (row_in host.now) }
    ensures { (a : List ℤ) → code_in result ≡ check_set_value (state_in (host_in host.now a)) process identifier number value }
{
    check_access(host, process, identifier, ALTER)?;
    if lacks(host, identifier, number) {
        return Err(Refusal::Invalid);
    }
    if in_range(value) {
        Ok(())
    } else {
        Err(Refusal::OutOfRange)
    }
}

// Set all: as many values as the set has semaphores, then each in range.
pub fn check_set_all(
    host: &[u8; HOST_BYTES],
    process: u8,
    identifier: i32,
    bytes: &[u8],
) -> Result<(), Refusal>
    requires { Seated (row_in host.now) }
    ensures { (a : List ℤ) → code_in result ≡ check_set_all (state_in (host_in host.now a)) process identifier bytes.now }
{
    check_access(host, process, identifier, ALTER)?;
    let set = set_at(host, slot_of(identifier));
    if bytes.len() != VALUE_BYTES * (set.count as usize) {
        return Err(Refusal::Invalid);
    }
    if all_in_range(bytes) {
        Ok(())
    } else {
        Err(Refusal::OutOfRange)
    }
}

// Remove.
pub fn check_remove(host: &[u8; HOST_BYTES], process: u8, identifier: i32) -> Result<(), Refusal>
    requires { Seated (row_in host.now) }
    ensures { (a : List ℤ) → code_in result ≡ check_remove (state_in (host_in host.now a)) process identifier }
{
    check_caller(host, process)?;
    if !names_set(host, identifier) {
        return Err(Refusal::Invalid);
    }
    if may_remove(host, process, identifier) {
        Ok(())
    } else {
        Err(Refusal::NotOwner)
    }
}

// Signal and exit.
pub fn check_process(process: u8) -> Result<(), Refusal>
    ensures { code_in result ≡ check_process process }
{
    if beyond(process, PROCESSES) {
        Err(Refusal::NoProcess)
    } else {
        Ok(())
    }
}

// The clock: not before the last time told, and none later than the latest.
pub fn check_clock(host: &[u8; HOST_BYTES], time: u64) -> Result<(), Refusal>
    ensures { (a : List ℤ) → code_in result ≡ check_clock (state_in (host_in host.now a)) time }
{
    if time < time_of(host) || TIME_MAX < time {
        Err(Refusal::Invalid)
    } else {
        Ok(())
    }
}
