// The service for programs in C and Rust: the archive libvairolent.a, whose functions have the platform's C convention.
//
// Each event is lent the parts of a host and hands them on to the service, where it wakes with the quick engine; what it
// promises is the service's own promise, with what is told as C has it (proofs/Calls.antt). So does a whole set, which is shown and
// wakes nobody: it has all that the event read all shows, and more. Nothing at run time asks for the premise `Held`: a caller in
// another language keeps it, by handing in the parts of `vairolent_fresh`, as the last event left them. The functions look alike and
// take their parts one by one: each is a symbol of C with C's arguments.
#![tactic(auto)]

ghost use Rattle.std.specs.Prelude.{◌≡◌, []};
ghost use Rattle.model.specs.State.{fresh_state};
ghost use Rattle.model.specs.Waking.{waker};
ghost use Rattle.model.specs.Events.{do_create, do_operate, do_set_value, do_remove, do_signal, do_exit, do_query, do_set_all, do_clock, do_act_as};
ghost use Rattle.model.specs.WholeSet.{query_set};
ghost use Rattle.model.specs.declared.Engine.TheVariants.{Quick};
ghost use Rattle.host.specs.Holding.{Held, host_in, host_of, state_in};
ghost use Rattle.wakings.specs.Wakings.{places_in, list_of};
ghost use Rattle.service.specs.After.{after_of, queried_of};
ghost use Rattle.vairolent.specs.Handed.{decided_of, report_of, wait_by, handed_in, handed_of};
ghost use Rattle.vairolent.specs.Limits.{the_limits};

use host::HOST_BYTES;
use model::{
    ALL_ADJUSTMENTS, Engine, MODE_MAX, OPERATIONS, PROCESSES, Position, Queried, QueriedSet,
    SEMAPHORES, SETS, Told, VALUE_MAX, WAKING_BYTES, Wait,
};

// What a caller keeps and lends: a host's row of bytes, its undo adjustments, and a list for the wakings of an event.
#[repr(C)]
#[derive(Clone, Copy)]
pub struct Fresh {
    pub row: [u8; HOST_BYTES],
    pub adjustments: [i16; ALL_ADJUSTMENTS],
    pub wakings: [u8; WAKING_BYTES],
}

// The operation that decided: whether there is one, and its position, 0 if there is none. C has no Option.
#[repr(C)]
#[derive(Clone, Copy)]
pub struct Decided {
    pub there: bool,
    pub at: u8,
}

// What an event tells.
#[repr(C)]
#[derive(Clone, Copy)]
pub struct Reported {
    pub code: i32,
    pub value: u32,
    pub looks: usize,
    pub woken: usize,
    pub position: Decided,
}

// What the archive was built for: the service's limits, and the sizes of a host's row and adjustments.
#[repr(C)]
#[derive(Clone, Copy)]
pub struct Limits {
    pub sets: usize,
    pub semaphores: usize,
    pub processes: usize,
    pub operations: usize,
    pub value_max: usize,
    pub mode_max: usize,
    pub row_bytes: usize,
    pub adjustments: usize,
}

#[unsafe(no_mangle)]
pub extern "C" fn vairolent_limits() -> Limits
    ensures { result ≡ the_limits }
{
    Limits {
        sets: SETS,
        semaphores: SEMAPHORES,
        processes: PROCESSES,
        operations: OPERATIONS,
        value_max: VALUE_MAX as usize,
        mode_max: MODE_MAX as usize,
        row_bytes: HOST_BYTES,
        adjustments: ALL_ADJUSTMENTS,
    }
}

#[unsafe(no_mangle)]
pub extern "C" fn vairolent_fresh() -> Fresh
    ensures adjustments_value { host_in result.row result.adjustments ≡ host_of fresh_state }
    ensures wakings_value { places_in result.wakings ≡ list_of [] }
{
    Fresh {
        row: host::fresh(),
        adjustments: host::no_adjustments(),
        wakings: [0u8; WAKING_BYTES],
    }
}

// The operation that decided, as C has it.
impl From<Position> for Decided {
    ghost from_gives = { λ p d. d ≡ decided_of p };

    fn from(position: Position) -> Decided {
        Decided {
            there: position.is_some(),
            at: position.unwrap_or(0),
        }
    }
}

// What an event tells, as C has it.
impl From<Told> for Reported {
    ghost from_gives = { λ t r. r ≡ report_of t };

    fn from(told: Told) -> Reported {
        Reported {
            code: told.code,
            value: told.value,
            looks: told.looks,
            woken: told.woken,
            position: told.position.into(),
        }
    }
}

// A wait, as C hands it in: whether there is one, and its milliseconds.
fn wait_of(waits: bool, wait: u32) -> Wait
    ensures { result ≡ wait_by waits wait }
{
    waits.then_some(wait)
}

#[unsafe(no_mangle)]
pub extern "C" fn vairolent_create_in(
    row: &mut [u8; HOST_BYTES],
    adjustments: &mut [i16; ALL_ADJUSTMENTS],
    wakings: &mut [u8; WAKING_BYTES],
    process: u8,
    count: u8,
    mode: u16,
) -> Reported
    requires { Held (host_in row.old adjustments.old) }
    ensures { handed_in row.new adjustments.new wakings.new result ≡ handed_of (after_of (do_create (state_in (host_in row.old adjustments.old)) process count mode)) }
{
    service::create(row, adjustments, wakings, process, count, mode).into()
}

#[unsafe(no_mangle)]
pub extern "C" fn vairolent_operate_in(
    row: &mut [u8; HOST_BYTES],
    adjustments: &mut [i16; ALL_ADJUSTMENTS],
    wakings: &mut [u8; WAKING_BYTES],
    process: u8,
    identifier: i32,
    waits: bool,
    wait: u32,
    operations: &[u8],
) -> Reported
    requires { Held (host_in row.old adjustments.old) }
    ensures { handed_in row.new adjustments.new wakings.new result ≡ handed_of (after_of (do_operate (waker Quick) (state_in (host_in row.old adjustments.old)) process identifier (wait_by waits wait) operations.now)) }
{
    service::operate(
        row,
        adjustments,
        wakings,
        Engine::Quick,
        process,
        identifier,
        wait_of(waits, wait),
        operations,
    )
    .into()
}

#[unsafe(no_mangle)]
pub extern "C" fn vairolent_set_value_in(
    row: &mut [u8; HOST_BYTES],
    adjustments: &mut [i16; ALL_ADJUSTMENTS],
    wakings: &mut [u8; WAKING_BYTES],
    process: u8,
    identifier: i32,
    number: u16,
    value: i32,
) -> Reported
    requires { Held (host_in row.old adjustments.old) }
    ensures { handed_in row.new adjustments.new wakings.new result ≡ handed_of (after_of (do_set_value (waker Quick) (state_in (host_in row.old adjustments.old)) process identifier number value)) }
{
    service::set_value(
        row,
        adjustments,
        wakings,
        Engine::Quick,
        process,
        identifier,
        number,
        value,
    )
    .into()
}

#[unsafe(no_mangle)]
pub extern "C" fn vairolent_remove_in(
    row: &mut [u8; HOST_BYTES],
    adjustments: &mut [i16; ALL_ADJUSTMENTS],
    wakings: &mut [u8; WAKING_BYTES],
    process: u8,
    identifier: i32,
) -> Reported
    requires { Held (host_in row.old adjustments.old) }
    ensures { handed_in row.new adjustments.new wakings.new result ≡ handed_of (after_of (do_remove (state_in (host_in row.old adjustments.old)) process identifier)) }
{
    service::remove(row, adjustments, wakings, process, identifier).into()
}

#[unsafe(no_mangle)]
pub extern "C" fn vairolent_signal_in(
    row: &mut [u8; HOST_BYTES],
    adjustments: &mut [i16; ALL_ADJUSTMENTS],
    wakings: &mut [u8; WAKING_BYTES],
    process: u8,
) -> Reported
    requires { Held (host_in row.old adjustments.old) }
    ensures { handed_in row.new adjustments.new wakings.new result ≡ handed_of (after_of (do_signal (state_in (host_in row.old adjustments.old)) process)) }
{
    service::signal(row, adjustments, wakings, process).into()
}

#[unsafe(no_mangle)]
pub extern "C" fn vairolent_exit_in(
    row: &mut [u8; HOST_BYTES],
    adjustments: &mut [i16; ALL_ADJUSTMENTS],
    wakings: &mut [u8; WAKING_BYTES],
    process: u8,
) -> Reported
    requires { Held (host_in row.old adjustments.old) }
    ensures { handed_in row.new adjustments.new wakings.new result ≡ handed_of (after_of (do_exit (waker Quick) (state_in (host_in row.old adjustments.old)) process)) }
{
    service::exit(row, adjustments, wakings, Engine::Quick, process).into()
}

// The values stand in the bytes that are lent, four each, little-endian and signed, as a run file has them.
#[unsafe(no_mangle)]
pub extern "C" fn vairolent_set_all_in(
    row: &mut [u8; HOST_BYTES],
    adjustments: &mut [i16; ALL_ADJUSTMENTS],
    wakings: &mut [u8; WAKING_BYTES],
    process: u8,
    identifier: i32,
    values: &[u8],
) -> Reported
    requires { Held (host_in row.old adjustments.old) }
    ensures { handed_in row.new adjustments.new wakings.new result ≡ handed_of (after_of (do_set_all (waker Quick) (state_in (host_in row.old adjustments.old)) process identifier values.now)) }
{
    service::set_all(
        row,
        adjustments,
        wakings,
        Engine::Quick,
        process,
        identifier,
        values,
    )
    .into()
}

#[unsafe(no_mangle)]
pub extern "C" fn vairolent_clock_in(
    row: &mut [u8; HOST_BYTES],
    adjustments: &mut [i16; ALL_ADJUSTMENTS],
    wakings: &mut [u8; WAKING_BYTES],
    time: u64,
) -> Reported
    requires { Held (host_in row.old adjustments.old) }
    ensures { handed_in row.new adjustments.new wakings.new result ≡ handed_of (after_of (do_clock (state_in (host_in row.old adjustments.old)) time)) }
{
    service::clock(row, adjustments, wakings, time).into()
}

#[unsafe(no_mangle)]
pub extern "C" fn vairolent_act_as_in(
    row: &mut [u8; HOST_BYTES],
    adjustments: &mut [i16; ALL_ADJUSTMENTS],
    wakings: &mut [u8; WAKING_BYTES],
    process: u8,
    user: u32,
    group: u32,
) -> Reported
    requires { Held (host_in row.old adjustments.old) }
    ensures { handed_in row.new adjustments.new wakings.new result ≡ handed_of (after_of (do_act_as (state_in (host_in row.old adjustments.old)) process user group)) }
{
    service::act_as(row, adjustments, wakings, process, user, group).into()
}

#[unsafe(no_mangle)]
pub extern "C" fn vairolent_query_in(
    row: &[u8; HOST_BYTES],
    adjustments: &[i16; ALL_ADJUSTMENTS],
    process: u8,
    identifier: i32,
    number: u16,
) -> Queried
    requires { Held (host_in row.now adjustments.now) }
    ensures { result ≡ queried_of (do_query (state_in (host_in row.now adjustments.now)) process identifier number) }
{
    service::query(row, adjustments, process, identifier, number)
}

#[unsafe(no_mangle)]
pub extern "C" fn vairolent_query_set_in(
    row: &[u8; HOST_BYTES],
    adjustments: &[i16; ALL_ADJUSTMENTS],
    process: u8,
    identifier: i32,
) -> QueriedSet
    requires { Held (host_in row.now adjustments.now) }
    ensures { result ≡ query_set (state_in (host_in row.now adjustments.now)) process identifier }
{
    service::query_set(row, adjustments, process, identifier)
}
