// The eleven events, each in its own file, and what they tell. What is lent stands apart in each: C lends it so (`vairolent_create_in`).
ghost use Rattle.std.specs.Prelude.{◌≡◌, ◌%◌, pos};
ghost use Rattle.model.specs.Refusal.{errno_of};
ghost use Rattle.model.specs.Judge.{code_of, decided_at};
ghost use Rattle.service.specs.After.{telling_at, telling};

use judging::decided;
use model::{Outcome, Refusal, Told};
use service_waking::Tally;

pub mod act_as;
pub mod clock;
pub mod create;
pub mod exit;
pub mod operate;
pub mod query;
pub mod read_all;
pub mod remove;
pub mod set_all;
pub mod set_value;
pub mod signal;

// The code of errno.h for a sleeper that is interrupted.
const EINTR: u8 = 4;

// What an event tells that is refused. Each event has one check and returns early once: an inner function for `?` would repeat its
// whole signature. No `From`: `Told` is the crate model's, and `telling`, which says what it tells, is this one's.
fn refused(refusal: Refusal) -> Told
    ensures { result ≡ telling (pos (errno_of refusal)) 0 0 0 }
{
    Told {
        code: i32::from(refusal),
        ..Told::default()
    }
}

// What an event tells that is done and wakes nobody.
fn done(value: u32) -> Told
    ensures { result ≡ telling (pos 0) value 0 0 }
{
    Told {
        value,
        ..Told::default()
    }
}

// The code of an outcome: 0, -1 for a call that sleeps, EAGAIN, or ERANGE.
fn code_of(outcome: Outcome) -> i32
    ensures { result ≡ code_of outcome }
{
    match outcome {
        Outcome::Done => 0,
        Outcome::Sleep => -1,
        Outcome::Again => 11,
        Outcome::Range => 34,
    }
}

// What an operate tells whose array is not done: its code, and the operation that decided.
fn not_done(outcome: Outcome, position: usize) -> Told
    ensures { result ≡ telling_at (code_of outcome) (decided_at outcome (position % 256)) 0 0 0 }
{
    Told {
        position: decided(outcome, position),
        code: code_of(outcome),
        ..Told::default()
    }
}

// What an event tells that is done, behind a waking.
fn told(tally: Tally) -> Told
    ensures { result ≡ telling (pos 0) 0 tally.looks tally.woken }
{
    Told {
        looks: tally.looks,
        woken: tally.woken,
        ..Told::default()
    }
}
