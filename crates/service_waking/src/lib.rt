// A part of the service: the two waking rules, as labelled loops over the queue, on the host that is lent.
//
// A rule is lent the row, the adjustments and the list of wakings; it is handed the looks and wakings so far, and returns
// them. Its promise is one equation with the model's rule on the world that they hold. What is lent stands apart, and `Ready` in the
// clauses: C lends it apart, as `vairolent_operate_in` does.
#![tactic(auto)]

ghost use Rattle.std.specs.Prelude.{◌≡◌, ◌+◌, ◌≤◌, nat_abs, length, get_or};
ghost use Rattle.model.specs.Limits.{slots};
ghost use Rattle.model.specs.State.{no_sleeper};
ghost use Rattle.model.specs.Judge.{code_of};
ghost use Rattle.model.specs.Look.{after};
ghost use Rattle.model.specs.Waking.{finish as finished};
ghost use Rattle.model.specs.Marks.{bit_of, mark_touched};
ghost use Rattle.host.specs.Parts.{row_in};
ghost use Rattle.host.specs.Holding.{host_in, queue_in, table_in};
ghost use Rattle.host.specs.Queue.{QueueHeld};
ghost use Rattle.service_table.specs.Written.{tabled};
ghost use Rattle.service_waking.specs.Lent.{lent_in, world_in, lent_with, left_in, Ready, JudgedAs, Settleable, Finishable, plainly, quickly, treated, treated_from, looks_max};

use host::{
    HOST_BYTES, adjustments_of, array_of, asleep_of, names_at, process_at, set_at, slot_at,
    slot_byte, values_of,
};
use judging::{Verdict, decided, finishes, judge};
use model::{ALL_ADJUSTMENTS, Copies, Engine, Outcome, PROCESSES, SEMAPHORES, SETS, WAKING_BYTES};
use service_queue::take_out;
use service_table::{Process, Slot, apply, differing_mask};
use wakings::note;

// The looks and the wakings so far. That a rule begins with `looks_max` at most stands in its clause, and is no invariant: it may
// return more.
#[derive(Clone, Copy, Default)]
pub struct Tally {
    pub looks: usize,
    pub woken: usize,
}

// The bit of a process in a mask.
pub fn bit_of(process: Process) -> u8
    ensures { result ≡ bit_of process.number }
{
    1u8 << (process.number - 1)
}

// The code that a finished sleeper is told: 0, 11 or 34. It is a number, as the list of wakings has it for C,
// and no `From`: both types are of other crates.
fn ending(outcome: Outcome) -> u8
    ensures { result ≡ nat_abs (code_of outcome) }
{
    match outcome {
        Outcome::Done => 0,
        Outcome::Sleep => 1,
        Outcome::Again => 11,
        Outcome::Range => 34,
    }
}

// What a look told: the position where judging ended, of a done array the copies of the values and of the adjustments as it
// leaves them, of any other zeros, and the outcome. It stands last: behind its one byte the copies would be read across words,
// which takes longer. No `Option` of the copies: the outcome, which goes on in any case, tells whether they count.
#[derive(Clone, Copy)]
struct Looked {
    pub position: usize,
    pub copies: Copies,
    pub outcome: Outcome,
}

// A look at the sleeper at a position: its array judged on the present state.
fn look(host: &[u8; HOST_BYTES], adjustments: &[i16; ALL_ADJUSTMENTS], at: usize) -> Looked
    requires { Settleable (host_in host.now adjustments.now) at }
    ensures { JudgedAs (table_in (host_in host.now adjustments.now)) (get_or (queue_in (row_in host.now)) at no_sleeper) result.outcome result.position result.copies }
{
    let process = process_at(host, at);
    let slot = slot_at(host, process);
    let mut copies = Copies {
        values: values_of(host, slot),
        adjustments: adjustments_of(adjustments, process, slot),
    };
    let Verdict { outcome, position } = judge(&mut copies, array_of(host, process));
    match outcome {
        Outcome::Done => Looked {
            position,
            copies,
            outcome,
        },
        _ => Looked {
            position,
            copies: Copies {
                values: [0; SEMAPHORES],
                adjustments: [0; SEMAPHORES],
            },
            outcome,
        },
    }
}

// What judging the array of the sleeper at a position leaves of the table: it is applied if it is done.
fn settle(
    host: &mut [u8; HOST_BYTES],
    adjustments: &mut [i16; ALL_ADJUSTMENTS],
    at: usize,
    outcome: Outcome,
    copies: Copies,
)
    requires { Settleable (host_in host.old adjustments.old) at }
    ensures { host_in host.new adjustments.new ≡ tabled (host_in host.old adjustments.old) (after (table_in (host_in host.old adjustments.old)) (get_or (queue_in (row_in host.old)) at no_sleeper) outcome copies) }
{
    match outcome {
        Outcome::Done => {
            let process = process_at(&*host, at);
            let slot = slot_at(&*host, process);
            let mask = names_at(&*host, process);
            apply(host, adjustments, process, slot, mask, copies);
        }
        _ => {}
    }
}

// The sleeper at a position is finished as it was judged: its array is settled, its waking noted, and it is taken out.
fn finish(
    host: &mut [u8; HOST_BYTES],
    adjustments: &mut [i16; ALL_ADJUSTMENTS],
    wakings: &mut [u8; WAKING_BYTES],
    woken: usize,
    at: usize,
    looked: Looked,
)
    requires { Finishable (lent_in host.old adjustments.old wakings.old woken) at looked.outcome looked.position looked.copies }
    ensures { lent_in host.new adjustments.new wakings.new (woken + 1) ≡ lent_with (lent_in host.old adjustments.old wakings.old woken) (finished (world_in (lent_in host.old adjustments.old wakings.old woken)) at) }
{
    let process = process_at(&*host, at);
    let outcome = looked.outcome;
    settle(&mut *host, adjustments, at, outcome, looked.copies);
    let position = decided(outcome, looked.position);
    note(wakings, woken, process, ending(outcome), position);
    take_out(host, at);
}

// "at the first that is finished, take it out and begin again at the oldest": the round is left from inside its judging
// loop and started anew. It differs from the quick rule in no constant or type: that one passes over who has no mark, takes off
// the mark of who is looked at, marks anew behind each that it finishes, and ends where no mark is left.
fn wake_plain(
    host: &mut [u8; HOST_BYTES],
    adjustments: &mut [i16; ALL_ADJUSTMENTS],
    wakings: &mut [u8; WAKING_BYTES],
    slot: Slot,
    start: Tally,
) -> Tally
    requires ready { Ready (lent_in host.old adjustments.old wakings.old start.woken) }
    requires looks_le_looks_max { start.looks ≤ looks_max }
    ensures { left_in host.new adjustments.new wakings.new result ≡ plainly slot.index (lent_in host.old adjustments.old wakings.old start.woken) start.looks }
{
    let mut tally = start;
    'rounds: loop {
        let n = asleep_of(&*host);
        for i in 0..n {
            let process = process_at(&*host, i);
            if slot_at(&*host, process) == slot.index {
                tally.looks += 1;
                let looked = look(&*host, &*adjustments, i);
                let outcome = looked.outcome;
                if finishes(outcome) {
                    finish(
                        &mut *host,
                        &mut *adjustments,
                        &mut *wakings,
                        tally.woken,
                        i,
                        looked,
                    );
                    tally.woken += 1;
                    continue 'rounds;
                }
            }
        }
        return tally;
    }
}

// The marks, and those of the sleepers of a slot that name a touched semaphore. Counted from 0: a process's bit is so far up.
fn mark_touched(host: &[u8; HOST_BYTES], slot: Slot, touched: u8, marks: u8) -> u8
    requires { QueueHeld (row_in host.now) }
    ensures { result ≡ mark_touched slot.index touched marks (queue_in (row_in host.now)) }
{
    let wanted = (slot.index % 256) as u8;
    let mut m = marks;
    for n in 0..PROCESSES {
        let process = (n as u8) + 1;
        let here = (slot_byte(host, process) == wanted) as u8;
        let named = (names_at(host, process) & touched != 0) as u8;
        m = m | ((here & named) << n);
    }
    m
}

// "A round looks at marked sleepers only, oldest first, and each look takes the mark off. A sleeper that is finished marks
// those who name a semaphore whose value it changed, and a new round begins." Where no mark is left nobody is looked at, so a
// round ends there.
fn wake_quick(
    host: &mut [u8; HOST_BYTES],
    adjustments: &mut [i16; ALL_ADJUSTMENTS],
    wakings: &mut [u8; WAKING_BYTES],
    slot: Slot,
    first: u8,
    start: Tally,
) -> Tally
    requires ready { Ready (lent_in host.old adjustments.old wakings.old start.woken) }
    requires looks_le_looks_max { start.looks ≤ looks_max }
    ensures { left_in host.new adjustments.new wakings.new result ≡ quickly slot.index first (lent_in host.old adjustments.old wakings.old start.woken) start.looks }
{
    let mut tally = start;
    let mut marks = first;
    'rounds: loop {
        let n = asleep_of(&*host);
        for i in 0..n {
            if marks == 0 {
                break;
            }
            let process = process_at(&*host, i);
            let bit = bit_of(Process { number: process });
            let on = marks & bit;
            if on != 0 {
                if slot_at(&*host, process) == slot.index {
                    marks = marks ^ bit;
                    tally.looks += 1;
                    let looked = look(&*host, &*adjustments, i);
                    let outcome = looked.outcome;
                    if finishes(outcome) {
                        let before = values_of(&*host, slot.index);
                        finish(
                            &mut *host,
                            &mut *adjustments,
                            &mut *wakings,
                            tally.woken,
                            i,
                            looked,
                        );
                        tally.woken += 1;
                        let touched = differing_mask(before, values_of(&*host, slot.index));
                        marks = mark_touched(&*host, slot, touched, marks);
                        continue 'rounds;
                    }
                }
            }
        }
        return tally;
    }
}

// A set is treated by the engine's rule. Where nothing is touched nobody is marked, and the quick rule looks at nobody. The engine is
// a value, and no closure: the claim that both engines agree is over it (`waker`).
pub fn wake(
    host: &mut [u8; HOST_BYTES],
    adjustments: &mut [i16; ALL_ADJUSTMENTS],
    wakings: &mut [u8; WAKING_BYTES],
    engine: Engine,
    slot: Slot,
    touched: u8,
    start: Tally,
) -> Tally
    requires ready { Ready (lent_in host.old adjustments.old wakings.old start.woken) }
    requires looks_le_looks_max { start.looks ≤ looks_max }
    ensures { left_in host.new adjustments.new wakings.new result ≡ treated engine slot.index touched (lent_in host.old adjustments.old wakings.old start.woken) start.looks }
{
    match engine {
        Engine::Plain => wake_plain(host, adjustments, wakings, slot, start),
        Engine::Quick => {
            if touched == 0 {
                return start;
            }
            let marks = mark_touched(&*host, slot, touched, 0);
            wake_quick(host, adjustments, wakings, slot, marks, start)
        }
    }
}

// "every live set from slot 0 up"
pub fn wake_all(
    host: &mut [u8; HOST_BYTES],
    adjustments: &mut [i16; ALL_ADJUSTMENTS],
    wakings: &mut [u8; WAKING_BYTES],
    engine: Engine,
    touched: [u8; SETS],
) -> Tally
    requires ready { Ready (lent_in host.old adjustments.old wakings.old 0) }
    requires touched_len { length touched ≡ slots }
    ensures { left_in host.new adjustments.new wakings.new result ≡ treated_from engine 0 touched (lent_in host.old adjustments.old wakings.old 0) 0 }
{
    let mut tally = Tally::default();
    for (slot, mask) in touched.iter().enumerate() {
        let set = set_at(&*host, slot);
        if 0 < set.count {
            tally = wake(
                &mut *host,
                &mut *adjustments,
                &mut *wakings,
                engine,
                Slot { index: slot },
                *mask,
                tally,
            );
        }
    }
    tally
}
