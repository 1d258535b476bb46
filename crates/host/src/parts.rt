// The table of the row's parts: where each begins, behind the one before it, and how many numbers of which type it has.
// specs/Parts.antt has its twin.
ghost use Rattle.std.specs.Prelude.{◌≡◌, ◌+◌, ◌*◌, ◌≤◌, slice_index};
ghost use Rattle.host.specs.Parts.{host_bytes, AtPlace, row_in, put};

use crate::bytes::Number;
use model::{ALL_BYTES, ALL_SEMAPHORES, PROCESSES, SETS};
use std::marker::PhantomData;

// A part: its place, how many numbers it has, and their type. That it lies within the row is asked in three contracts, and is no
// ghost field: a constant is checked against one only where it is passed, so each use would prove it as it does now.
#[derive(Clone, Copy)]
pub struct Part<T> {
    pub at: usize,
    pub count: usize,
    pub of: PhantomData<T>,
}

impl<T: Number> Part<T> {
    // The number at an index; 0 beyond the part.
    pub fn get(self, host: &[u8; HOST_BYTES], i: usize) -> T
        requires { self.at + T.WIDTH * self.count ≤ host_bytes }
        ensures { AtPlace self.at T.WIDTH self.count (λ p. T.value result ≡ slice_index (row_in host.now p) i) }
    {
        if i < self.count {
            T::read(host, self.at + T::WIDTH * i)
        } else {
            T::default()
        }
    }

    // The number at an index becomes another; none does beyond the part.
    pub fn put(self, host: &mut [u8; HOST_BYTES], i: usize, x: T)
        requires { self.at + T.WIDTH * self.count ≤ host_bytes }
        ensures { AtPlace self.at T.WIDTH self.count (λ p. row_in host.new ≡ put (row_in host.old) p i (T.value x)) }
    {
        if i < self.count {
            x.write(host, self.at + T::WIDTH * i);
        }
    }
}

// A part by its place and count. A macro, since no constant calls a function.
macro_rules! part {
    ($at:expr, $count:expr) => {
        Part {
            at: $at,
            count: $count,
            of: PhantomData,
        }
    };
}

// Of each slot: its generation, its number of semaphores, its owner and owning group, and its mode.
pub const GENERATIONS: Part<u16> = part!(0, SETS);

pub const COUNTS: Part<u8> = part!(GENERATIONS.at + 2 * SETS, SETS);

pub const OWNERS: Part<u32> = part!(COUNTS.at + SETS, SETS);

pub const OWNING_GROUPS: Part<u32> = part!(OWNERS.at + 4 * SETS, SETS);

pub const MODES: Part<u16> = part!(OWNING_GROUPS.at + 4 * SETS, SETS);

// Of each process: its user and its group.
pub const USERS: Part<u32> = part!(MODES.at + 2 * SETS, PROCESSES);

pub const GROUPS: Part<u32> = part!(USERS.at + 4 * PROCESSES, PROCESSES);

// Of each semaphore, by slot and number: its value and its last process.
pub const VALUES: Part<u16> = part!(GROUPS.at + 4 * PROCESSES, ALL_SEMAPHORES);

pub const LASTS: Part<u8> = part!(VALUES.at + 2 * ALL_SEMAPHORES, ALL_SEMAPHORES);

// The time last told.
pub const CLOCK: Part<u64> = part!(LASTS.at + ALL_SEMAPHORES, 1);

// How many sleep, and their processes, oldest first.
pub const ASLEEP: Part<u8> = part!(CLOCK.at + 8, 1);

pub const ORDER: Part<u8> = part!(ASLEEP.at + 1, PROCESSES);

// What a process sleeps with: the slot, the bytes of its array, the mask of the semaphores that the array names, the time
// when it went to sleep and its wait.
pub const SLEEPS: Part<u8> = part!(ORDER.at + PROCESSES, PROCESSES);

pub const SIZES: Part<u8> = part!(SLEEPS.at + PROCESSES, PROCESSES);

pub const NAMES: Part<u8> = part!(SIZES.at + PROCESSES, PROCESSES);

pub const STARTS: Part<u64> = part!(NAMES.at + PROCESSES, PROCESSES);

pub const WAITS: Part<u64> = part!(STARTS.at + 8 * PROCESSES, PROCESSES);

// The bytes of the arrays.
pub const ARRAYS: Part<u8> = part!(WAITS.at + 8 * PROCESSES, ALL_BYTES);

pub const HOST_BYTES: usize = ARRAYS.at + ALL_BYTES;
