// What an event is, and what it answers: the data of the service, and its limits.
//
// The definitions that every promise cites stand in specs/, in the order of the rules they say; the laws about them,
// and the claim that the quick waking rule equals the plain one, in proofs/. What a host holds is the `State` of
// specs/State.antt; the crate `host` says where each number of it lies.
#![tactic(auto)]

ghost use Rattle.std.specs.Prelude.{◌≡◌, pos};
ghost use Rattle.model.specs.Refusal.{errno_of};

// The limits. Each has its twin in specs/Limits.antt.
pub const SETS: usize = 4;

pub const SEMAPHORES: usize = 8;

pub const PROCESSES: usize = 8;

pub const OPERATIONS: usize = 32;

pub const VALUE_MAX: u16 = 32767;

// The greatest mode: nine permission bits.
pub const MODE_MAX: u16 = 511;

// What is asked of a set, as a bit of the three that count for the caller: numbers, since `permits` answers for any of the three.
pub const READ: u16 = 4;

pub const ALTER: u16 = 2;

// The latest time that can be told, in milliseconds.
pub const TIME_MAX: u64 = 9223372036854775807;

// The bytes of one operation, and of the longest array.
pub const OPERATION_BYTES: usize = 6;

pub const ARRAY_BYTES: usize = OPERATION_BYTES * OPERATIONS;

// The bytes of one value of a setting.
pub const VALUE_BYTES: usize = 4;

// The numbers of a table: semaphores of all sets, and adjustments of all processes.
pub const ALL_SEMAPHORES: usize = SETS * SEMAPHORES;

pub const ALL_ADJUSTMENTS: usize = PROCESSES * ALL_SEMAPHORES;

pub const ALL_BYTES: usize = PROCESSES * ARRAY_BYTES;

// A waking in a list that an event is lent: a process, its code, whether an operation decided, and its position, one byte
// each; and the bytes of the whole list.
pub const ONE_WAKING: usize = 4;

pub const WAKING_BYTES: usize = ONE_WAKING * PROCESSES;

// Why the checks refuse an event, by the error of errno.h that its code stands for.
#[derive(Clone, Copy, PartialEq, Eq, Debug)]
pub enum Refusal {
    // EPERM: only the owner and user 0 may.
    NotOwner = 1,
    // ESRCH: no such process.
    NoProcess = 3,
    // E2BIG: an array of too many operations.
    TooLong = 7,
    // EACCES: the set's mode does not let the caller.
    NotPermitted = 13,
    // EBUSY: the process sleeps.
    Asleep = 16,
    // EINVAL: no live set, or a number out of bounds.
    Invalid = 22,
    // EFBIG: an operation's semaphore number is at or above the set's count.
    NumberTooHigh = 27,
    // ENOSPC: no slot is free.
    NoSlot = 28,
    // ERANGE: a value that no semaphore may have.
    OutOfRange = 34,
}

// The code that an event answers.
impl From<Refusal> for i32 {
    ghost from_gives = { λ refusal code. code ≡ pos (errno_of refusal) };

    fn from(refusal: Refusal) -> i32 {
        refusal as i32
    }
}

// A slot. `count` is the number of semaphores, 0 in a free slot; owner and group are its creator's, and the mode has nine
// permission bits.
#[derive(Clone, Copy, PartialEq, Eq, Debug)]
pub struct Set {
    pub generation: u16,
    pub count: u8,
    pub owner: u32,
    pub group: u32,
    pub mode: u16,
}

// Who asks: the user and the group number of a process.
#[derive(Clone, Copy, PartialEq, Eq, Debug)]
pub struct Caller {
    pub user: u32,
    pub group: u32,
}

// One operation of an array, decoded.
#[derive(Clone, Copy)]
pub struct Operation {
    pub number: u16,
    pub amount: i16,
    pub flags: u16,
}

// Why an amount makes no new value: it would be over 32,767, or the operation stops.
#[derive(Clone, Copy, PartialEq, Eq, Debug)]
pub enum Halt {
    Over,
    Stop,
}

// What judging an array comes to.
#[derive(Clone, Copy, PartialEq, Eq, Debug)]
pub enum Outcome {
    Done,
    Sleep,
    Again,
    Range,
}

// The operation that decided how an array was judged, by its position from 0; or that none did.
pub type Position = Option<u8>;

// The copy that an array is judged on: a set's values, and the caller's adjustments for them.
#[derive(Clone, Copy)]
pub struct Copies {
    pub values: [u16; SEMAPHORES],
    pub adjustments: [i16; SEMAPHORES],
}

// The outcome, the position of the operation that decided (the number of operations, if none did), and the copies: as the
// array leaves them if it is done, else as they were.
#[derive(Clone, Copy)]
pub struct Judged {
    pub outcome: Outcome,
    pub position: usize,
    pub copies: Copies,
}

// How long a call may sleep: so many milliseconds, or without end.
pub type Wait = Option<u32>;

// Which waking rule an event goes by.
#[derive(Clone, Copy, PartialEq, Eq, Debug)]
pub enum Engine {
    Plain,
    Quick,
}

// A sleeper that was ended, its code, and the operation that decided.
#[derive(Clone, Copy)]
pub struct Waking {
    pub process: u32,
    pub code: i32,
    pub position: Position,
}

// What a reading shows: of each semaphore of a set three numbers, its value and who waits there for an increase and for zero.
pub const ONE_READ: usize = 3;

pub const ALL_READ: usize = ONE_READ * SEMAPHORES;

// An event that is handed in, with the process that calls. The bytes of an operate's operations, or of a setting's values, stand
// beside it.
#[derive(Clone, Copy)]
pub enum Event {
    Create {
        process: u8,
        count: u8,
        mode: u16,
    },
    Operate {
        process: u8,
        identifier: i32,
        wait: Wait,
    },
    SetValue {
        process: u8,
        identifier: i32,
        number: u16,
        value: i32,
    },
    Remove {
        process: u8,
        identifier: i32,
    },
    Signal {
        process: u8,
    },
    Exit {
        process: u8,
    },
    Query {
        process: u8,
        identifier: i32,
        number: u16,
    },
    SetAll {
        process: u8,
        identifier: i32,
    },
    ReadAll {
        process: u8,
        identifier: i32,
    },
    Clock {
        time: u64,
    },
    ActAs {
        process: u8,
        user: u32,
        group: u32,
    },
}

// What an event tells, beside the wakings in the list that it was lent: the operation that decided, its code, its value, its
// looks, and how many it woke. The code is a number, since C has it so and a line is promised for every number.
#[derive(Clone, Copy, Default)]
pub struct Told {
    pub position: Position,
    pub code: i32,
    pub value: u32,
    pub looks: usize,
    pub woken: usize,
}

// What a query answers; its looks are 0 like those of every event that wakes nobody. The host stays as it is. The code is a number:
// C has it so.
#[repr(C)]
#[derive(Clone, Copy, Default)]
pub struct Queried {
    pub code: i32,
    pub value: u16,
    pub last: u8,
    pub increase: u32,
    pub zero: u32,
    pub increase_mask: u8,
    pub zero_mask: u8,
    pub looks: u32,
}

// What a whole set shows, by the number of a semaphore: of each its value, its last process, and who waits there, as a query
// of it says; 0 from the set's count on. `judged` is the number of arrays that were judged for it. Rows side by side: C has it so.
#[repr(C)]
#[derive(Clone, Copy)]
pub struct QueriedSet {
    pub code: i32,
    pub count: u8,
    pub judged: u32,
    pub values: [u16; SEMAPHORES],
    pub lasts: [u8; SEMAPHORES],
    pub increase: [u32; SEMAPHORES],
    pub zero: [u32; SEMAPHORES],
    pub increase_masks: [u8; SEMAPHORES],
    pub zero_masks: [u8; SEMAPHORES],
}

// What a reading answers: its code, and how many semaphores it shows. Their numbers stand in what it was lent for them. The code is
// a number, since `read_line` promises a line for every number.
#[derive(Clone, Copy)]
pub struct Reading {
    pub code: i32,
    pub count: u8,
}

// What any event answers.
#[derive(Clone, Copy)]
pub enum Reply {
    Told(Told),
    Seen(Queried),
    Read(Reading),
}
