// The bodies: the kinds with their sizes, and the size, the check and the event of a body.
//
// A new kind is a variant of `Kind`, with its number in `try_from`, its bytes in `layout`, and an arm in `event_in`.
// What it means is in specs/Body.antt and specs/Kinds.antt, and it is an event of the crate model.
ghost use Rattle.std.specs.Prelude.{◌≡◌, ◌<◌, ◌≤◌, pos};
ghost use Rattle.model.specs.Events.{event_of};
ghost use Rattle.model.specs.Limits.{operation_bytes};
ghost use Rattle.runfile.specs.Body.{fixed_of, each_of, kind_in, handed_in, event_in, size_at, body_code, event_at, handed_at};
ghost use Rattle.runfile.specs.Kinds.{number_of, Names, PartsOrNone, SizeOrNone};
ghost use Rattle.runfile.specs.File.{code_in};

use crate::bad_file::BadFile;
use crate::fields::{byte_at, bytes_at, first, rest};
use model::{Event, OPERATION_BYTES, VALUE_BYTES};

// What a body is. An operate with a wait is a kind of its own.
#[derive(Clone, Copy, Debug, PartialEq, Eq)]
enum Kind {
    Create,
    Operate,
    SetValue,
    Remove,
    Signal,
    Exit,
    Query,
    OperateWithin,
    Clock,
    SetAll,
    ReadAll,
    ActAs,
}

// The kind by the number that a body begins with.
impl TryFrom<u8> for Kind {
    type Error = BadFile;

    ghost try_from_gives = { Names };

    fn try_from(number: u8) -> Result<Kind, BadFile> {
        match number {
            1 => Ok(Kind::Create),
            2 => Ok(Kind::Operate),
            3 => Ok(Kind::SetValue),
            4 => Ok(Kind::Remove),
            5 => Ok(Kind::Signal),
            6 => Ok(Kind::Exit),
            7 => Ok(Kind::Query),
            8 => Ok(Kind::OperateWithin),
            9 => Ok(Kind::Clock),
            10 => Ok(Kind::SetAll),
            11 => Ok(Kind::ReadAll),
            12 => Ok(Kind::ActAs),
            _ => Err(BadFile::UnknownKind),
        }
    }
}

impl Kind {
    // The bytes of a body before its operations or values, and of each of these, 0 of a kind that has none.
    #[tactic(auto, unfolding(crate::specs::Body::fixed_of, crate::specs::Body::each_of))]
    fn layout(self) -> (usize, usize)
        ensures by_number { (result.0 ≡ fixed_of (number_of self)) × (result.1 ≡ each_of (number_of self)) }
        ensures bounds { (0 < result.0) × (result.0 ≤ 12) × (result.1 ≤ operation_bytes) }
    {
        match self {
            Kind::Create => (5, 0),
            Kind::Operate => (7, OPERATION_BYTES),
            Kind::SetValue => (12, 0),
            Kind::Remove => (6, 0),
            Kind::Signal => (2, 0),
            Kind::Exit => (2, 0),
            Kind::Query => (8, 0),
            Kind::OperateWithin => (11, OPERATION_BYTES),
            Kind::Clock => (9, 0),
            Kind::SetAll => (7, VALUE_BYTES),
            Kind::ReadAll => (6, 0),
            Kind::ActAs => (10, 0),
        }
    }
}

// The kind of the body that some bytes begin with.
fn kind_in(body: &[u8]) -> Result<Kind, BadFile>
    ensures { Names (kind_in body.now) result }
{
    Kind::try_from(byte_at(body, 0))
}

// The bytes of such a body before its operations or values, and of all of these: their number is the byte before the first.
fn parts_in(body: &[u8]) -> Result<(usize, usize), BadFile>
    ensures { PartsOrNone body.now result }
{
    let (fixed, each) = kind_in(body)?.layout();
    Ok((fixed, each * (byte_at(body, fixed - 1) as usize)))
}

// The bytes that are due to such a body.
fn size_in(body: &[u8]) -> Result<usize, BadFile>
    ensures { SizeOrNone body.now result }
{
    let (fixed, items) = parts_in(body)?;
    Ok(fixed + items)
}

// The bytes that are due to the body at a position, 0 if there is no such kind. `size_at` of specs/Body.antt holds the 0: a walk
// adds what it answers, and no good file has such a kind.
pub fn size_at(file: &[u8], at: usize) -> usize
    ensures { result ≡ size_at file.now at }
{
    size_in(rest(file, at)).unwrap_or(0)
}

// Checks a body at a position, of so many bytes.
pub fn check_body(file: &[u8], at: usize, size: usize) -> Result<(), BadFile>
    ensures { code_in result ≡ body_code file.now at size }
{
    if size == 0 {
        return Err(BadFile::Size);
    }
    let due = size_in(rest(file, at))?;
    if size == due {
        Ok(())
    } else {
        Err(BadFile::Size)
    }
}

// What stands for the event of an unknown kind, which no good file has: `event_at` promises an event of any bytes.
fn no_event() -> Event
    ensures { result ≡ Event.Query 0 (pos 0) 0 }
{
    Event::Query {
        process: 0,
        identifier: 0,
        number: 0,
    }
}

// The event of a body of a kind. The operations of an operate, or the values of a setting, stand beside it.
fn event_in(body: &[u8], kind: Kind) -> Event
    requires { number_of kind ≡ kind_in body.now }
    ensures { event_of result (handed_in body.now) ≡ event_in body.now }
{
    // These two only some kinds have.
    let process = byte_at(body, 1);
    let identifier = i32::from_le_bytes(bytes_at(body, 2));
    match kind {
        Kind::Create => Event::Create {
            process,
            count: byte_at(body, 2),
            mode: u16::from_le_bytes(bytes_at(body, 3)),
        },
        Kind::Operate => Event::Operate {
            process,
            identifier,
            wait: None,
        },
        Kind::SetValue => Event::SetValue {
            process,
            identifier,
            number: u16::from_le_bytes(bytes_at(body, 6)),
            value: i32::from_le_bytes(bytes_at(body, 8)),
        },
        Kind::Remove => Event::Remove {
            process,
            identifier,
        },
        Kind::Signal => Event::Signal { process },
        Kind::Exit => Event::Exit { process },
        Kind::Query => Event::Query {
            process,
            identifier,
            number: u16::from_le_bytes(bytes_at(body, 6)),
        },
        Kind::OperateWithin => Event::Operate {
            process,
            identifier,
            wait: Some(u32::from_le_bytes(bytes_at(body, 6))),
        },
        Kind::Clock => Event::Clock {
            time: u64::from_le_bytes(bytes_at(body, 1)),
        },
        Kind::SetAll => Event::SetAll {
            process,
            identifier,
        },
        Kind::ReadAll => Event::ReadAll {
            process,
            identifier,
        },
        Kind::ActAs => Event::ActAs {
            process,
            user: u32::from_le_bytes(bytes_at(body, 2)),
            group: u32::from_le_bytes(bytes_at(body, 6)),
        },
    }
}

// The event of the body at a position.
pub fn event_at(file: &[u8], at: usize) -> Event
    ensures { event_of result (handed_at file.now at) ≡ event_at file.now at }
{
    let body = rest(file, at);
    match kind_in(body) {
        Ok(kind) => event_in(body, kind),
        Err(_) => no_event(),
    }
}

// The bytes that stand beside the event of the body at a position, as far as the file goes: the operations of an operate, the
// values of a setting, none of another kind. They are a part of the file.
pub fn handed_at(file: &[u8], at: usize) -> &[u8]
    ensures { result.now ≡ handed_at file.now at }
{
    let body = rest(file, at);
    match parts_in(body) {
        Ok((fixed, items)) => first(rest(body, fixed), items),
        Err(_) => first(body, 0),
    }
}
