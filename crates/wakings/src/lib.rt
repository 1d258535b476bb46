// The wakings of an event, in the list of bytes that it is lent: eight places of four bytes, a process, its code, whether an
// operation decided (1, else 0), and its position.
//
// Each function asks nothing of its caller and promises one equation of specs/Wakings.antt. An event clears its list,
// notes whom it wakes, one place behind the other, and tells how many they are; proofs/ListLaws.antt has that the list
// then is that of its wakings. It is bytes, and a code is a byte, for the C interface: there the list is an array of
// `struct vairolent_waking`, four bytes each, and the functions of the archive take those 32 bytes as they lie.
#![tactic(auto)]

ghost use Rattle.std.specs.Prelude.{◌≡◌, [], get_or, set, pos};
ghost use Rattle.model.specs.Waking.{waking};
ghost use Rattle.wakings.specs.Wakings.{places_in, place_at, place_of, waking_in, no_waking, list_of};

use model::{ONE_WAKING, PROCESSES, Position, WAKING_BYTES};

// Empties every place.
pub fn clear(list: &mut [u8; WAKING_BYTES])
    ensures { places_in list.new ≡ list_of [] }
{
    *list = [0u8; WAKING_BYTES];
}

// Writes a waking to a place; beyond the last nothing is written.
pub fn note(list: &mut [u8; WAKING_BYTES], count: usize, process: u8, code: u8, position: Position)
    ensures { places_in list.new ≡ set (places_in list.old) count (place_of (waking process (pos code) position)) }
{
    let all: &mut [u8] = list;
    if count < PROCESSES {
        let at = ONE_WAKING * count;
        all[at] = process;
        all[at + 1] = code;
        all[at + 2] = position.is_some() as u8;
        all[at + 3] = position.unwrap_or(0);
    }
}

// The four bytes of a place; zeros beyond the last, as an empty place has them.
fn place_at(list: &[u8; WAKING_BYTES], at: usize) -> [u8; ONE_WAKING]
    ensures { place_at result 0 ≡ get_or (places_in list.now) at no_waking }
{
    let (places, _) = list.as_chunks::<ONE_WAKING>();
    places.get(at).copied().unwrap_or([0; ONE_WAKING])
}

// The process at a place, 0 beyond the last.
pub fn process_of(list: &[u8; WAKING_BYTES], at: usize) -> u8
    ensures { result ≡ (waking_in (get_or (places_in list.now) at no_waking)).process }
{
    place_at(list, at)[0]
}

// The code at a place, 0 beyond the last.
pub fn code_of(list: &[u8; WAKING_BYTES], at: usize) -> u8
    ensures { pos result ≡ (waking_in (get_or (places_in list.now) at no_waking)).code }
{
    place_at(list, at)[1]
}

// The operation that decided, of the waking at a place; none beyond the last.
pub fn position_of(list: &[u8; WAKING_BYTES], at: usize) -> Position
    ensures { result ≡ (waking_in (get_or (places_in list.now) at no_waking)).position }
{
    let [_, _, decided, position] = place_at(list, at);
    if decided != 0 { Some(position) } else { None }
}
