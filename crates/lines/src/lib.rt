// Writes the output lines, byte by byte as specs/Text.antt says, into a lent buffer.
//
// A line goes to a position of the buffer, and the position behind it is the answer. Where less than LINE_BYTES are left, a
// line function changes nothing and answers the position it was given; proofs/Lengths.antt has that no line is longer. The public
// functions take buffer and position apart, as their callers hold them. Four begin and end alike: for a function from buffer and
// position to a Writer or None, the proof that at None the buffer is as before (RestsIfNone) did not close; a closure for what
// stands between would have its contract written at each call, which is no plainer.
#![tactic(auto)]

mod number;
mod writer;

ghost use Rattle.std.specs.Prelude.{◌≡◌, ◌+◌, ◌*◌, ◌≤◌, leb, length, take, pos};
ghost use Rattle.model.specs.Limits.{semaphores, processes};
ghost use Rattle.wakings.specs.Wakings.{places_in, wakings_in};
ghost use Rattle.lines.specs.Text.{word_line, head_line, bad_line, position_text, waking_text, wakings_text, opening_text, event_text, query_text, numbers_text, read_text};
ghost use Rattle.lines.specs.Buffer.{Wrote, put_line, line_bytes, position_bytes, waking_bytes, opening_bytes, number_bytes};

use crate::writer::Writer;
use itoa::Integer;
use model::{ALL_READ, ONE_READ, PROCESSES, Position, Queried, Reading, Told, WAKING_BYTES};

// The room that a line function asks for: that of a reading, which is the longest. It has an opening, three numbers of 32 bits for
// each of eight semaphores, and a newline.
const OPENING_BYTES: usize = usize::MAX_STR_LEN + 1 + i32::MAX_STR_LEN;

const NUMBER_BYTES: usize = 1 + u32::MAX_STR_LEN;

const LINE_BYTES: usize = OPENING_BYTES + ALL_READ * NUMBER_BYTES + 1;

// Is there room for any line, from a position of a buffer of so many bytes on?
pub fn has_room(len: usize, at: usize) -> bool
    ensures { result ≡ leb (at + line_bytes) len }
{
    LINE_BYTES <= len && at <= len - LINE_BYTES
}

// A word and a number.
fn worded(line: &mut Writer<'_>, word: &[u8], n: usize)
    requires room { line.old.at + line_bytes ≤ length line.old.out.now }
    requires short { length word.now ≤ 8 }
    ensures { Wrote line_bytes line.old (word_line word.now n) line.new }
{
    line.text(word);
    line.marked(b' ', n);
    line.byte(b'\n');
}

// A word and a number, where there is room for any line.
fn word_line(out: &mut [u8], at: usize, word: &[u8], n: usize) -> usize
    requires { length word.now ≤ 8 }
    ensures out_after { (result, out.new) ≡ put_line out.old at (word_line word.now n) }
    ensures upper_bound { result ≤ at + line_bytes }
{
    if !has_room(out.len(), at) {
        return at;
    }
    let mut line = Writer { out, at };
    worded(&mut line, word, n);
    line.at
}

// The line before those of the events.
pub fn head_line(out: &mut [u8], at: usize, n: usize) -> usize
    ensures out_after { (result, out.new) ≡ put_line out.old at (head_line n) }
    ensures upper_bound { result ≤ at + line_bytes }
{
    word_line(out, at, b"events", n)
}

// The one line of a refused file.
pub fn bad_line(out: &mut [u8], at: usize, code: u16) -> usize
    ensures out_after { (result, out.new) ≡ put_line out.old at (bad_line code) }
    ensures upper_bound { result ≤ at + line_bytes }
{
    word_line(out, at, b"bad", usize::from(code))
}

// What the line of any event begins with.
fn opening(line: &mut Writer<'_>, position: usize, code: i32)
    requires { line.old.at + opening_bytes ≤ length line.old.out.now }
    ensures { Wrote opening_bytes line.old (opening_text position code) line.new }
{
    line.number(position);
    line.marked(b' ', code);
}

// Writes which operation decided, behind its code; nothing where none did.
fn decided(line: &mut Writer<'_>, position: Position)
    requires { line.old.at + position_bytes ≤ length line.old.out.now }
    ensures { Wrote position_bytes line.old (position_text position) line.new }
{
    match position {
        None => {}
        Some(number) => line.marked(b'@', number),
    }
}

// Writes a waking as process=code, with the operation that decided, behind a blank.
fn woke(line: &mut Writer<'_>, process: u8, code: u8, position: Position)
    requires { line.old.at + waking_bytes ≤ length line.old.out.now }
    ensures { Wrote waking_bytes line.old (waking_text process (pos code) position) line.new }
{
    line.marked(b' ', process);
    line.marked(b'=', code);
    decided(line, position);
}

// Writes the first `count` wakings of a list, and no more than there are. It counts, since the readers of crates/wakings, which
// promise each field of a waking, take the number of its place.
fn all_woken(line: &mut Writer<'_>, count: usize, list: &[u8; WAKING_BYTES])
    requires { line.old.at + processes * waking_bytes ≤ length line.old.out.now }
    ensures { Wrote (processes * waking_bytes) line.old (wakings_text (wakings_in count (places_in list.now))) line.new }
{
    for k in 0..count.min(PROCESSES) {
        woke(
            line,
            wakings::process_of(list, k),
            wakings::code_of(list, k),
            wakings::position_of(list, k),
        );
    }
}

// The numbers that an event told, and its wakings.
fn all_told(line: &mut Writer<'_>, position: usize, told: Told, list: &[u8; WAKING_BYTES])
    requires { line.old.at + line_bytes ≤ length line.old.out.now }
    ensures { Wrote line_bytes line.old (event_text position told.code told.position told.value told.looks (wakings_in told.woken (places_in list.now))) line.new }
{
    opening(line, position, told.code);
    decided(line, told.position);
    line.marked(b' ', told.value);
    line.marked(b' ', told.looks);
    all_woken(line, told.woken, list);
    line.byte(b'\n');
}

// The line of any event but a query and a reading: what it told, and the wakings in the list that it was lent.
pub fn told_line(
    out: &mut [u8],
    at: usize,
    position: usize,
    told: Told,
    wakings: &[u8; WAKING_BYTES],
) -> usize
    ensures out_after { (result, out.new) ≡ put_line out.old at (event_text position told.code told.position told.value told.looks (wakings_in told.woken (places_in wakings.now))) }
    ensures upper_bound { result ≤ at + line_bytes }
{
    if !has_room(out.len(), at) {
        return at;
    }
    let mut line = Writer { out, at };
    all_told(&mut line, position, told, wakings);
    line.at
}

// The numbers of a query's line.
fn queried(line: &mut Writer<'_>, position: usize, q: Queried)
    requires { line.old.at + line_bytes ≤ length line.old.out.now }
    ensures { Wrote line_bytes line.old (query_text position q.code q.value q.last q.increase q.zero) line.new }
{
    opening(line, position, q.code);
    line.marked(b' ', q.value);
    line.marked(b' ', q.last);
    line.marked(b' ', q.increase);
    line.marked(b' ', q.zero);
    line.byte(b'\n');
}

// The line of a query.
pub fn query_line(out: &mut [u8], at: usize, position: usize, q: Queried) -> usize
    ensures out_after { (result, out.new) ≡ put_line out.old at (query_text position q.code q.value q.last q.increase q.zero) }
    ensures upper_bound { result ≤ at + line_bytes }
{
    if !has_room(out.len(), at) {
        return at;
    }
    let mut line = Writer { out, at };
    queried(&mut line, position, q);
    line.at
}

// Writes the first `count` numbers, and no more than there are, a blank before each.
fn all_numbers(line: &mut Writer<'_>, count: usize, numbers: &[u32; ALL_READ])
    requires { line.old.at + 3 * semaphores * number_bytes ≤ length line.old.out.now }
    ensures { Wrote (3 * semaphores * number_bytes) line.old (numbers_text (take count numbers.now)) line.new }
{
    for n in &numbers[..count.min(ALL_READ)] {
        line.marked(b' ', *n);
    }
}

// The numbers of a reading's line.
fn all_read(line: &mut Writer<'_>, position: usize, reading: Reading, numbers: &[u32; ALL_READ])
    requires { line.old.at + line_bytes ≤ length line.old.out.now }
    ensures { Wrote line_bytes line.old (read_text position reading.code (take (3 * reading.count) numbers.now)) line.new }
{
    opening(line, position, reading.code);
    all_numbers(line, ONE_READ * usize::from(reading.count), numbers);
    line.byte(b'\n');
}

// The line of a reading: its code, and three numbers for each semaphore that it shows, from what it was lent for them.
pub fn read_line(
    out: &mut [u8],
    at: usize,
    position: usize,
    reading: Reading,
    numbers: &[u32; ALL_READ],
) -> usize
    ensures out_after { (result, out.new) ≡ put_line out.old at (read_text position reading.code (take (3 * reading.count) numbers.now)) }
    ensures upper_bound { result ≤ at + line_bytes }
{
    if !has_room(out.len(), at) {
        return at;
    }
    let mut line = Writer { out, at };
    all_read(&mut line, position, reading, numbers);
    line.at
}
