// Reads calls on a store's area from standard input, one a line, and writes a line for each: its refusal, 0 where it has none, and each buffer without the zeros at its end.
// Bytes are in hexadecimal, - where there are none; an answer is text. A line that begins with # is written as it is. The calls:
//     start SCHEMA RUN
//     transact REQUEST FRESH RECORDS_LENGTH ANSWER_LENGTH
//     mark LENGTH
//     put PLACE BYTES      bytes put into the area
//     lacking CALL         a call on an area that lacks its last byte
#![tactic(auto)]

ghost use Rattle.std.specs.Prelude.{◌≡◌, ◌/◌, ◌<◌, ◌≤◌, min, length};

use model::{STORE_BYTES, Status};
use programs::{put, put_hex, refusal_of, used};

// Bytes of a schema, a request and its fresh ids, of a call's records and of its answer, at most.
const SCHEMA: usize = 5000;

const REQUEST: usize = 9000;

const FRESH: usize = 300;

const RECORDS: usize = 26349;

const ANSWER: usize = 20000;

// Bytes of a mark, at most.
const MARK: usize = 20;

fn put_status(status: Status) {
    io::print_decimal(1, refusal_of(status).unwrap_or(0));
}

// A space and the bytes without the zeros at the end, - where there are none.
fn put_bytes(bytes: &[u8]) {
    match used(bytes) {
        [] => put(b" -"),
        bytes => {
            put(b" ");
            put_hex(bytes);
        }
    }
}

// A space and the text without the zeros at the end, - where there is none.
fn put_text(text: &[u8]) {
    match used(text) {
        [] => put(b" -"),
        text => {
            put(b" ");
            put(text);
        }
    }
}

// The first field of a line, and the fields after it.
fn cut(line: &[u8]) -> (&[u8], &[u8]) {
    match line.iter().position(|b| *b == b' ') {
        Some(n) => (&line[..n], &line[n + 1..]),
        None => (line, &[]),
    }
}

// The number of a digit, 0 for any other byte.
fn value_of(digit: u8) -> u8
    ensures { result < 16 }
{
    match digit {
        b'0'..=b'9' => digit - b'0',
        b'a'..=b'f' => 10 + (digit - b'a'),
        _ => 0,
    }
}

// The bytes that a field stands for, at the start of a buffer, as far as there is room.
fn bytes<'a>(field: &[u8], out: &'a mut [u8]) -> &'a [u8]
    ensures { length result.now ≡ min (length out.old) (length field.now / 2) }
{
    let n = out.len().min(field.len() / 2);
    let out = &mut out[..n];
    for (byte, pair) in out.iter_mut().zip(field.chunks_exact(2)) {
        if let [high, low] = pair {
            *byte = 16 * value_of(*high) + value_of(*low);
        }
    }
    out
}

// The number that a field stands for, or the largest.
fn number(field: &[u8]) -> u32 {
    field.iter().fold(0, |n: u32, digit| {
        n.saturating_mul(10)
            .saturating_add(u32::from(value_of(*digit)))
    })
}

// The number that a field stands for, or the most that it may be.
fn at_most(field: &[u8], most: usize) -> usize
    ensures { result ≤ most }
{
    most.min(number(field) as usize)
}

fn start(area: &mut [u8], fields: &[u8]) {
    let (schema, fields) = cut(fields);
    let (run, _) = cut(fields);
    let mut space = [0; SCHEMA];
    let status = store::start(area, bytes(schema, &mut space), number(run));
    put(b"start ");
    put_status(status);
}

// Records that a call has to write over.
fn old_records() -> [u8; RECORDS] {
    [255; RECORDS]
}

// An answer that a call has to write over.
fn old_answer() -> [u8; ANSWER] {
    [255; ANSWER]
}

// A request with its fresh ids on buffers of two lengths.
fn call(area: &mut [u8], request: &[u8], fresh: &[u8], lengths: &[u8]) {
    let (length, lengths) = cut(lengths);
    let mut records = old_records();
    let records = &mut records[..at_most(length, RECORDS)];
    let (length, _) = cut(lengths);
    let mut answer = old_answer();
    let answer = &mut answer[..at_most(length, ANSWER)];
    let status = store::transact(area, request, fresh, records, answer);
    put(b"transact ");
    put_status(status);
    put_text(answer);
    put_bytes(records);
}

// A request with its fresh ids, and the lengths of the buffers, which a call has to write over.
fn transact(area: &mut [u8], fields: &[u8]) {
    let (request, fields) = cut(fields);
    let (fresh, lengths) = cut(fields);
    let mut space = [0; REQUEST];
    let request = bytes(request, &mut space);
    let mut space = [0; FRESH];
    call(area, request, bytes(fresh, &mut space), lengths);
}

fn mark(area: &[u8], fields: &[u8]) {
    let (length, _) = cut(fields);
    let mut mark = [255; MARK];
    let mark = &mut mark[..at_most(length, MARK)];
    let status = store::mark(area, mark);
    put(b"mark ");
    put_status(status);
    put_bytes(mark);
}

// Bytes put at a place of the area, as far as it has room.
fn put_at(area: &mut [u8], fields: &[u8]) {
    let (place, fields) = cut(fields);
    let (field, _) = cut(fields);
    let at = at_most(place, area.len());
    let n = bytes(field, &mut area[at..]).len();
    put(b"put ");
    io::print_decimal(1, n as u64);
}

// One call, by its first letter.
fn one(area: &mut [u8], line: &[u8]) {
    let (_, fields) = cut(line);
    match line {
        [b's', ..] => start(area, fields),
        [b't', ..] => transact(area, fields),
        [b'm', ..] => mark(area, fields),
        _ => put(line),
    }
}

// A line: a call on the area, bytes put into it, or a call on it without its last byte.
fn line(area: &mut [u8; STORE_BYTES], line: &[u8]) {
    let (_, rest) = cut(line);
    match line {
        [b'p', ..] => put_at(area, rest),
        [b'l', ..] => one(&mut area[..STORE_BYTES - 1], rest),
        _ => one(area, line),
    }
}

// The lines, one after another.
fn each(lines: &[u8], area: &mut [u8; STORE_BYTES]) {
    for text in lines.split_inclusive(|b| *b == b'\n') {
        line(area, text.strip_suffix(b"\n").unwrap_or(text));
        put(b"\n");
    }
}

// Space for the lines.
fn space() -> [u8; 300000] {
    [0; 300000]
}

fn main() {
    let mut space = space();
    let n = io::read_full(0, &mut space);
    let mut area = [0; STORE_BYTES];
    each(&space[..n], &mut area);
}
