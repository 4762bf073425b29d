// Reads calls on a mirror's area from standard input, each after its length in two bytes, and writes a line for each: what it answers, and what the mirror tells then.
// A call's first byte says which: 1 a start (run, schema's text), 2 an arrival (its bytes), 3 a row (table, id), 4 a column (table, id, column),
// 5 a byte put into the area (where, in two bytes, and the byte), 6 all of these on an area that lacks its last byte.
#![tactic(auto)]

use model::{ID, MIRROR_BYTES, Status, VALUE_BYTES};
use programs::{Texts, put, put_hex, refusal_of, used};

// A status that is no refusal, in a word.
fn put_word(status: Status) {
    match status {
        Status::Repeat => put(b"repeat"),
        Status::Behind => put(b"behind"),
        Status::Heard => put(b"heard"),
        Status::Applied => put(b"applied"),
        _ => put(b"accepted"),
    }
}

// A status: the number of a refusal, or a word.
fn put_status(status: Status) {
    match refusal_of(status) {
        Some(number) => {
            io::print_decimal(1, number);
        }
        None => put_word(status),
    }
}

fn put_bit(b: bool) {
    put(if b { b" 1" } else { b" 0" });
}

// n, and whether the mirror is level.
fn tell(area: &[u8]) {
    let p = mirror::progress(area);
    put(b": ");
    put_status(p.status);
    put(b" ");
    io::print_decimal(1, u64::from(p.n));
    put_bit(p.level);
}

fn start(area: &mut [u8], body: &[u8]) {
    let Some((run, text)) = body.split_first_chunk() else {
        return;
    };
    let status = mirror::start(area, text, u32::from_be_bytes(*run));
    put(b"start ");
    put_status(status);
    tell(area);
}

fn hear(area: &mut [u8], body: &[u8]) {
    let status = mirror::hear(area, body);
    put(b"hear ");
    put_status(status);
    tell(area);
}

// The table and the id that a call begins with, and what comes behind them.
fn row_of(body: &[u8]) -> Option<(u8, &[u8; ID], &[u8])> {
    let (table, rest) = body.split_first()?;
    let (id, rest) = rest.split_first_chunk()?;
    Some((*table, id, rest))
}

fn row(area: &[u8], body: &[u8]) {
    let Some((table, id, _)) = row_of(body) else {
        return;
    };
    let p = mirror::has_row(area, table, id);
    put(b"row ");
    put_status(p.status);
    put_bit(p.there);
}

fn column(area: &[u8], body: &[u8]) {
    let Some((table, id, [column, ..])) = row_of(body) else {
        return;
    };
    let mut out = [255; VALUE_BYTES];
    let status = mirror::column(area, table, id, *column, &mut out);
    put(b"column ");
    put_status(status);
    put(b" ");
    put_hex(used(&out));
}

// A byte put at a place, if the area has that place.
fn spoil(area: &mut [u8], body: &[u8]) {
    let Some((at, [byte, ..])) = body.split_first_chunk() else {
        return;
    };
    if let Some(place) = area.get_mut(usize::from(u16::from_be_bytes(*at))) {
        *place = *byte;
    }
    put(b"put");
    tell(area);
}

// One call, by its first byte.
fn one(area: &mut [u8], call: &[u8]) {
    match call {
        [] => {}
        [1, body @ ..] => start(area, body),
        [2, body @ ..] => hear(area, body),
        [3, body @ ..] => row(area, body),
        [4, body @ ..] => column(area, body),
        [_, body @ ..] => spoil(area, body),
    }
}

// A call on the area, or on the area without its last byte where it begins with 6.
fn line(area: &mut [u8; MIRROR_BYTES], call: &[u8]) {
    match call {
        [6, call @ ..] => one(&mut area[..MIRROR_BYTES - 1], call),
        _ => one(area, call),
    }
}

// The calls, one after another.
fn lines(calls: &[u8], area: &mut [u8; MIRROR_BYTES]) {
    for call in Texts(calls) {
        line(area, call);
        put(b"\n");
    }
}

fn main() {
    let mut space = io::large_buffer();
    let n = io::read_full(0, &mut space);
    let mut area = [0; MIRROR_BYTES];
    lines(&space[..n], &mut area);
}
