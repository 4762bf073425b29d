// Reads texts from standard input, each after its length in two bytes, and writes a line for each: where reading ended, and what was read.
#![tactic(auto)]

ghost use Rattle.std.specs.Prelude.{◌≡◌, true, ◌≤◌, length};
ghost use Rattle.model.specs.Json.{text_at};
ghost use Rattle.inner.specs.Positions.{Says, well_at};

use model::{Kind, Read, ReadError, Whole};
use programs::{Texts, put, put_hex};

fn put_number(n: usize) {
    io::print_decimal(1, n as u64);
}

// A string's bytes, and its length in characters.
fn put_string(s: &[u8], n: usize) {
    put(b"s");
    put_hex(s);
    put(b":");
    put_number(n);
}

// The string at `at`.
fn show_string(text: &[u8], scratch: &mut [u8], at: usize)
    requires { length text.now ≤ length scratch.old }
{
    let p = text::string_at(text, at, scratch);
    let s = text::bytes(text, scratch, p);
    let n = text::chars_at(text, at);
    put_string(s, n);
}

// The number at `at`, or x where it is no integer.
fn show_number(text: &[u8], ends: &[u16], at: usize)
    requires { Says text.now ends.now }
{
    match nav::integer_at(text, ends, at) {
        Whole::Plus(m) => {
            put(b"+");
            io::print_decimal(1, m);
        }
        Whole::Minus(m) => {
            put(b"-");
            io::print_decimal(1, m);
        }
        Whole::Other => put(b"x"),
    }
}

// The value at `at`, of an array or object the bracket alone.
fn show(text: &[u8], ends: &[u16], scratch: &mut [u8], at: usize)
    requires says { Says text.now ends.now }
    requires text_in_bounds { length text.now ≤ length scratch.old }
{
    match nav::kind_at(text, at) {
        Kind::Null => put(b"n"),
        Kind::Truth => put(if nav::truth_at(text, at) { b"t" } else { b"f" }),
        Kind::Number => show_number(text, ends, at),
        Kind::Text => show_string(text, scratch, at),
        Kind::Array => put(b"["),
        Kind::Object => put(b"{"),
    }
}

// An item.
fn show_item(text: &[u8], ends: &[u16], scratch: &mut [u8], at: usize)
    requires says { Says text.now ends.now }
    requires text_in_bounds { length text.now ≤ length scratch.old }
{
    put(b" ");
    show(text, ends, scratch, at);
}

// A member: its name and its value.
fn show_member(text: &[u8], ends: &[u16], scratch: &mut [u8], at: usize)
    requires says { Says text.now ends.now }
    requires text_in_bounds { length text.now ≤ length scratch.old }
{
    put(b" ");
    show(text, ends, scratch, at);
    put(b"=");
    let v = nav::member_value(text, ends, at);
    show(text, ends, scratch, v);
}

// The items of the value at `at`.
fn show_items(text: &[u8], ends: &[u16], scratch: &mut [u8], at: usize)
    requires says { Says text.now ends.now }
    requires text_in_bounds { length text.now ≤ length scratch.old }
{
    let mut next = nav::first(text, at, b'[', b']');
    while let Some(p) = next {
        show_item(text, ends, scratch, p);
        next = nav::next_item(text, ends, p);
    }
}

// The members of the value at `at`.
fn show_members(text: &[u8], ends: &[u16], scratch: &mut [u8], at: usize)
    requires says { Says text.now ends.now }
    requires text_in_bounds { length text.now ≤ length scratch.old }
{
    let mut next = nav::first(text, at, b'{', b'}');
    while let Some(p) = next {
        show_member(text, ends, scratch, p);
        next = nav::next_member(text, ends, p);
    }
}

// The value of the last member "a", if there is one.
fn show_found(text: &[u8], ends: &[u16], scratch: &mut [u8])
    requires says { Says text.now ends.now }
    requires text_in_bounds { length text.now ≤ length scratch.old }
    requires text_value { well_at text.now 0 ≡ true }
{
    if let Some(p) = text::find(text, ends, 0, b"a") {
        put(b" a:");
        show(text, ends, scratch, p);
    }
}

// What stands at 0.
fn show_all(text: &[u8], ends: &[u16], scratch: &mut [u8])
    requires says { Says text.now ends.now }
    requires text_in_bounds { length text.now ≤ length scratch.old }
{
    show(text, ends, scratch, 0);
    show_items(text, ends, scratch, 0);
    show_members(text, ends, scratch, 0);
}

// What reading gave.
fn report(text: &[u8], ends: &[u16], scratch: &mut [u8], r: Read)
    requires says { Says text.now ends.now }
    requires text_in_bounds { length text.now ≤ length scratch.old }
    requires r_value { r ≡ (text_at text.now).read }
{
    match r {
        Ok(e) => {
            put(b"end ");
            put_number(e);
            put(b" ");
            show_all(text, ends, scratch);
            show_found(text, ends, scratch);
        }
        Err(ReadError::Stop(e)) => {
            put(b"stop ");
            put_number(e);
        }
        Err(ReadError::Deep(e)) => {
            put(b"deep ");
            put_number(e);
        }
    }
}

// A line for a text.
fn line(text: &[u8], ends: &mut [u16], scratch: &mut [u8])
    requires { length text.now ≤ length scratch.old }
{
    let r = json_reader::document(text, ends);
    report(text, ends, scratch, r);
    put(b"\n");
}

// The texts, one after another, as far as each has room in `ends` and `scratch`.
fn lines(texts: &[u8], ends: &mut [u16], scratch: &mut [u8]) {
    for text in Texts(texts) {
        if text.len() > ends.len() || text.len() > scratch.len() {
            return;
        }
        line(text, &mut ends[..text.len()], scratch);
    }
}

fn main() {
    let mut space = io::large_buffer();
    let n = io::read_full(0, &mut space);
    let mut ends = [0u16; 8192];
    let mut scratch = [0u8; 8192];
    lines(&space[..n], &mut ends, &mut scratch);
}
