// A JSON text by RFC 4627 read once: where it ends, or where it stops being one, and where each value in it ends.
#![tactic(auto)]

ghost use Rattle.std.specs.Prelude.{◌≡◌, ◌≤◌};
ghost use Rattle.model.specs.Json.{value_at, array_at, member_at, object_at, text_at};
ghost use Rattle.inner.specs.Positions.{Says};
ghost use Rattle.json_reader.specs.Table.{noted};

use model::{Open, Read, ReadError};
use scan::{BRACE_END, BRACKET_END};
use std::ops::ControlFlow;

// Arrays and objects inside one another, at most.
pub const LEVELS: usize = 12;

// Keeps where what begins at `at` ended.
#[tactic(auto, unfolding(crate::specs::Table::noted))]
fn note(ends: &mut [u16], at: usize, r: Read)
    ensures { ends.new ≡ noted ends.old at r }
{
    if let Ok(e) = r
        && e < 65536
        && at < ends.len()
    {
        ends[at] = e as u16;
    }
}

// A value from `at` on, after white space; `levels` more arrays and objects may be opened.
#[cycle(array_member_object_opened_value)]
pub fn value(text: &[u8], ends: &mut [u16], at: usize, levels: usize) -> Read
    requires levels_bound { levels ≤ 12 }
    requires says { Says text.now ends.old }
    ensures value { result ≡ (value_at levels text.now at).read }
    ensures says_2 { Says text.now ends.new }
{
    let r = opened(text, ends, at, levels);
    note(ends, at, r);
    r
}

// The same, before its end is kept.
#[cycle(array_member_object_opened_value)]
fn opened(text: &[u8], ends: &mut [u16], at: usize, levels: usize) -> Read
    requires levels_bound { levels ≤ 12 }
    requires says { Says text.now ends.old }
    ensures value { result ≡ (value_at levels text.now at).read }
    ensures says_2 { Says text.now ends.new }
{
    let i = scan::spaces(text, at);
    let k = scan::opening_at(text, i);
    match k {
        Open::Scalar => scan::scalar(text, i),
        Open::Array => {
            if levels == 0 {
                return Err(ReadError::Deep(i));
            }
            array(text, ends, i + 1, levels - 1)
        }
        Open::Object => {
            if levels == 0 {
                return Err(ReadError::Deep(i));
            }
            object(text, ends, i + 1, levels - 1)
        }
    }
}

// The rest of an array whose bracket stands before `at`; `levels` more may be opened inside it.
#[cycle(array_member_object_opened_value)]
fn array(text: &[u8], ends: &mut [u16], at: usize, levels: usize) -> Read
    requires levels_bound { levels ≤ 12 }
    requires says { Says text.now ends.old }
    ensures value { result ≡ (array_at (value_at levels text.now) text.now at).read }
    ensures says_2 { Says text.now ends.new }
{
    let j = scan::spaces(text, at);
    let b = scan::peek(text, j);
    if b == BRACKET_END {
        return Ok(j + 1);
    }
    let mut i = j;
    for k in 0..text.len() {
        let r = value(text, ends, i, levels);
        let n = scan::after(text, r, b']');
        match n {
            ControlFlow::Continue(e) => {
                i = e;
            }
            ControlFlow::Break(d) => return d,
        }
    }
    Err(ReadError::Stop(i))
}

// A member of an object; where its name ends is kept at the member's place.
#[cycle(array_member_object_opened_value)]
fn member(text: &[u8], ends: &mut [u16], at: usize, levels: usize) -> Read
    requires levels_bound { levels ≤ 12 }
    requires says { Says text.now ends.old }
    ensures value { result ≡ (member_at (value_at levels text.now) text.now at).read }
    ensures says_2 { Says text.now ends.new }
{
    let i = scan::spaces(text, at);
    let name = scan::string(text, i);
    note(ends, at, name);
    let r = scan::colon(text, name);
    let e = r?;
    value(text, ends, e, levels)
}

// The rest of an object whose brace stands before `at`; `levels` more may be opened inside it.
#[cycle(array_member_object_opened_value)]
fn object(text: &[u8], ends: &mut [u16], at: usize, levels: usize) -> Read
    requires levels_bound { levels ≤ 12 }
    requires says { Says text.now ends.old }
    ensures value { result ≡ (object_at (value_at levels text.now) text.now at).read }
    ensures says_2 { Says text.now ends.new }
{
    let j = scan::spaces(text, at);
    let b = scan::peek(text, j);
    if b == BRACE_END {
        return Ok(j + 1);
    }
    let mut i = j;
    for k in 0..text.len() {
        let r = member(text, ends, i, levels);
        let n = scan::after(text, r, b'}');
        match n {
            ControlFlow::Continue(e) => {
                i = e;
            }
            ControlFlow::Break(d) => return d,
        }
    }
    Err(ReadError::Stop(i))
}

// Where the value at `at` ends, with nothing kept.
pub fn end_at(text: &[u8], at: usize) -> Read
    ensures { result ≡ (value_at 12 text.now at).read }
{
    let mut none = [0u16; 1];
    value(text, &mut none, at, LEVELS)
}

// A whole text: a value of at most so many levels, with white space around it.
pub fn document(text: &[u8], ends: &mut [u16]) -> Read
    ensures value { result ≡ (text_at text.now).read }
    ensures says { Says text.now ends.new }
{
    ends.fill(0);
    let v = value(text, ends, 0, LEVELS);
    let e = v?;
    let j = scan::spaces(text, e);
    if j == text.len() {
        return Ok(j);
    }
    Err(ReadError::Stop(j))
}
