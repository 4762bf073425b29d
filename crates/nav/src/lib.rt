// Values of a well-formed text, by position: kinds, items, members, integers.
#![tactic(auto)]

ghost use Rattle.std.specs.Prelude.{Ok};
ghost use Rattle.std.specs.Prelude.{◌≡◌, ◌≤◌, ◌-◌, length, get_or};
ghost use Rattle.model.specs.Scan.{between, end_or};
ghost use Rattle.model.specs.Json.{key_at, value_at, member_at};
ghost use Rattle.inner.specs.Positions.{Says, found_of, first_of, next_item, next_member, tree_at, kind_by, is_true};
ghost use Rattle.model.specs.Nav.{kind_of};
ghost use Rattle.nav.specs.Known.{next_after, KeyKnown};
ghost use Rattle.model.specs.Whole.{sized, plus_of, minus_of, whole_text, whole_of};

use model::{Kind, Next, Read, Whole};
use scan::{BRACE, BRACKET, DASH, DIGIT_0, LETTER_F, LETTER_N, LETTER_T, QUOTE};
use std::ops::ControlFlow;

// Characters as `peek` gives them.
const COMMA: u16 = b',' as u16;

const COLON: u16 = b':' as u16;

// The entry of the table, 0 past its end.
fn entry(ends: &[u16], at: usize) -> usize
    ensures { result ≡ get_or ends.now at 0 }
{
    if at < ends.len() {
        ends[at] as usize
    } else {
        0
    }
}

// Where the value that begins at `at` ends, from the table where that says so.
pub fn end_of(text: &[u8], ends: &[u16], at: usize) -> Read
    requires { Says text.now ends.now }
    ensures { result ≡ (value_at 12 text.now at).read }
{
    let e = entry(ends, at);
    if e == 0 {
        return json_reader::end_at(text, at);
    }
    Ok(e)
}

fn found(n: Next) -> Option<usize>
    ensures { result ≡ found_of n }
{
    match n {
        ControlFlow::Continue(e) => Some(e),
        ControlFlow::Break(_) => None,
    }
}

// The first item of the array or object at `at`.
pub fn first(text: &[u8], at: usize, opener: u8, close: u8) -> Option<usize>
    ensures { result ≡ first_of text.now opener close at }
{
    let i = scan::spaces(text, at);
    let b = scan::peek(text, i);
    let o = opener as u16;
    let c = close as u16;
    if b == o {
        let j = scan::spaces(text, i + 1);
        let d = scan::peek(text, j);
        if d == c {
            return None;
        }
        return Some(j);
    }
    None
}

// The place after the comma that follows what ends at e, if there is one.
fn next_after(text: &[u8], e: usize) -> Option<usize>
    ensures { result ≡ next_after text.now e }
{
    let i = scan::spaces(text, e);
    let b = scan::peek(text, i);
    if b == COMMA {
        return Some(i + 1);
    }
    None
}

// The item of an array after the one at `at`.
pub fn next_item(text: &[u8], ends: &[u16], at: usize) -> Option<usize>
    requires { Says text.now ends.now }
    ensures { result ≡ next_item text.now at }
{
    let e = entry(ends, at);
    if e == 0 {
        let r = json_reader::end_at(text, at);
        return found(scan::after(text, r, b']'));
    }
    next_after(text, e)
}

// Where the value of the member at `at` begins, where the table says where its name ends; else 0.
fn value_known(text: &[u8], ends: &[u16], at: usize) -> usize
    requires { Says text.now ends.now }
    ensures { KeyKnown text.now at result }
{
    let e = entry(ends, at);
    let i = scan::spaces(text, at);
    let b = scan::peek(text, i);
    if (e == 0) | (b != QUOTE) {
        return 0;
    }
    let j = scan::spaces(text, e);
    let c = scan::peek(text, j);
    if c == COLON {
        return j + 1;
    }
    0
}

// The end of the member at `at`.
fn member_end(text: &[u8], ends: &[u16], at: usize) -> Read
    requires { Says text.now ends.now }
    ensures { result ≡ (member_at (value_at 12 text.now) text.now at).read }
{
    let k = scan::key(text, at);
    let e = k?;
    end_of(text, ends, e)
}

// The member of an object after the one at `at`.
pub fn next_member(text: &[u8], ends: &[u16], at: usize) -> Option<usize>
    requires { Says text.now ends.now }
    ensures { result ≡ next_member text.now at }
{
    let v = value_known(text, ends, at);
    let e = entry(ends, v);
    if (v == 0) | (e == 0) {
        let r = member_end(text, ends, at);
        return found(scan::after(text, r, b'}'));
    }
    next_after(text, e)
}

// The same of a member whose value begins at v.
pub fn next_past(text: &[u8], ends: &[u16], at: usize, v: usize) -> Option<usize>
    requires says { Says text.now ends.now }
    requires at_value { (key_at text.now at).read ≡ Ok v }
    ensures { result ≡ next_member text.now at }
{
    let e = entry(ends, v);
    if e == 0 {
        return next_member(text, ends, at);
    }
    next_after(text, e)
}

// What a value is that begins with this byte.
fn kind_by(b: u16) -> Kind
    ensures { result ≡ kind_by b }
{
    if b == BRACKET {
        return Kind::Array;
    }
    if b == BRACE {
        return Kind::Object;
    }
    if b == QUOTE {
        return Kind::Text;
    }
    if b == LETTER_N {
        return Kind::Null;
    }
    if b == LETTER_T {
        return Kind::Truth;
    }
    if b == LETTER_F {
        return Kind::Truth;
    }
    Kind::Number
}

// What the value at `at` is.
pub fn kind_at(text: &[u8], at: usize) -> Kind
    ensures { result ≡ kind_of (tree_at text.now at) }
{
    let i = scan::spaces(text, at);
    kind_by(scan::peek(text, i))
}

// Whether the value at `at` is true.
pub fn truth_at(text: &[u8], at: usize) -> bool
    ensures { result ≡ is_true (tree_at text.now at) }
{
    let i = scan::spaces(text, at);
    let b = scan::peek(text, i);
    b == LETTER_T
}

// Where the value of the member at `at` begins.
pub fn member_value(text: &[u8], ends: &[u16], at: usize) -> usize
    requires { Says text.now ends.now }
    ensures { result ≡ end_or at (key_at text.now at).read }
{
    let v = value_known(text, ends, at);
    if v != 0 {
        return v;
    }
    let r = scan::key(text, at);
    match r {
        Ok(e) => e,
        Err(_) => at,
    }
}

// A digit's value: the byte less that of 0, or 0.
fn digit_value(b: u16) -> u64
    ensures { result ≡ b - 48 }
{
    if b < DIGIT_0 {
        return 0;
    }
    (b - DIGIT_0) as u64
}

// What the digits from `at` to `end` stand for.
fn digits_of(text: &[u8], at: usize, end: usize) -> Option<u64>
    requires { end ≤ length text.now }
    ensures { result ≡ sized 0 (between text.now at end) }
{
    let mut acc: u64 = 0;
    for i in at..end {
        let b = scan::peek(text, i);
        let d = scan::is_digit(b);
        if d {
            if 922337203685477580 < acc {
                return None;
            }
            acc = acc * 10 + digit_value(b);
        } else {
            return None;
        }
    }
    if 9223372036854775808 < acc {
        return None;
    }
    Some(acc)
}

fn plus(d: Option<u64>) -> Whole
    ensures { result ≡ plus_of d }
{
    match d {
        Some(m) => {
            if m < 9223372036854775808 {
                return Whole::Plus(m);
            }
            Whole::Other
        }
        None => Whole::Other,
    }
}

fn minus(d: Option<u64>) -> Whole
    ensures { result ≡ minus_of d }
{
    match d {
        Some(m) => {
            if m == 0 {
                return Whole::Plus(0);
            }
            Whole::Minus(m)
        }
        None => Whole::Other,
    }
}

// The integer that the text from `at` to `end` stands for.
fn whole_text(text: &[u8], at: usize, end: usize) -> Whole
    requires { end ≤ length text.now }
    ensures { result ≡ whole_text (between text.now at end) }
{
    if end <= at {
        return Whole::Other;
    }
    let b = scan::peek(text, at);
    if b == DASH {
        return minus(digits_of(text, at + 1, end));
    }
    plus(digits_of(text, at, end))
}

// The integer that the value at `at` is.
pub fn integer_at(text: &[u8], ends: &[u16], at: usize) -> Whole
    requires { Says text.now ends.now }
    ensures { result ≡ whole_of (tree_at text.now at) }
{
    let k = kind_at(text, at);
    let n = leaf::is_kind(k, Kind::Number);
    if n {
        let i = scan::spaces(text, at);
        let r = end_of(text, ends, at);
        let Ok(e) = r else {
            return Whole::Other;
        };
        return whole_text(text, i, e);
    }
    Whole::Other
}
