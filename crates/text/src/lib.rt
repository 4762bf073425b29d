// Strings of a text: decoded, looked up, compared, counted.
#![tactic(auto)]

ghost use Rattle.std.specs.Prelude.{◌≡◌, [], ◌∷◌, true, cond, ◌+◌, ◌-◌, ◌*◌, ◌%◌, ◌≤◌, ◌<◌, length, take, drop, Some};
ghost use Rattle.model.specs.Scan.{byte, between, end_or};
ghost use Rattle.model.specs.Strings.{is_first_half, utf8, pair_of, char_bytes, body_at};
ghost use Rattle.model.specs.Octets.{eq_bytes};
ghost use Rattle.model.specs.Json.{key_at};
ghost use Rattle.inner.specs.Positions.{Says, tree_at, well_at};
ghost use Rattle.inner.specs.Positions.{word_in, quote_end, quote_from, escaped};
ghost use Rattle.model.specs.Text.{is_word, begins, chars};
ghost use Rattle.model.specs.Members.{members_in, has_member, member_value};
ghost use Rattle.inner.specs.Positions.{Means};
ghost use Rattle.text.specs.Push.{Pushed, count_of};
ghost use Rattle.text.specs.Units.{unit_or, unit_end, character_of, escape_bytes};
ghost use Rattle.text.specs.Match.{matched, Held};
ghost use Rattle.text.specs.Steps.{body_place, body_from, Inside, picked, Steps};

use model::Read;
use scan::{BACKSLASH, Hex, LETTER_U, QUOTE};
use std::ops::ControlFlow;

// One byte more.
fn push(out: &mut [u8], w: Option<usize>, b: u8) -> Option<usize>
    ensures { Pushed out.old w (b ∷ []) result out.new }
{
    match w {
        Some(o) => {
            if o < out.len() {
                out[o] = b;
                return Some(o + 1);
            }
            None
        }
        None => None,
    }
}

// A character of two bytes.
fn two(out: &mut [u8], w: Option<usize>, a: u8, b: u8) -> Option<usize>
    ensures { Pushed out.old w (a ∷ b ∷ []) result out.new }
{
    let x = push(out, w, a);
    push(out, x, b)
}

// The bytes of `text` from one position up to another.
fn copy(text: &[u8], from: usize, to: usize, out: &mut [u8], w: Option<usize>) -> Option<usize>
    requires { to ≤ length text.now }
    ensures { Pushed out.old w (between text.now from to) result out.new }
{
    let mut x = w;
    for i in from..to {
        x = push(out, x, text[i]);
    }
    x
}

fn three(out: &mut [u8], w: Option<usize>, a: u8, b: u8, c: u8) -> Option<usize>
    ensures { Pushed out.old w (a ∷ b ∷ c ∷ []) result out.new }
{
    let x = push(out, w, a);
    two(out, x, b, c)
}

fn four(out: &mut [u8], w: Option<usize>, a: u8, b: u8, c: u8, d: u8) -> Option<usize>
    ensures { Pushed out.old w (a ∷ b ∷ c ∷ d ∷ []) result out.new }
{
    let x = push(out, w, a);
    three(out, x, b, c, d)
}

// A character in UTF-8.
fn encode(v: u32, out: &mut [u8], w: Option<usize>) -> Option<usize>
    requires { v < 1114112 }
    ensures { Pushed out.old w (utf8 v) result out.new }
{
    if v < 128 {
        return push(out, w, v as u8);
    }
    if v < 2048 {
        return two(out, w, (192 + v / 64) as u8, (128 + v % 64) as u8);
    }
    if v < 65536 {
        return three(
            out,
            w,
            (224 + v / 4096) as u8,
            (128 + v / 64 % 64) as u8,
            (128 + v % 64) as u8,
        );
    }
    four(
        out,
        w,
        (240 + v / 262144) as u8,
        (128 + v / 4096 % 64) as u8,
        (128 + v / 64 % 64) as u8,
        (128 + v % 64) as u8,
    )
}

fn unit_value(h: Hex) -> u32
    ensures { result ≡ unit_or h }
{
    match h {
        Ok((_, v)) => v,
        Err(_) => 0,
    }
}

fn unit_end(h: Hex) -> usize
    ensures { result ≡ unit_end h }
{
    match h {
        Ok((e, _)) => e,
        Err(e) => e,
    }
}

// a less b, or 0.
fn less(a: u32, b: u32) -> u32
    ensures { result ≡ a - b }
{
    if a < b { 0 } else { a - b }
}

// Whether a unit is the first half of a surrogate pair.
fn is_first_half(v: u32) -> bool
    ensures { result ≡ is_first_half v }
{
    if v < 55296 {
        return false;
    }
    v <= 56319
}

// The character that two halves stand for.
fn pair_of(v: u32, w: u32) -> u32
    requires v_bound { v ≤ 56319 }
    requires w_bound { w ≤ 57343 }
    ensures { result ≡ pair_of v w }
{
    65536 + less(v, 55296) * 1024 + less(w, 56320)
}

// The character that the unit v stands for, with the half u after it where it is a first half.
fn unit_character(v: u32, u: u32) -> u32
    requires { u ≤ 57343 }
    ensures { result ≡ character_of v u }
{
    let pair = is_first_half(v);
    if pair {
        return pair_of(v, u);
    }
    v
}

// What a \u escape stands for, whose digits were read.
fn escape_bytes(text: &[u8], h: Hex, out: &mut [u8], w: Option<usize>) -> Option<usize>
    requires { unit_or h < 65536 }
    ensures { Pushed out.old w (escape_bytes text.now h) result out.new }
{
    let v = unit_value(h);
    let e = unit_end(h);
    let g = scan::low_half(text, e);
    let u = unit_value(g);
    let c = unit_character(v, u);
    encode(c, out, w)
}

// The bytes of the character that begins at `at` and ends at e.
fn emit(text: &[u8], at: usize, e: usize, out: &mut [u8], w: Option<usize>) -> Option<usize>
    requires { e ≤ length text.now }
    ensures { Pushed out.old w (char_bytes text.now at e (byte text.now at)) result out.new }
{
    let b = scan::peek(text, at);
    if b == BACKSLASH {
        let c = scan::peek(text, at + 1);
        if c == LETTER_U {
            let h = scan::hex4(text, at + 2);
            return escape_bytes(text, h, out, w);
        }
        let x = scan::short_escape(c);
        return push(out, w, x);
    }
    copy(text, at, e, out, w)
}

// Where the characters of the string at `at` begin, if it is one.
pub fn body_at(text: &[u8], at: usize) -> Option<usize>
    ensures { result ≡ body_place text.now at }
{
    let i = scan::spaces(text, at);
    let b = scan::peek(text, i);
    if b == QUOTE {
        return Some(i + 1);
    }
    None
}

// The characters of the string whose first quote stands before `at`, decoded into `out`.
pub fn decode(text: &[u8], at: usize, out: &mut [u8]) -> Option<usize>
    ensures { Pushed out.old (Some 0) (body_at text.now at).tree result out.new }
{
    let mut i = at;
    let mut x = Some(0);
    for k in 0..text.len() {
        let b = scan::peek(text, i);
        let plain = scan::is_plain(b);
        if plain {
            x = push(out, x, b as u8);
            i += 1;
        } else {
            if b == QUOTE {
                return x;
            }
            let n = scan::character(text, i);
            match n {
                ControlFlow::Continue(e) => {
                    x = emit(text, i, e, out, x);
                    i = e;
                }
                ControlFlow::Break(_) => return x,
            }
        }
    }
    x
}

fn count(w: Option<usize>) -> usize
    ensures { result ≡ count_of w }
{
    match w {
        Some(n) => n,
        None => 0,
    }
}

fn quote_end(at: usize, r: Read) -> Option<usize>
    ensures { result ≡ quote_end at r }
{
    match r {
        Ok(_) => Some(at),
        Err(_) => None,
    }
}

// Where the quote stands that ends the characters from `at` on, if none of them is an escape.
fn quote(text: &[u8], at: usize) -> Option<usize>
    ensures { result ≡ quote_from text.now (length text.now) at }
{
    let mut i = at;
    for k in 0..text.len() {
        let b = scan::peek(text, i);
        let plain = scan::is_plain(b);
        if plain {
            i += 1;
        } else {
            if b == QUOTE {
                return Some(i);
            }
            if b == BACKSLASH {
                return None;
            }
            let n = scan::character(text, i);
            match n {
                ControlFlow::Continue(e) => {
                    i = e;
                }
                ControlFlow::Break(r) => return quote_end(i, r),
            }
        }
    }
    None
}

// A part of the text or of the scratch area.
#[derive(Clone, Copy)]
pub struct Part {
    pub in_scratch: bool,
    pub start: usize,
    pub len: usize,
}

// Where the string at `at` is: one without escapes in the text, one with escapes in the scratch area. A value that is no string is an empty part. Only a string with escapes changes the scratch area.
pub fn string_at(text: &[u8], at: usize, scratch: &mut [u8]) -> Part
    requires { length text.now ≤ length scratch.old }
    ensures { Held text.now scratch.old scratch.new result.in_scratch result.start result.len (escaped text.now at) (word_in (tree_at text.now at)) }
{
    let f = body_at(text, at);
    let Some(j) = f else {
        return Part {
            in_scratch: false,
            start: 0,
            len: 0,
        };
    };
    let q = quote(text, j);
    match q {
        Some(e) => Part {
            in_scratch: false,
            start: j,
            len: e - j,
        },
        None => {
            let w = decode(text, j, scratch);
            Part {
                in_scratch: true,
                start: 0,
                len: count(w),
            }
        }
    }
}

// The same slice, at a shorter lifetime.
fn shorter<'r: 's, 's>(request: &'r [u8], _near: &'s [u8]) -> &'s [u8]
    ensures { result ≡ request.entry }
{
    request
}

// The bytes of a part.
pub fn bytes<'r: 's, 's>(text: &'r [u8], scratch: &'s [u8], p: Part) -> &'s [u8]
    requires { p.start + p.len ≤ length (cond p.in_scratch scratch.now text.now) }
    ensures { result.now ≡ take p.len (drop p.start (cond p.in_scratch scratch.now text.now)) }
{
    let start = p.start;
    let len = p.len;
    if p.in_scratch {
        return &scratch[start..start + len];
    }
    let near = shorter(text, scratch);
    &near[start..start + len]
}

fn begins_here(b: u8) -> bool
    ensures { result ≡ begins b }
{
    if b < 128 {
        return true;
    }
    if b < 192 {
        return false;
    }
    true
}

// One more, if so.
fn counted(n: usize, more: bool) -> usize
    requires { n < 18446744073709551615 }
    ensures { result ≡ cond more (1 + n) n }
{
    if more {
        return n + 1;
    }
    n
}

// Byte `off` of those from `from` to `to`, for which the character from `at` to e stands.
fn pick(
    bytes: &[u8],
    from: usize,
    to: usize,
    at: usize,
    e: usize,
    off: usize,
) -> Option<(u8, usize, usize)>
    requires to_in_bounds { to ≤ length bytes.now }
    requires off_bound { from + off < to }
    ensures { result ≡ picked (between bytes.now from to) at e off }
{
    let b = bytes[from + off];
    if from + off + 1 < to {
        return Some((b, at, off + 1));
    }
    Some((b, e, 0))
}

// Byte `off` of the character that begins at `at` and ends at e.
fn char_step(text: &[u8], at: usize, e: usize, off: usize) -> Option<(u8, usize, usize)>
    requires e_in_bounds { e ≤ length text.now }
    requires off_in_bounds { off < length (char_bytes text.now at e (byte text.now at)) }
    ensures { result ≡ picked (char_bytes text.now at e (byte text.now at)) at e off }
{
    let b = scan::peek(text, at);
    if b == BACKSLASH {
        let mut buf = [0u8; 4];
        let w = emit(text, at, e, &mut buf, Some(0));
        let n = count(w);
        return pick(&buf, 0, n, at, e, off);
    }
    pick(text, at, e, at, e, off)
}

// The byte of a string at an offset in the character at `at`, if the string goes on there.
fn next_byte(text: &[u8], at: usize, off: usize) -> Option<(u8, usize, usize)>
    requires { Inside text.now at off }
    ensures { Steps text.now (drop off (body_from text.now at)) result }
{
    let n = scan::character(text, at);
    match n {
        ControlFlow::Continue(e) => char_step(text, at, e, off),
        ControlFlow::Break(_) => None,
    }
}

// How many characters those of a string from `at` on are.
fn body_chars(text: &[u8], at: usize) -> usize
    ensures { result ≡ chars (body_from text.now at) }
{
    let mut n: usize = 0;
    let mut x = next_byte(text, at, 0);
    while let Some((b, i, a)) = x {
        n = counted(n, begins_here(b));
        x = next_byte(text, i, a);
    }
    n
}

// The length in characters of the string at `at`, 0 where it is none.
pub fn chars_at(text: &[u8], at: usize) -> usize
    ensures { result ≡ chars (word_in (tree_at text.now at)) }
{
    let f = body_at(text, at);
    match f {
        Some(i) => body_chars(text, i),
        None => 0,
    }
}

// Whether the characters of a string from p on are those of one from q on.
fn same_bodies(text: &[u8], p: usize, q: usize) -> bool
    ensures { result ≡ eq_bytes (body_from text.now q) (body_from text.now p) }
{
    let mut x = next_byte(text, p, 0);
    let mut y = next_byte(text, q, 0);
    loop {
        match x {
            Some((b, i, a)) => match y {
                Some((c, j, o)) => {
                    if b != c {
                        return false;
                    }
                    x = next_byte(text, i, a);
                    y = next_byte(text, j, o);
                }
                None => return false,
            },
            None => match y {
                Some((_, _, _)) => return false,
                None => return true,
            },
        }
    }
}

// Whether the value at q is the string at p. A value at p that is no string is an empty one.
pub fn same_strings(text: &[u8], p: usize, q: usize) -> bool
    ensures { result ≡ is_word (word_in (tree_at text.now p)) (tree_at text.now q) }
{
    let f = body_at(text, p);
    let g = body_at(text, q);
    match f {
        Some(i) => match g {
            Some(j) => same_bodies(text, i, j),
            None => false,
        },
        None => is_word(text, q, &text[..0]),
    }
}

// Past the bytes from `from` to `to` in `word` from o on, if they stand there.
fn part_is(bytes: &[u8], from: usize, to: usize, word: &[u8], o: usize) -> Option<usize>
    requires { to ≤ length bytes.now }
    ensures { result ≡ matched (between bytes.now from to) word.now o }
{
    let mut p = o;
    for i in from..to {
        if word.len() <= p {
            return None;
        }
        if bytes[i] != word[p] {
            return None;
        }
        p += 1;
    }
    Some(p)
}

// The same of the character that begins at `at` and ends at e.
fn char_is(text: &[u8], at: usize, e: usize, word: &[u8], o: usize) -> Option<usize>
    requires { e ≤ length text.now }
    ensures { result ≡ matched (char_bytes text.now at e (byte text.now at)) word.now o }
{
    let b = scan::peek(text, at);
    if b == BACKSLASH {
        let mut buf = [0u8; 4];
        let w = emit(text, at, e, &mut buf, Some(0));
        let n = count(w);
        return part_is(&buf, 0, n, word, o);
    }
    part_is(text, at, e, word, o)
}

// Whether the characters of the string whose first quote stands before `at` are those of `word`.
pub fn body_is(text: &[u8], at: usize, word: &[u8]) -> bool
    ensures { result ≡ eq_bytes (body_at text.now at).tree word.now }
{
    let mut i = at;
    let mut o: usize = 0;
    for k in 0..text.len() {
        let b = scan::peek(text, i);
        let plain = scan::is_plain(b);
        if plain {
            let c = scan::peek(word, o);
            if b != c {
                return false;
            }
            o += 1;
            i += 1;
        } else {
            if b == QUOTE {
                return o == word.len();
            }
            let n = scan::character(text, i);
            match n {
                ControlFlow::Continue(e) => {
                    let m = char_is(text, i, e, word, o);
                    match m {
                        Some(p) => {
                            o = p;
                        }
                        None => return false,
                    }
                    i = e;
                }
                ControlFlow::Break(_) => return o == word.len(),
            }
        }
    }
    o == word.len()
}

// Whether the value at `at` is the string `word`.
pub fn is_word(text: &[u8], at: usize, word: &[u8]) -> bool
    ensures { result ≡ is_word word.now (tree_at text.now at) }
{
    let f = body_at(text, at);
    let Some(i) = f else {
        return false;
    };
    body_is(text, i, word)
}

// Where the value of the last member of that name begins, in the object at `at`.
pub fn find(text: &[u8], ends: &[u16], at: usize, word: &[u8]) -> Option<usize>
    requires says { Says text.now ends.now }
    requires at_value { well_at text.now at ≡ true }
    ensures { Means text.now result (has_member word.now (members_in (tree_at text.now at))) (member_value word.now (members_in (tree_at text.now at))) }
{
    let mut last = None;
    let mut g = nav::first(text, at, b'{', b'}');
    while let Some(p) = g {
        let same = is_word(text, p, word);
        if same {
            let v = nav::member_value(text, ends, p);
            last = Some(v);
        }
        g = nav::next_member(text, ends, p);
    }
    last
}
