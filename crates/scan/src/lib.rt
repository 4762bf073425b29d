// The parts of a JSON text by RFC 4627 that open no level: where each ends, or where the text stops being one.
#![tactic(auto)]

ghost use Rattle.std.specs.Prelude.{Ok};
ghost use Rattle.std.specs.Prelude.{◌≡◌, List, [], ◌∷◌, ℕ, Bool, false, length};
ghost use Rattle.model.specs.Scan.{byte, is_space, is_digit, passing, spaces_at, digits_at, within_at, word_at};
ghost use Rattle.model.specs.Strings.{short_of, hex_of, escape_by, going, char_by, body_at, string_at};
ghost use Rattle.scan.specs.Strings.{is_plain, colon_at};
ghost use Rattle.scan.specs.Units.{hex_step, outside, inside, hex_at, low_hex_at, half_of, low_at, pair_by, unit_by, wide_by};
ghost use Rattle.leaf.specs.Bytes.{second_low, second_high};
ghost use Rattle.model.specs.Numbers.{minus_at, sign_at, some_at, whole_at, frac_at, is_exp, exp_at, number_at};
ghost use Rattle.model.specs.Json.{opens, scalar_by, after_item, key_at};

use model::{Next, Open, Read, ReadError};
use std::ops::ControlFlow;

// Characters as `peek` gives them.
pub const QUOTE: u16 = b'"' as u16;

pub const BACKSLASH: u16 = b'\\' as u16;

pub const BRACKET: u16 = b'[' as u16;

pub const BRACKET_END: u16 = b']' as u16;

pub const BRACE: u16 = b'{' as u16;

pub const BRACE_END: u16 = b'}' as u16;

pub const DASH: u16 = b'-' as u16;

pub const DIGIT_0: u16 = b'0' as u16;

pub const LETTER_F: u16 = b'f' as u16;

pub const LETTER_N: u16 = b'n' as u16;

pub const LETTER_T: u16 = b't' as u16;

pub const LETTER_U: u16 = b'u' as u16;

const SPACE: u16 = b' ' as u16;

const TAB: u16 = b'\t' as u16;

const LINE_FEED: u16 = b'\n' as u16;

const RETURN: u16 = b'\r' as u16;

const SLASH: u16 = b'/' as u16;

const COMMA: u16 = b',' as u16;

const PLUS: u16 = b'+' as u16;

const DOT: u16 = b'.' as u16;

const DIGIT_9: u16 = b'9' as u16;

const LETTER_A: u16 = b'a' as u16;

const LETTER_B: u16 = b'b' as u16;

const LETTER_E: u16 = b'e' as u16;

const LETTER_R: u16 = b'r' as u16;

const CAPITAL_A: u16 = b'A' as u16;

const CAPITAL_E: u16 = b'E' as u16;

const CAPITAL_F: u16 = b'F' as u16;

// How much more than its value a letter is as a hexadecimal digit.
const LETTER_MORE: u16 = LETTER_A - 10;

const CAPITAL_MORE: u16 = CAPITAL_A - 10;

// Hexadecimal digits read so far: the next position and their number; or the position of a byte that is none.
pub type Hex = Result<(usize, u32), usize>;

// What a 16-bit unit is: a character, the first half of a pair, or one that is refused.
#[derive(Clone, Copy)]
pub enum Half {
    Whole,
    High,
    Refused,
}

// The byte at a position, or 256 past the end.
pub fn peek(text: &[u8], at: usize) -> u16
    ensures { result ≡ byte text.now at }
{
    if at < text.len() {
        text[at] as u16
    } else {
        256
    }
}

#[tactic(auto, unfolding(model::specs::Scan::is_space))]
pub fn is_space(b: u16) -> bool
    ensures { result ≡ is_space b }
{
    // Four compares joined by `||` become one test of a bit: with `matches!` in their place a read of a text takes 9 % more instructions.
    b == SPACE || b == TAB || b == LINE_FEED || b == RETURN
}

#[tactic(auto, unfolding(model::specs::Scan::is_digit))]
pub fn is_digit(b: u16) -> bool
    ensures { result ≡ is_digit b }
{
    (DIGIT_0..=DIGIT_9).contains(&b)
}

// The first position from `at` on whose byte is not of a class, which holds no 256.
fn passing<F: Fn(u16) -> bool>(text: &[u8], at: usize, class: F) -> usize
    ghost f: { ℕ → Bool }
    requires calls { F.IsAlwaysCallable class }
    requires tells { (b : ℕ) (r : Bool) → F.post class b r → r ≡ f b }
    requires ends { f 256 ≡ false }
    ensures { result ≡ passing f text.now (length text.now) at }
{
    let mut i = at;
    while class(peek(text, i)) {
        i += 1;
    }
    i
}

// The first position from `at` on that has no white space.
#[tactic(auto, unfolding(model::specs::Scan::is_space))]
pub fn spaces(text: &[u8], at: usize) -> usize
    ensures { result ≡ spaces_at text.now at }
{
    passing(text, at, is_space)
}

// The first position from `at` on that has no digit.
#[tactic(auto, unfolding(model::specs::Scan::is_digit))]
pub fn digits(text: &[u8], at: usize) -> usize
    ensures { result ≡ digits_at text.now at }
{
    passing(text, at, is_digit)
}

// One byte from `low` to `high`, after what was read before it.
#[tactic(auto, unfolding(model::specs::Scan::within_at))]
pub fn within(text: &[u8], prior: Read, low: u8, high: u8) -> Read
    ensures { result ≡ within_at text.now low high prior }
{
    let e = prior?;
    if (u16::from(low)..=u16::from(high)).contains(&peek(text, e)) {
        Ok(e + 1)
    } else {
        Err(ReadError::Stop(e))
    }
}

#[tactic(auto, unfolding(model::specs::Json::opens))]
pub fn opening(b: u16) -> Open
    ensures { result ≡ opens b }
{
    match b {
        BRACKET => Open::Array,
        BRACE => Open::Object,
        _ => Open::Scalar,
    }
}

pub fn opening_at(text: &[u8], at: usize) -> Open
    ensures { result ≡ opens (byte text.now at) }
{
    opening(peek(text, at))
}

// The bytes of a word, one after another.
#[tactic(auto, unfolding(model::specs::Scan::word_at))]
fn word(text: &[u8], at: usize, bytes: &[u8]) -> Read
    ensures { result ≡ word_at text.now bytes.now (Ok at) }
{
    let mut r = Ok(at);
    for b in bytes {
        r = within(text, r, *b, *b);
    }
    r
}

// The literals.
pub fn null(text: &[u8], at: usize) -> Read
    ensures { result ≡ word_at text.now (110 ∷ 117 ∷ 108 ∷ 108 ∷ []) (Ok at) }
{
    word(text, at, b"null")
}

pub fn true_word(text: &[u8], at: usize) -> Read
    ensures { result ≡ word_at text.now (116 ∷ 114 ∷ 117 ∷ 101 ∷ []) (Ok at) }
{
    word(text, at, b"true")
}

pub fn false_word(text: &[u8], at: usize) -> Read
    ensures { result ≡ word_at text.now (102 ∷ 97 ∷ 108 ∷ 115 ∷ 101 ∷ []) (Ok at) }
{
    word(text, at, b"false")
}

// The byte that a short escape stands for, or 0.
#[tactic(auto, unfolding(model::specs::Strings::short_of))]
pub fn short_escape(c: u16) -> u8
    ensures { result ≡ short_of c }
{
    match c {
        QUOTE => b'"',
        BACKSLASH => b'\\',
        SLASH => b'/',
        LETTER_B => b'\x08',
        LETTER_F => b'\x0c',
        LETTER_N => b'\n',
        LETTER_R => b'\r',
        LETTER_T => b'\t',
        _ => 0,
    }
}

// The value of a hexadecimal digit, or 16.
#[tactic(auto, unfolding(model::specs::Strings::hex_of))]
pub fn hex_digit(b: u16) -> u16
    ensures { result ≡ hex_of b }
{
    match b {
        DIGIT_0..=DIGIT_9 => b - DIGIT_0,
        CAPITAL_A..=CAPITAL_F => b - CAPITAL_MORE,
        LETTER_A..=LETTER_F => b - LETTER_MORE,
        _ => 16,
    }
}

#[tactic(auto, unfolding(crate::specs::Units::hex_step, crate::specs::Units::hex_add, model::specs::Strings::hex_of))]
pub fn hex_step(text: &[u8], h: Hex) -> Hex
    ensures { result ≡ hex_step text.now h }
{
    match h {
        Ok((e, v)) => {
            let d = hex_digit(peek(text, e));
            if d == 16 {
                Err(e)
            } else {
                Ok((e + 1, v % 4096 * 16 + u32::from(d)))
            }
        }
        Err(e) => Err(e),
    }
}

// The digits, where their number so far lies outside low to high; else the last one is bad.
#[tactic(auto, unfolding(crate::specs::Units::outside))]
fn outside_of(h: Hex, low: u32, high: u32) -> Hex
    ensures { result ≡ outside low high h }
{
    let Ok((e, v)) = h else {
        return h;
    };
    if (low..=high).contains(&v) {
        Err(e.saturating_sub(1))
    } else {
        h
    }
}

// The digits, where their number so far lies within low to high; else the last one is bad.
#[tactic(auto, unfolding(crate::specs::Units::inside))]
fn inside_of(h: Hex, low: u32, high: u32) -> Hex
    ensures { result ≡ inside low high h }
{
    let Ok((e, v)) = h else {
        return h;
    };
    if (low..=high).contains(&v) {
        h
    } else {
        Err(e.saturating_sub(1))
    }
}

// Four digits of a unit that is not 0 and no second half.
pub fn hex4(text: &[u8], at: usize) -> Hex
    ensures { result ≡ hex_at text.now at }
{
    let a = hex_step(text, Ok((at, 0)));
    let b = hex_step(text, a);
    let c = outside_of(b, 220, 223);
    let d = hex_step(text, c);
    let e = hex_step(text, d);
    outside_of(e, 0, 0)
}

// Four digits of a second half.
fn low_hex4(text: &[u8], at: usize) -> Hex
    ensures { result ≡ low_hex_at text.now at }
{
    let a = hex_step(text, Ok((at, 0)));
    let b = inside_of(a, 13, 13);
    let c = hex_step(text, b);
    let d = inside_of(c, 220, 223);
    let e = hex_step(text, d);
    hex_step(text, e)
}

#[tactic(auto, unfolding(crate::specs::Units::half_of))]
pub fn half_of(v: u32) -> Half
    ensures { result ≡ half_of v }
{
    match v {
        0 | 56320..=57343 => Half::Refused,
        55296..=56319 => Half::High,
        _ => Half::Whole,
    }
}

// The second half of a surrogate pair.
#[tactic(auto, unfolding(crate::specs::Units::low_from))]
pub fn low_half(text: &[u8], at: usize) -> Hex
    ensures { result ≡ low_at text.now at }
{
    let b = within(text, Ok(at), b'\\', b'\\');
    let u = within(text, b, b'u', b'u');
    match u {
        Ok(e) => low_hex4(text, e),
        Err(ReadError::Stop(e) | ReadError::Deep(e)) => Err(e),
    }
}

#[tactic(auto, unfolding(crate::specs::Units::pair_by))]
pub fn pair(h: Hex) -> Next
    ensures { result ≡ pair_by h }
{
    match h {
        Ok((e, _)) => ControlFlow::Continue(e),
        Err(e) => ControlFlow::Break(Err(ReadError::Stop(e))),
    }
}

// What follows four digits.
#[tactic(auto, unfolding(crate::specs::Units::unit_by))]
pub fn unit(text: &[u8], h: Hex) -> Next
    ensures { result ≡ unit_by text.now h }
{
    match h {
        Ok((e, v)) => match half_of(v) {
            Half::Whole => ControlFlow::Continue(e),
            Half::High => pair(low_half(text, e)),
            Half::Refused => ControlFlow::Break(Err(ReadError::Stop(e))),
        },
        Err(e) => ControlFlow::Break(Err(ReadError::Stop(e))),
    }
}

// The byte after a backslash, at `at`.
#[tactic(auto, using(crate::proofs::Same::escape_same), unfolding(model::specs::Strings::escape_by, model::specs::Strings::short_of))]
pub fn escape(text: &[u8], at: usize) -> Next
    ensures { result ≡ escape_by text.now at (byte text.now at) }
{
    let c = peek(text, at);
    if short_escape(c) != 0 {
        ControlFlow::Continue(at + 1)
    } else if c == LETTER_U {
        unit(text, hex4(text, at + 1))
    } else {
        ControlFlow::Break(Err(ReadError::Stop(at)))
    }
}

// A character of two to four bytes.
#[tactic(auto, unfolding(crate::specs::Units::wide_by))]
pub fn wide(text: &[u8], at: usize) -> Read
    ensures { result ≡ wide_by text.now at (byte text.now at) }
{
    let b = peek(text, at);
    if !(194..=244).contains(&b) {
        return Err(ReadError::Stop(at));
    }
    let low = leaf::second_low(b);
    let high = leaf::second_high(b);
    let r = within(text, Ok(at + 1), low, high);
    if b < 224 {
        return r;
    }
    let q = within(text, r, 128, 191);
    if b < 240 {
        return q;
    }
    within(text, q, 128, 191)
}

#[tactic(auto, unfolding(model::specs::Strings::going))]
pub fn go_on(r: Read) -> Next
    ensures { result ≡ going r }
{
    match r {
        Ok(e) => ControlFlow::Continue(e),
        Err(e) => ControlFlow::Break(Err(e)),
    }
}

// A character of a string, or its last quote.
#[tactic(auto, using(crate::proofs::Same::ascii_goes, crate::proofs::Same::wide_same), unfolding(model::specs::Strings::char_by, model::specs::Strings::going))]
pub fn character(text: &[u8], at: usize) -> Next
    ensures { result ≡ char_by text.now at (byte text.now at) }
{
    match peek(text, at) {
        QUOTE => ControlFlow::Break(Ok(at + 1)),
        BACKSLASH => escape(text, at + 1),
        0..SPACE => ControlFlow::Break(Err(ReadError::Stop(at))),
        SPACE..128 => ControlFlow::Continue(at + 1),
        _ => go_on(wide(text, at)),
    }
}

// Whether a byte is a character by itself: ASCII from the space on, and neither a quote nor a backslash.
#[tactic(auto, unfolding(crate::specs::Strings::is_plain))]
pub fn is_plain(b: u16) -> bool
    ensures { result ≡ is_plain b }
{
    (SPACE..128).contains(&b) && b != QUOTE && b != BACKSLASH
}

// The first position from `at` on whose byte is no character by itself.
#[tactic(auto, unfolding(crate::specs::Strings::is_plain))]
fn plain_bytes(text: &[u8], at: usize) -> usize
    ensures { result ≡ passing is_plain text.now (length text.now) at }
{
    passing(text, at, is_plain)
}

// The characters of a string up to its last quote.
pub fn body(text: &[u8], at: usize) -> Read
    ensures { result ≡ (body_at text.now at).read }
{
    let mut i = at;
    loop {
        i = plain_bytes(text, i);
        match character(text, i) {
            ControlFlow::Continue(e) => i = e,
            ControlFlow::Break(r) => return r,
        }
    }
}

// A string with its quotes.
#[tactic(auto, unfolding(model::specs::Strings::string_at, model::specs::Scan::and_then))]
pub fn string(text: &[u8], at: usize) -> Read
    ensures { result ≡ (string_at text.now at).read }
{
    let q = within(text, Ok(at), b'"', b'"');
    let e = q?;
    body(text, e)
}

// Past a minus, if there is one.
#[tactic(auto, unfolding(model::specs::Numbers::minus_at))]
pub fn minus(text: &[u8], at: usize) -> usize
    ensures { result ≡ minus_at text.now at }
{
    if peek(text, at) == DASH { at + 1 } else { at }
}

// Past a plus or a minus, if there is one.
#[tactic(auto, unfolding(model::specs::Numbers::sign_at))]
pub fn sign(text: &[u8], at: usize) -> usize
    ensures { result ≡ sign_at text.now at }
{
    if peek(text, at) == PLUS {
        at + 1
    } else {
        minus(text, at)
    }
}

// One or more digits.
#[tactic(auto, unfolding(model::specs::Numbers::some_from))]
pub fn some_digits(text: &[u8], at: usize) -> Read
    ensures { result ≡ some_at text.now at }
{
    let e = digits(text, at);
    if e == at {
        Err(ReadError::Stop(at))
    } else {
        Ok(e)
    }
}

#[tactic(auto, unfolding(model::specs::Numbers::whole_at))]
pub fn whole_part(text: &[u8], at: usize) -> Read
    ensures { result ≡ whole_at text.now at }
{
    if peek(text, at) == DIGIT_0 {
        Ok(at + 1)
    } else {
        some_digits(text, at)
    }
}

#[tactic(auto, unfolding(model::specs::Numbers::frac_at))]
pub fn fraction(text: &[u8], at: usize) -> Read
    ensures { result ≡ frac_at text.now at }
{
    if peek(text, at) == DOT {
        some_digits(text, at + 1)
    } else {
        Ok(at)
    }
}

#[tactic(auto, unfolding(model::specs::Numbers::is_exp))]
pub fn is_exp(b: u16) -> bool
    ensures { result ≡ is_exp b }
{
    matches!(b, LETTER_E | CAPITAL_E)
}

#[tactic(auto, unfolding(model::specs::Numbers::exp_at, model::specs::Numbers::is_exp))]
pub fn exponent(text: &[u8], at: usize) -> Read
    ensures { result ≡ exp_at text.now at }
{
    if is_exp(peek(text, at)) {
        some_digits(text, sign(text, at + 1))
    } else {
        Ok(at)
    }
}

#[tactic(auto, unfolding(model::specs::Numbers::number_at, model::specs::Scan::then_read))]
pub fn number(text: &[u8], at: usize) -> Read
    ensures { result ≡ number_at text.now at }
{
    let w = whole_part(text, minus(text, at));
    let j = w?;
    let f = fraction(text, j);
    let k = f?;
    exponent(text, k)
}

// A value that opens no level.
#[tactic(auto, unfolding(model::specs::Json::scalar_by))]
pub fn scalar(text: &[u8], at: usize) -> Read
    ensures { result ≡ (scalar_by text.now at (byte text.now at)).read }
{
    match peek(text, at) {
        QUOTE => string(text, at),
        LETTER_N => null(text, at),
        LETTER_T => true_word(text, at),
        LETTER_F => false_word(text, at),
        _ => number(text, at),
    }
}

// What follows an item that was read, up to the byte `close`.
#[tactic(auto, unfolding(model::specs::Json::after_item, model::specs::Json::comma_or))]
pub fn after(text: &[u8], item: Read, close: u8) -> Next
    ensures { result ≡ after_item text.now close item }
{
    let Ok(e) = item else {
        return ControlFlow::Break(item);
    };
    let i = spaces(text, e);
    if peek(text, i) == COMMA {
        ControlFlow::Continue(i + 1)
    } else {
        ControlFlow::Break(within(text, Ok(i), close, close))
    }
}

// The colon after a name that was read.
#[tactic(auto, unfolding(crate::specs::Strings::colon_at, model::specs::Scan::then_read))]
pub fn colon(text: &[u8], name: Read) -> Read
    ensures { result ≡ colon_at text.now name }
{
    let e = name?;
    let j = spaces(text, e);
    within(text, Ok(j), b':', b':')
}

// An object's name and its colon.
#[tactic(auto, using(crate::proofs::Plain::colon_key))]
pub fn key(text: &[u8], at: usize) -> Read
    ensures { result ≡ (key_at text.now at).read }
{
    let i = spaces(text, at);
    colon(text, string(text, i))
}
