// The text of answers, written as it is produced. Each writer is lent the answer's whole buffer and told how many bytes of text came before; it puts its text there
// as far as the buffer goes, and answers how many bytes there are now, in the buffer and past its end.
#![tactic(auto)]

ghost use Rattle.std.specs.Prelude.{◌≡◌, true, [], ◌∷◌, ◌++◌, ◌+◌, ◌-◌, ◌*◌, ◌^◌, ◌<◌, ◌≤◌, min, length, take, drop, get_or};
ghost use Rattle.model.specs.Limits.{most_elements, id_bytes};
ghost use Rattle.model.specs.Octets.{value};
ghost use Rattle.model.specs.Value.{text_of};
ghost use Rattle.model.specs.Answers.{hex_digit, hex_pair, uuid_digits};
ghost use Rattle.json_writer.specs.Put.{Put};
ghost use Rattle.json_writer.specs.Most.{decimal_most, integer_most, escaped_most, digits_most, id_most, text_most, atoms_most, value_most, null_most, count_most, insert_most, words_most, error_most};
ghost use Rattle.json_writer.specs.Texts.{decimal_text, integer_in, escaped_text, inside_text, quoted_text, dash_text, id_text, truth_text, atom_in, comma_text, joined, atom_texts, set_text, null_text, count_result, insert_result, error_result, words_text};

use model::{Atom, ELEMENTS, Fault, ID};

// One byte.
pub fn put_byte(out: &mut [u8], at: usize, b: u8) -> usize
    requires { at + 1 < 2 ^ 64 }
    ensures { Put 1 out.old at (b ∷ []) result out.new }
{
    if at < out.len() {
        out[at] = b;
    }
    at + 1
}

// Bytes as they are.
pub fn put_bytes(out: &mut [u8], at: usize, text: &[u8]) -> usize
    requires { at + length text.now < 2 ^ 64 }
    ensures { Put (length text.now) out.old at text.now result out.new }
{
    if at < out.len() {
        let n = text.len().min(out.len() - at);
        out[at..at + n].copy_from_slice(&text[..n]);
    }
    at + text.len()
}

// How many digits 64 bits have at most.
const DIGITS: usize = 20;

// The decimal digits of n at the end of `digits`, and where they begin.
fn decimal_digits(digits: &mut [u8], n: u64) -> usize
    requires { length digits.old ≡ decimal_most }
    ensures upper_bound { result ≤ decimal_most }
    ensures digits_after { drop result digits.new ≡ decimal_text n }
{
    let mut v = n;
    for i in (0..DIGITS).rev() {
        digits[i] = b'0' + (v % 10) as u8;
        if v < 10 {
            return i;
        }
        v /= 10;
    }
    0
}

// A number in decimal.
pub fn put_decimal(out: &mut [u8], at: usize, n: u64) -> usize
    requires { at + decimal_most < 2 ^ 64 }
    ensures { Put decimal_most out.old at (decimal_text n) result out.new }
{
    let mut digits = [0u8; DIGITS];
    let i = decimal_digits(&mut digits, n);
    put_bytes(out, at, &digits[i..])
}

// An integer atom: a minus and a magnitude from the upper half of 64 bits.
pub fn put_integer(out: &mut [u8], at: usize, atom: &Atom) -> usize
    requires { at + integer_most < 2 ^ 64 }
    ensures { Put integer_most out.old at (integer_in atom.now) result out.new }
{
    let x = octets::number(atom, 8);
    if x < 9223372036854775808 {
        return put_decimal(out, at, x);
    }
    let r = put_byte(out, at, b'-');
    put_decimal(out, r, u64::MAX - x + 1)
}

// What a digit above 9 is added to: 10 gives an a.
const LETTERS: u8 = b'a' - 10;

// A hexadecimal digit.
fn hex(d: u8) -> u8
    requires { d < 16 }
    ensures { result ≡ hex_digit d }
{
    if d < 10 { b'0' + d } else { LETTERS + d }
}

// A byte in two hexadecimal digits.
fn put_hex(out: &mut [u8], at: usize, b: u8) -> usize
    requires { at + 2 < 2 ^ 64 }
    ensures { Put 2 out.old at (hex_pair b) result out.new }
{
    let r = put_byte(out, at, hex(b / 16));
    put_byte(out, r, hex(b % 16))
}

// A byte of a string: the quote, the backslash and bytes below 0x20 are escaped.
fn put_escaped(out: &mut [u8], at: usize, b: u8) -> usize
    requires { at + escaped_most < 2 ^ 64 }
    ensures { Put escaped_most out.old at (escaped_text b) result out.new }
{
    match b {
        b'"' | b'\\' => {
            let r = put_byte(out, at, b'\\');
            put_byte(out, r, b)
        }
        0..32 => {
            let r = put_bytes(out, at, b"\\u00");
            put_hex(out, r, b)
        }
        _ => put_byte(out, at, b),
    }
}

// The bytes of a string, escaped where they must be.
fn put_inside(out: &mut [u8], at: usize, text: &[u8]) -> usize
    requires { at + escaped_most * length text.now < 2 ^ 64 }
    ensures { Put (escaped_most * length text.now) out.old at (inside_text text.now) result out.new }
{
    let mut r = at;
    for b in text {
        r = put_escaped(out, r, *b);
    }
    r
}

// A string in quotes.
pub fn put_quoted(out: &mut [u8], at: usize, text: &[u8]) -> usize
    requires { at + (escaped_most * length text.now + 2) < 2 ^ 64 }
    ensures { Put (escaped_most * length text.now + 2) out.old at (quoted_text text.now) result out.new }
{
    let r = put_byte(out, at, b'"');
    let e = put_inside(out, r, text);
    put_byte(out, e, b'"')
}

// The dash before some bytes of an id: 8, 4, 4, 4 and 12 digits.
fn put_dash(out: &mut [u8], at: usize, k: usize) -> usize
    requires { at + 1 < 2 ^ 64 }
    ensures { Put 1 out.old at (dash_text k) result out.new }
{
    if matches!(k, 4 | 6 | 8 | 10) {
        put_byte(out, at, b'-')
    } else {
        at
    }
}

// The digits of an id.
fn put_digits(out: &mut [u8], at: usize, id: &[u8]) -> usize
    requires { (at + digits_most < 2 ^ 64) × (length id.now ≡ id_bytes) }
    ensures { Put digits_most out.old at (uuid_digits 0 id.now) result out.new }
{
    let mut r = at;
    for (k, b) in id.iter().enumerate() {
        let d = put_dash(out, r, k);
        r = put_hex(out, d, *b);
    }
    r
}

// An id by its 16 bytes.
pub fn put_id(out: &mut [u8], at: usize, id: &[u8]) -> usize
    requires { (at + id_most < 2 ^ 64) × (length id.now ≡ id_bytes) }
    ensures { Put id_most out.old at (id_text id.now) result out.new }
{
    let r = put_bytes(out, at, b"[\"uuid\",\"");
    let d = put_digits(out, r, id);
    put_bytes(out, d, b"\"]")
}

// A boolean by its byte.
fn put_truth(out: &mut [u8], at: usize, b: u8) -> usize
    requires { at + 5 < 2 ^ 64 }
    ensures { Put 5 out.old at (truth_text b) result out.new }
{
    if b == 0 {
        put_bytes(out, at, b"false")
    } else {
        put_bytes(out, at, b"true")
    }
}

// A string atom.
fn put_text(out: &mut [u8], at: usize, atom: &Atom) -> usize
    requires { at + text_most < 2 ^ 64 }
    ensures { Put text_most out.old at (quoted_text (text_of atom.now)) result out.new }
{
    put_quoted(out, at, atom::text_of(atom))
}

// A uuid atom.
fn put_uuid(out: &mut [u8], at: usize, atom: &Atom) -> usize
    requires { at + id_most < 2 ^ 64 }
    ensures { Put id_most out.old at (id_text (take id_bytes atom.now)) result out.new }
{
    put_id(out, at, &atom[..ID])
}

// An atom of a base type by its number.
pub fn put_atom(out: &mut [u8], at: usize, kind: u8, atom: &Atom) -> usize
    requires { at + text_most < 2 ^ 64 }
    ensures { Put text_most out.old at (atom_in kind atom.now) result out.new }
{
    match kind {
        0 => put_integer(out, at, atom),
        1 => put_truth(out, at, atom[0]),
        2 => put_text(out, at, atom),
        _ => put_uuid(out, at, atom),
    }
}

// The comma before a text that is not the first.
pub fn put_comma(out: &mut [u8], at: usize, first: bool) -> usize
    requires { at + 1 < 2 ^ 64 }
    ensures { Put 1 out.old at (comma_text first) result out.new }
{
    if first { at } else { put_byte(out, at, b',') }
}

// The first n atoms, with commas between them.
fn put_atoms(out: &mut [u8], at: usize, kind: u8, n: usize, atoms: &[Atom]) -> usize
    requires { (at + atoms_most < 2 ^ 64) × (n ≤ most_elements) × (length atoms.now ≡ most_elements) }
    ensures { Put atoms_most out.old at (joined true (atom_texts kind (take n atoms.now))) result out.new }
{
    let mut r = at;
    for (i, atom) in atoms[..n].iter().enumerate() {
        let d = put_comma(out, r, i == 0);
        r = put_atom(out, d, kind, atom);
    }
    r
}

// A value: one element bare, others as a set.
pub fn put_value(out: &mut [u8], at: usize, kind: u8, count: u8, atoms: &[Atom]) -> usize
    requires { (at + value_most < 2 ^ 64) × (length atoms.now ≡ most_elements) }
    ensures { Put value_most out.old at (set_text kind count atoms.now) result out.new }
{
    match count {
        0 => put_bytes(out, at, b"[\"set\",[]]"),
        1 => put_atom(out, at, kind, &atoms[0]),
        _ => {
            let n = usize::from(count).min(ELEMENTS);
            let r = put_bytes(out, at, b"[\"set\",[");
            let e = put_atoms(out, r, kind, n, atoms);
            put_bytes(out, e, b"]]")
        }
    }
}

// The result of an operation that did not run.
pub fn put_null(out: &mut [u8], at: usize) -> usize
    requires { at + null_most < 2 ^ 64 }
    ensures { Put null_most out.old at null_text result out.new }
{
    put_bytes(out, at, b"null")
}

// The result of an update, a mutate or a delete.
pub fn put_count(out: &mut [u8], at: usize, count: u64) -> usize
    requires { at + count_most < 2 ^ 64 }
    ensures { Put count_most out.old at (count_result count) result out.new }
{
    let r = put_bytes(out, at, b"{\"count\":");
    let d = put_decimal(out, r, count);
    put_byte(out, d, b'}')
}

// The result of an insert.
pub fn put_insert(out: &mut [u8], at: usize, id: &[u8]) -> usize
    requires { (at + insert_most < 2 ^ 64) × (length id.now ≡ id_bytes) }
    ensures { Put insert_most out.old at (insert_result id.now) result out.new }
{
    let r = put_bytes(out, at, b"{\"uuid\":");
    let d = put_id(out, r, id);
    put_byte(out, d, b'}')
}

// What a fault is called.
fn put_words(out: &mut [u8], at: usize, fault: Fault) -> usize
    requires { at + words_most < 2 ^ 64 }
    ensures { Put words_most out.old at (words_text fault) result out.new }
{
    match fault {
        Fault::Fine => at,
        Fault::Syntax => put_bytes(out, at, b"syntax error"),
        Fault::Resources => put_bytes(out, at, b"resources exhausted"),
        Fault::Duplicate => put_bytes(out, at, b"duplicate uuid-name"),
        Fault::Constraint => put_bytes(out, at, b"constraint violation"),
        Fault::Domain => put_bytes(out, at, b"domain error"),
        Fault::Range => put_bytes(out, at, b"range error"),
        Fault::Aborted => put_bytes(out, at, b"aborted"),
        Fault::Integrity => put_bytes(out, at, b"referential integrity violation"),
    }
}

// The result of an operation or a commit that fails.
pub fn put_error(out: &mut [u8], at: usize, fault: Fault) -> usize
    requires { at + error_most < 2 ^ 64 }
    ensures { Put error_most out.old at (error_result fault) result out.new }
{
    let r = put_bytes(out, at, b"{\"error\":\"");
    let w = put_words(out, r, fault);
    put_bytes(out, w, b"\"}")
}
