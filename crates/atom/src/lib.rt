// Atoms: equality, order by base type, texts, and which are well formed.
#![tactic(auto)]

ghost use Rattle.std.specs.Prelude.{◌≡◌, true, length, drop};
ghost use Rattle.model.specs.Octets.{eq_bytes};
ghost use Rattle.model.specs.Schema.{integer, boolean, text};
ghost use Rattle.model.specs.Catalog.{base_numbered};
ghost use Rattle.model.specs.Text.{chars};
ghost use Rattle.model.specs.Value.{zeros, text_of, is_utf8, less_atom, well_atom, byte_atom};
ghost use Rattle.atom.specs.Bytes.{more_after, fits_at, due_after, low_after, high_after, Typed};

use model::{ATOM, Atom, ID, TEXT};

// Whether a and b are the same atom.
pub fn same(a: &Atom, b: &Atom) -> bool
    ensures { result ≡ eq_bytes a.now b.now }
{
    a == b
}

// Whether an atom's bytes from `at` on are zero; and what its type says of it.
pub fn blank_from(a: &Atom, at: usize) -> bool
    ensures value { result ≡ zeros (drop at a.now) }
    ensures typed { Typed at a.now }
{
    let rest = a.get(at..).unwrap_or(&[]);
    let mut ok = true;
    for b in rest {
        ok &= *b == 0;
    }
    ok
}

// How many bytes the text of an atom has: its first byte, as far as the atom goes.
pub fn text_size(a: &Atom) -> usize
    ensures { result ≡ length (text_of a.now) }
{
    leaf::wide(a[0]).min(TEXT)
}

// The text of an atom.
pub fn text_of<'a>(a: &'a Atom) -> &'a [u8]
    ensures { result.now ≡ text_of a.now }
{
    &a[1..1 + text_size(a)]
}

// The order of integers: of their bytes as 64 bits, the upper half of which is negative.
pub fn less_integers(a: &Atom, b: &Atom) -> bool
    ensures { result ≡ less_atom integer a.now b.now }
{
    leaf::biased(octets::number(a, 8)) < leaf::biased(octets::number(b, 8))
}

// Whether a is before b, of a base type by its number.
#[tactic(auto, unfolding(model::specs::Catalog::base_numbered))]
pub fn less(kind: u8, a: &Atom, b: &Atom) -> bool
    ensures { result ≡ less_atom (base_numbered kind) a.now b.now }
{
    match kind {
        0 => less_integers(a, b),
        2 => octets::less(text_of(a), text_of(b)),
        _ => octets::less(a, b),
    }
}

// How many more bytes the character has that begins with b; 4 where none does.
#[tactic(auto, unfolding(crate::specs::Bytes::more_after))]
fn more(b: u8) -> u8
    ensures { result ≡ more_after b }
{
    match b {
        1..=127 => 0,
        194..=223 => 1,
        224..=239 => 2,
        240..=244 => 3,
        _ => 4,
    }
}

// A byte of a text of which `due` more bytes of a character are due, the next of them from low to high: whether it fits, and what is due after it.
#[tactic(auto, unfolding(crate::specs::Bytes::fits_at))]
fn fits(due: u8, low: u8, high: u8, b: u8) -> bool
    ensures { result ≡ fits_at due low high b }
{
    if due == 0 {
        more(b) != 4
    } else {
        (low..=high).contains(&b)
    }
}

#[tactic(auto, unfolding(crate::specs::Bytes::due_after))]
fn due_after(due: u8, b: u8) -> u8
    ensures { result ≡ due_after due b }
{
    if due == 0 { more(b) } else { due - 1 }
}

#[tactic(auto, unfolding(crate::specs::Bytes::low_after))]
fn low_after(due: u8, b: u8) -> u8
    ensures { result ≡ low_after due b }
{
    if due == 0 {
        leaf::second_low(u16::from(b))
    } else {
        128
    }
}

#[tactic(auto, unfolding(crate::specs::Bytes::high_after))]
fn high_after(due: u8, b: u8) -> u8
    ensures { result ≡ high_after due b }
{
    if due == 0 {
        leaf::second_high(u16::from(b))
    } else {
        191
    }
}

// Whether a text is UTF-8 without 00. A byte of ASCII where none is due passes at once.
pub fn is_utf8(t: &[u8]) -> bool
    ensures { result ≡ is_utf8 t.now }
{
    let mut due = 0;
    let mut low = 0;
    let mut high = 0;
    for b in t {
        if due == 0 && (1..128).contains(b) {
            continue;
        }
        if !fits(due, low, high, *b) {
            return false;
        }
        low = low_after(due, *b);
        high = high_after(due, *b);
        due = due_after(due, *b);
    }
    due == 0
}

// The length of a text in characters.
pub fn count_chars(t: &[u8]) -> usize
    ensures { result ≡ chars t.now }
{
    let mut n = 0;
    for b in t {
        n += usize::from(!(128..192).contains(b));
    }
    n
}

fn well_boolean(a: &Atom) -> bool
    ensures value { result ≡ well_atom boolean a.now }
    ensures a_value { result ≡ true → byte_atom a.now ≡ true }
{
    a[0] < 2 && blank_from(a, 1)
}

fn well_text(a: &Atom) -> bool
    ensures value { result ≡ well_atom text a.now }
    ensures a_value { result ≡ true → byte_atom a.now ≡ true }
{
    let n = leaf::wide(a[0]);
    n <= TEXT && is_utf8(text_of(a)) && blank_from(a, 1 + n)
}

// Whether an atom is well formed for a base type by its number; such a one is bytes, as many as an atom has.
#[tactic(auto, unfolding(model::specs::Catalog::base_numbered))]
pub fn well_atom(kind: u8, a: &Atom) -> bool
    ensures value { result ≡ well_atom (base_numbered kind) a.now }
    ensures a_value { result ≡ true → byte_atom a.now ≡ true }
{
    match kind {
        0 => blank_from(a, 8),
        1 => well_boolean(a),
        2 => well_text(a),
        _ => blank_from(a, ID),
    }
}
