// Elements as written in a request, by positions of its text: the atom that one stands for, of a base type by its number.
#![tactic(auto)]

ghost use Rattle.std.specs.Prelude.{◌≡◌, true, false, ◌≤◌, length};
ghost use Rattle.model.specs.Limits.{most_text_bytes, atom_bytes};
ghost use Rattle.model.specs.Octets.{big, eq_bytes};
ghost use Rattle.model.specs.Base.{any, member};
ghost use Rattle.inner.specs.Positions.{Says, well_at, tree_at};
ghost use Rattle.model.specs.Text.{is_word, chars};
ghost use Rattle.inner.specs.Positions.{word_in};
ghost use Rattle.model.specs.Whole.{is_whole};
ghost use Rattle.model.specs.Catalog.{base_numbered};
ghost use Rattle.model.specs.Value.{pad, bool_atom, text_atom};
ghost use Rattle.model.specs.Written.{long_atom};
ghost use Rattle.elements.specs.Elements.{elements_from, elements_fine};
ghost use Rattle.uuids.specs.Named.{names_at, Answered, Running};
ghost use Rattle.element_atoms.specs.Atoms.{integer_in, boolean_in, TextReads, FitsIf, atom_as, atoms_of, Reads};

use model::{Kind, TEXT, Whole};

// What an element is as an atom of a base type: mistyped, a string above 24 bytes, or an atom of 25 bytes.
#[derive(Clone, Copy)]
pub enum Atom {
    Wrong,
    Long,
    Fits,
}

#[tactic(auto, unfolding(model::specs::Whole::is_whole))]
fn is_whole(w: Whole) -> bool
    ensures { result ≡ is_whole w }
{
    matches!(w, Whole::Plus(_) | Whole::Minus(_))
}

// The atom of 64 bits of two's complement.
fn put_integer(x: u64, out: &mut [u8])
    requires { length out.old ≡ atom_bytes }
    ensures { out.new ≡ pad (big 8 x) }
{
    octets::clear(out);
    octets::put_number(out, x, 8);
}

// The atom of a truth value.
fn put_boolean(b: bool, out: &mut [u8])
    requires { length out.old ≡ atom_bytes }
    ensures { out.new ≡ bool_atom b }
{
    octets::clear(out);
    if b {
        out[0] = 1;
    }
}

// The atom of a string.
fn put_text(t: &[u8], out: &mut [u8])
    requires out_len { length out.old ≡ atom_bytes }
    requires t_len_bound { length t.now ≤ most_text_bytes }
    ensures { out.new ≡ text_atom t.now }
{
    octets::clear(out);
    leaf::put_byte(out, t.len() as u8);
    octets::put_bytes(&mut out[1..], t);
}

// The integer at `at`; nothing is written where there is none.
fn integer_at(text: &[u8], ends: &[u16], at: usize, out: &mut model::Atom) -> bool
    requires { Says text.now ends.now }
    ensures { Answered (integer_in (tree_at text.now at)) out.old result out.new }
{
    let w = nav::integer_at(text, ends, at);
    let ok = is_whole(w);
    if ok {
        put_integer(octets::bits(w), &mut out[..]);
        return true;
    }
    false
}

// The truth value at `at`; nothing is written where there is none.
fn boolean_at(text: &[u8], at: usize, out: &mut model::Atom) -> bool
    ensures { Answered (boolean_in (tree_at text.now at)) out.old result out.new }
{
    let k = nav::kind_at(text, at);
    let t = leaf::is_kind(k, Kind::Truth);
    if t {
        let b = nav::truth_at(text, at);
        put_boolean(b, &mut out[..]);
        return true;
    }
    false
}

// The string at `at`; a blank atom where none fits.
fn text_at(text: &[u8], at: usize, out: &mut model::Atom) -> Atom
    ensures { TextReads (tree_at text.now at) result out.new }
{
    octets::clear(&mut out[..]);
    let f = text::body_at(text, at);
    let Some(i) = f else {
        return Atom::Wrong;
    };
    let mut buf = [0u8; TEXT];
    let w = text::decode(text, i, &mut buf);
    match w {
        Some(n) => {
            put_text(&buf[..n], &mut out[..]);
            Atom::Fits
        }
        None => Atom::Long,
    }
}

// That an element fits, if so; else that it is mistyped, and a blank atom.
fn fits_if(ok: bool, out: &mut model::Atom) -> Atom
    ensures { FitsIf ok out.old result out.new }
{
    if ok {
        return Atom::Fits;
    }
    octets::clear(&mut out[..]);
    Atom::Wrong
}

// The atom that the element at `at` stands for; a blank one where none fits.
pub fn atom_at(
    text: &[u8],
    ends: &[u16],
    names: &[u8],
    kind: u8,
    at: usize,
    out: &mut model::Atom,
) -> Atom
    requires running { Running text.now ends.now names.now }
    requires at_value { well_at text.now at ≡ true }
    ensures { Reads (names_at text.now names.now) (base_numbered kind) (tree_at text.now at) result out.new }
{
    let ok = match kind {
        0 => integer_at(text, ends, at, out),
        1 => boolean_at(text, at, out),
        2 => return text_at(text, at, out),
        _ => uuids::uuid_at(text, ends, names, at, out),
    };
    fits_if(ok, out)
}

// Whether the element at `at` is the atom x, which no string above 24 bytes is.
pub fn same_at(
    text: &[u8],
    ends: &[u16],
    names: &[u8],
    kind: u8,
    at: usize,
    x: &model::Atom,
) -> bool
    requires running { Running text.now ends.now names.now }
    requires at_value { well_at text.now at ≡ true }
    ensures value { result ≡ eq_bytes x.now (atom_as (names_at text.now names.now) (base_numbered kind) (tree_at text.now at)) }
    ensures at_value_2 { result ≡ true → long_atom (base_numbered kind) (atom_as (names_at text.now names.now) (base_numbered kind) (tree_at text.now at)) ≡ false }
{
    let mut cell = [0u8; model::ATOM];
    match atom_at(text, ends, names, kind, at, &mut cell) {
        Atom::Wrong | Atom::Fits => atom::same(x, &cell),
        Atom::Long => false,
    }
}

// The length in characters of the string at `at`.
pub fn long_chars(text: &[u8], at: usize) -> usize
    ensures { result ≡ chars (word_in (tree_at text.now at)) }
{
    text::chars_at(text, at)
}

// Whether the string at `at` is among the elements from f on.
pub fn long_among(text: &[u8], ends: &[u16], set: bool, f: Option<usize>, at: usize) -> bool
    requires { Says text.now ends.now }
    ensures { result ≡ any (is_word (word_in (tree_at text.now at))) (elements_from text.now set f) }
{
    let mut g = f;
    while let Some(p) = g {
        let same = text::same_strings(text, at, p);
        if same {
            return true;
        }
        g = elements::next_element(text, ends, p, set);
    }
    false
}

// Whether the atom x is among the elements from f on.
pub fn cell_among(
    text: &[u8],
    ends: &[u16],
    names: &[u8],
    kind: u8,
    set: bool,
    f: Option<usize>,
    x: &model::Atom,
) -> bool
    requires running { Running text.now ends.now names.now }
    requires f_value { elements_fine text.now set f ≡ true }
    ensures { result ≡ member x.now (atoms_of (names_at text.now names.now) (base_numbered kind) (elements_from text.now set f)) }
{
    let mut g = f;
    while let Some(p) = g {
        let same = same_at(text, ends, names, kind, p, x);
        if same {
            return true;
        }
        g = elements::next_element(text, ends, p, set);
    }
    false
}
