// The type of a column as a schema writes it: a key, min and max.
#![tactic(auto)]

ghost use Rattle.std.specs.Prelude.{◌≡◌, true, false, ◌&&◌, ◌||◌, map, ◌≤◌, ◌<◌, eqb, length};
ghost use Rattle.std.specs.Int.Signed.{le_z};
ghost use Rattle.model.specs.Limits.{most_tables};
ghost use Rattle.model.specs.Base.{all};
ghost use Rattle.inner.specs.Positions.{Says, well_at, tree_at};
ghost use Rattle.model.specs.Whole.{whole_int, is_whole};
ghost use Rattle.model.specs.Catalog.{entry_name};
ghost use Rattle.model.specs.SchemaText.{is_id, is_integer, is_within, size_or};
ghost use Rattle.members.specs.Fields.{slot_tree};
ghost use Rattle.column_types.specs.Types.{limit_in, bound_in, table_in, place_byte, base_byte, how_byte, parts_in, key_allowed, KeyRead, KeyIn, max_in, type_allowed, TypeRead};

use members::{Places, WORDS};
use model::{ELEMENTS, Entry, Whole};

// Elements of a set, at most.
const MOST: u64 = ELEMENTS as u64;

// A key: whether it fits, its base (0 integer, 1 boolean, 2 string, 3 uuid), how it refers (0 not, 1 strongly, 2 weakly), to which table, and its limits.
#[derive(Clone, Copy)]
pub struct Key {
    pub fits: bool,
    pub base: u8,
    pub how: u8,
    pub target: u8,
    pub low: Whole,
    pub high: Whole,
}

// A type: its key, and how many elements it may have; whether it fits.
#[derive(Clone, Copy)]
pub struct Shape {
    pub fits: bool,
    pub key: Key,
    pub min: u64,
    pub max: u64,
}

// What a key says by its slots.
#[derive(Clone, Copy)]
struct Parts {
    word: usize,
    base: u8,
    low: Whole,
    high: Whole,
    table: Option<usize>,
    kind: usize,
}

#[tactic(auto, unfolding(model::specs::Whole::is_whole))]
fn is_whole(w: Whole) -> bool
    ensures { result ≡ is_whole w }
{
    matches!(w, Whole::Plus(_) | Whole::Minus(_))
}

// Whether an integer is from one number to another.
pub fn is_within(low: u64, high: u64, w: Whole) -> bool
    ensures { result ≡ is_within low high w }
{
    match w {
        Whole::Plus(m) => {
            if m < low {
                return false;
            }
            m <= high
        }
        Whole::Minus(_) => false,
        Whole::Other => false,
    }
}

// An integer's size, d where it is none.
pub fn size_or(d: u64, w: Whole) -> u64
    ensures { result ≡ size_or d w }
{
    match w {
        Whole::Plus(m) => m,
        Whole::Minus(_) => d,
        Whole::Other => d,
    }
}

// Whether one integer is at most another.
fn at_most(a: Whole, b: Whole) -> bool
    ensures { result ≡ le_z (whole_int a) (whole_int b) }
{
    match a {
        Whole::Plus(m) => plus_at_most(m, b),
        Whole::Minus(m) => minus_at_most(m, b),
        Whole::Other => plus_at_most(0, b),
    }
}

fn plus_at_most(m: u64, b: Whole) -> bool
    ensures { result ≡ le_z (whole_int (Whole.Plus m)) (whole_int b) }
{
    match b {
        Whole::Plus(n) => m <= n,
        Whole::Minus(n) => {
            if n == 0 {
                return m <= 0;
            }
            false
        }
        Whole::Other => m <= 0,
    }
}

fn minus_at_most(m: u64, b: Whole) -> bool
    ensures { result ≡ le_z (whole_int (Whole.Minus m)) (whole_int b) }
{
    match b {
        Whole::Plus(_) => true,
        Whole::Minus(n) => n <= m,
        Whole::Other => true,
    }
}

fn limit_in(text: &[u8], ends: &[u16], p: usize, d: Whole) -> Whole
    requires { Says text.now ends.now }
    ensures { result ≡ limit_in text.now p d }
{
    if p == 0 {
        return d;
    }
    members::whole_in(text, ends, p)
}

// The limit of a base: the slot p is an integer's, q a string's length's.
fn bound_in(text: &[u8], ends: &[u16], base: u8, p: usize, q: usize, d: Whole) -> Whole
    requires { Says text.now ends.now }
    ensures { result ≡ bound_in text.now base p q d }
{
    if base == 0 {
        return limit_in(text, ends, p, d);
    }
    if base == 2 {
        return limit_in(text, ends, q, d);
    }
    d
}

// Whether a slot is empty, or holds an integer where it may.
fn limit_fits(text: &[u8], ends: &[u16], p: usize, right: bool) -> bool
    requires { Says text.now ends.now }
    ensures { result ≡ (eqb p 0 || (right && is_integer (slot_tree text.now p))) }
{
    if p == 0 {
        return true;
    }
    if right {
        let w = members::whole_in(text, ends, p);
        return is_whole(w);
    }
    false
}

// The table that a slot names.
fn table_in(text: &[u8], tables: &[Entry], p: usize) -> Option<usize>
    ensures { result ≡ table_in text.now tables.now p }
{
    if p == 0 {
        return None;
    }
    let name = names::name_at(text, p);
    let t = atom::text_of(&name);
    catalog::named(tables, t)
}

fn place_byte(f: Option<usize>) -> u8
    ensures { result ≡ place_byte f }
{
    match f {
        Some(k) => {
            if k < 256 {
                return k as u8;
            }
            0
        }
        None => 0,
    }
}

fn base_byte(k: usize) -> u8
    ensures { result ≡ base_byte k }
{
    if k == 0 {
        return 0;
    }
    if k == 1 {
        return 1;
    }
    if k == 2 {
        return 2;
    }
    3
}

// How a key refers: the slot p holds its refTable, and kind is 1 where its refType is weak.
fn how_byte(p: usize, kind: usize) -> u8
    ensures { result ≡ how_byte p kind }
{
    if p == 0 {
        return 0;
    }
    if kind == 1 {
        return 2;
    }
    1
}

// What a key says by its slots f: the number of its type's word, its base, its limits, its table and the number of its refType's word.
fn parts_in(text: &[u8], ends: &[u16], tables: &[Entry], f: Places) -> Parts
    requires { Says text.now ends.now }
    ensures { result ≡ parts_in text.now tables.now f }
{
    let word = members::choice_in(text, f[0], b"\x07integer\x07boolean\x06string\x04uuid");
    let base = base_byte(word);
    let least = Whole::Minus(9223372036854775808);
    let most = Whole::Plus(9223372036854775807);
    let low = bound_in(text, ends, base, f[1], f[3], least);
    let high = bound_in(text, ends, base, f[2], f[4], most);
    Parts {
        word,
        base,
        low,
        high,
        table: table_in(text, tables, f[5]),
        kind: members::choice_in(text, f[6], b"\x06strong\x04weak"),
    }
}

// Whether a key fits: f has its slots, and k is what it says by them.
fn key_fits(text: &[u8], ends: &[u16], f: Places, k: Parts) -> bool
    requires { Says text.now ends.now }
    ensures { result ≡ key_allowed text.now f k }
{
    let a = limit_fits(text, ends, f[1], k.base == 0);
    let b = limit_fits(text, ends, f[2], k.base == 0);
    let c = limit_fits(text, ends, f[3], k.base == 2);
    let d = limit_fits(text, ends, f[4], k.base == 2);
    let low = k.low;
    let high = k.high;
    let table = k.table;
    let o = at_most(low, high);
    let t = catalog::is_found(table);
    let q = f[6] == 0;
    let r = (f[5] == 0) | ((k.base == 3) & t);
    let z = (f[5] != 0) | q;
    (f[WORDS] == 0) & ((k.word < 4) & (a & (b & (c & (d & (o & (r & ((q | (k.kind < 2)) & z))))))))
}

// The key at `at`.
pub fn read_key(text: &[u8], ends: &[u16], tables: &[Entry], at: usize) -> Key
    requires says { Says text.now ends.now }
    requires at_value { well_at text.now at ≡ true }
    requires at_nonzero { 0 < at }
    requires tables_value { all is_id (map entry_name tables.now) ≡ true }
    requires tables_len_bound { length tables.now ≤ most_tables }
    ensures { KeyRead (map entry_name tables.now) (tree_at text.now at) result }
{
    let f = members::fields_or(
        text,
        ends,
        at,
        b"\x04type\x0aminInteger\x0amaxInteger\x09minLength\x09maxLength\x08refTable\x07refType",
    );
    let k = parts_in(text, ends, tables, f);
    let low = k.low;
    let high = k.high;
    let table = k.table;
    Key {
        fits: key_fits(text, ends, f, k),
        base: k.base,
        how: how_byte(f[5], k.kind),
        target: place_byte(table),
        low,
        high,
    }
}

// No key.
fn no_key() -> Key
    ensures { result.fits ≡ false }
{
    Key {
        fits: false,
        base: 0,
        how: 0,
        target: 0,
        low: Whole::Other,
        high: Whole::Other,
    }
}

// The key in a slot.
fn key_in(text: &[u8], ends: &[u16], tables: &[Entry], p: usize) -> Key
    requires says { Says text.now ends.now }
    requires p_value { eqb p 0 ≡ false → well_at text.now p ≡ true }
    requires tables_value { all is_id (map entry_name tables.now) ≡ true }
    requires tables_len_bound { length tables.now ≤ most_tables }
    ensures { KeyIn text.now (map entry_name tables.now) p result }
{
    if p == 0 {
        return no_key();
    }
    read_key(text, ends, tables, p)
}

// The most elements: the slot p holds max, the integer w.
fn max_in(p: usize, w: Whole) -> u64
    ensures { result ≡ max_in p w }
{
    if p == 0 {
        return 1;
    }
    size_or(MOST, w)
}

// Whether min and max fit: f has a type's slots, least and most are their integers, and k whether its key fits.
fn type_fits(text: &[u8], f: Places, k: bool, least: Whole, most: Whole) -> bool
    ensures { result ≡ type_allowed text.now f k least most }
{
    let a = is_within(0, 1, least);
    let b = is_within(1, MOST, most);
    let u = members::choice_in(text, f[2], b"\x09unlimited");
    let n = size_or(1, least);
    let m = max_in(f[2], most);
    (f[WORDS] == 0) & (k & (((f[1] == 0) | a) & (((f[2] == 0) | (b | (u == 0))) & (n <= m))))
}

// The type at `at`.
pub fn read_type(text: &[u8], ends: &[u16], tables: &[Entry], at: usize) -> Shape
    requires says { Says text.now ends.now }
    requires at_value { well_at text.now at ≡ true }
    requires at_nonzero { 0 < at }
    requires tables_value { all is_id (map entry_name tables.now) ≡ true }
    requires tables_len_bound { length tables.now ≤ most_tables }
    ensures { TypeRead (map entry_name tables.now) (tree_at text.now at) result }
{
    let f = members::fields_or(text, ends, at, b"\x03key\x03min\x03max");
    let key = key_in(text, ends, tables, f[0]);
    let least = members::whole_in(text, ends, f[1]);
    let most = members::whole_in(text, ends, f[2]);
    let fits = type_fits(text, f, key.fits, least, most);
    Shape {
        fits,
        key,
        min: size_or(1, least),
        max: max_in(f[2], most),
    }
}
