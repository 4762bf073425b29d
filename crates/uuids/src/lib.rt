// Ids as written in a request: the characters of a uuid, and the uuid-names of its inserts.
#![tactic(auto)]

ghost use Rattle.std.specs.Prelude.{◌≡◌, true, ◌++◌, ◌≤◌, ◌<◌, length};
ghost use Rattle.model.specs.Limits.{most_request_bytes, most_operations, atom_bytes, fresh_bytes};
ghost use Rattle.model.specs.Octets.{big};
ghost use Rattle.model.specs.Schema.{uuid};
ghost use Rattle.model.specs.Value.{pad};
ghost use Rattle.inner.specs.Positions.{Says, well_at, tree_at, items_from, items_fine, word_in};
ghost use Rattle.model.specs.Members.{members_in};
ghost use Rattle.model.specs.Written.{is_dash, uuid_from, atom_in};
ghost use Rattle.uuids.specs.Ids.{shifted, spelt, Spells, id_in, id_atom};
ghost use Rattle.uuids.specs.Named.{names_bytes, entry_at, entry_put, is_entry, EntryOf, place_in, names_at, Filled, Answered, atom_of, fresh_atom, named_in, Running};

use model::{Atom, FRESH_BYTES, ID, Kind, OPERATIONS};

// Characters of a uuid as written.
const CHARACTERS: usize = 36;

// Bytes of the table of a request's uuid-names: the fresh ids, then two for each operation.
pub const NAMES: usize = FRESH_BYTES + 2 * OPERATIONS;

fn is_dash(at: usize) -> bool
    ensures { result ≡ is_dash at }
{
    matches!(at, 8 | 13 | 18 | 23)
}

// One digit more.
fn shift(high: u64, low: u64, d: u16) -> Option<(u64, u64)>
    requires { d ≤ 15 }
    ensures { result ≡ shifted high low d }
{
    Some((
        high % 1152921504606846976 * 16 + low / 1152921504606846976,
        low % 1152921504606846976 * 16 + d as u64,
    ))
}

// One character more, at its place.
fn spell(i: Option<(u64, u64)>, at: usize, b: u8) -> Option<(u64, u64)>
    ensures { result ≡ spelt i at b }
{
    match i {
        Some((high, low)) => {
            let dash = is_dash(at);
            if dash {
                if b == b'-' {
                    return i;
                }
                return None;
            }
            let d = scan::hex_digit(b as u16);
            if d < 16 {
                return shift(high, low, d);
            }
            None
        }
        None => None,
    }
}

// The id that characters spell.
pub fn id_of(t: &[u8]) -> Option<(u64, u64)>
    ensures { Spells result (uuid_from 0 0 t.now) }
{
    if t.len() != CHARACTERS {
        return None;
    }
    let mut i = Some((0, 0));
    for (at, b) in t.iter().enumerate() {
        i = spell(i, at, *b);
    }
    i
}

// The id that the string at `at` spells.
pub fn id_at(text: &[u8], at: usize) -> Option<(u64, u64)>
    ensures { Spells result (id_in (tree_at text.now at)) }
{
    let f = text::body_at(text, at);
    let Some(i) = f else {
        return None;
    };
    let mut buf = [0u8; CHARACTERS];
    let w = text::decode(text, i, &mut buf);
    match w {
        Some(n) => id_of(&buf[..n]),
        None => None,
    }
}

// The entry of the operation at `at`: one more than the place of its uuid-name, 0 where it is no insert that has one.
fn entry_of(text: &[u8], ends: &[u16], at: usize) -> usize
    requires says { Says text.now ends.now }
    requires at_value { well_at text.now at ≡ true }
    requires text_len_bound { length text.now ≤ most_request_bytes }
    ensures { EntryOf text.now (members_in (tree_at text.now at)) result }
{
    let o = text::find(text, ends, at, b"op");
    let Some(p) = o else {
        return 0;
    };
    let i = text::is_word(text, p, b"insert");
    if i {
        let u = text::find(text, ends, at, b"uuid-name");
        let Some(q) = u else {
            return 0;
        };
        return q + 1;
    }
    0
}

// Entry k is q.
fn put_entry(names: &mut [u8], k: usize, q: usize)
    requires names_len { length names.old ≡ names_bytes }
    requires k_lt_most_operations { k < most_operations }
    requires q_bound { q < 65536 }
    ensures { names.new ≡ entry_put names.old k q }
{
    names[FRESH_BYTES + 2 * k] = (q / 256) as u8;
    names[FRESH_BYTES + 2 * k + 1] = (q % 256) as u8;
}

// The table of a request's uuid-names and fresh ids.
pub fn fill_names(text: &[u8], ends: &[u16], ops: Option<usize>, fresh: &[u8], names: &mut [u8])
    requires says { Says text.now ends.now }
    requires ops_value { items_fine text.now ops ≡ true }
    requires text_len_bound { length text.now ≤ most_request_bytes }
    requires ops_len_bound { length (items_from text.now ops) ≤ most_operations }
    requires fresh_len { length fresh.now ≡ fresh_bytes }
    requires names_len { length names.old ≡ names_bytes }
    ensures { Filled text.now ops fresh.now names.new }
{
    octets::clear(names);
    octets::put_bytes(names, fresh);
    let mut g = ops;
    let mut k = 0;
    while let Some(p) = g {
        let q = entry_of(text, ends, p);
        put_entry(names, k, q);
        k += 1;
        g = nav::next_item(text, ends, p);
    }
}

// Entry k.
fn entry_at(names: &[u8], k: usize) -> usize
    requires names_len { length names.now ≡ names_bytes }
    requires k_lt_most_operations { k < most_operations }
    ensures { result ≡ entry_at names.now k }
{
    let high = leaf::wide(names[FRESH_BYTES + 2 * k]);
    let low = leaf::wide(names[FRESH_BYTES + 2 * k + 1]);
    256 * high + low
}

// Whether the string at `at` is the uuid-name of operation k.
fn is_named(text: &[u8], names: &[u8], k: usize, at: usize) -> bool
    requires names_len { length names.now ≡ names_bytes }
    requires k_lt_most_operations { k < most_operations }
    ensures { result ≡ is_entry text.now (word_in (tree_at text.now at)) (entry_at names.now k) }
{
    let p = entry_at(names, k);
    0 < p && text::same_strings(text, at, p - 1)
}

// The first operation whose uuid-name is the string at `at`.
pub fn place_of(text: &[u8], names: &[u8], at: usize) -> Option<usize>
    requires { length names.now ≡ names_bytes }
    ensures { result ≡ place_in text.now names.now (word_in (tree_at text.now at)) }
{
    for k in 0..OPERATIONS {
        if is_named(text, names, k, at) {
            return Some(k);
        }
    }
    None
}

// An id's atom.
fn put_id(high: u64, low: u64, out: &mut [u8])
    requires { length out.old ≡ atom_bytes }
    ensures { out.new ≡ pad (big 8 high ++ big 8 low) }
{
    octets::clear(out);
    octets::put_number(out, high, 8);
    octets::put_number(&mut out[8..], low, 8);
}

// The atom of id k of the table; of no id after the last of them.
fn put_fresh(names: &[u8], k: usize, out: &mut [u8])
    requires names_len { length names.now ≡ names_bytes }
    requires out_len { length out.old ≡ atom_bytes }
    ensures { out.new ≡ fresh_atom names.now k }
{
    octets::clear(out);
    if k < OPERATIONS {
        octets::put_bytes(out, &names[ID * k..ID * k + ID]);
    }
}

// An id's atom, where there is one; else nothing is written.
fn put_uuid(i: Option<(u64, u64)>, out: &mut Atom) -> bool
    ensures { Answered (id_atom i) out.old result out.new }
{
    match i {
        Some((high, low)) => {
            put_id(high, low, &mut out[..]);
            true
        }
        None => false,
    }
}

// The atom of the fresh id that the string at `at` stands for as a uuid-name; nothing is written where it stands for none.
fn named_at(text: &[u8], names: &[u8], at: usize, out: &mut Atom) -> bool
    requires { length names.now ≡ names_bytes }
    ensures { Answered (atom_of (named_in (names_at text.now names.now) (tree_at text.now at))) out.old result out.new }
{
    let k = nav::kind_at(text, at);
    let t = leaf::is_kind(k, Kind::Text);
    if t {
        let f = place_of(text, names, at);
        match f {
            Some(i) => {
                put_fresh(names, i, &mut out[..]);
                return true;
            }
            None => return false,
        }
    }
    false
}

// The atom of the id at `at`: ["uuid", ..] or ["named-uuid", ..]. Nothing is written where there is none.
pub fn uuid_at(text: &[u8], ends: &[u16], names: &[u8], at: usize, out: &mut Atom) -> bool
    requires running { Running text.now ends.now names.now }
    requires at_value { well_at text.now at ≡ true }
    ensures { Answered (atom_in (names_at text.now names.now) uuid (tree_at text.now at)) out.old result out.new }
{
    let p = elements::pair_at(text, ends, at);
    let Some((a, b)) = p else {
        return false;
    };
    if text::is_word(text, a, b"uuid") {
        return put_uuid(id_at(text, b), out);
    }
    text::is_word(text, a, b"named-uuid") && named_at(text, names, b, out)
}
