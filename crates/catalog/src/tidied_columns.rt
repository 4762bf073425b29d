// Entries made anew from what they say, so that every byte not in use is zero: names, columns and the database.
ghost use Rattle.std.specs.Prelude.{◌≡◌, ◌++◌, ◌-◌, ◌≤◌, length, get_or, drop, replicate};
ghost use Rattle.model.specs.Limits.{most_text_bytes, entry_bytes, atom_bytes};
ghost use Rattle.model.specs.SchemaText.{base_number};
ghost use Rattle.model.specs.Catalog.{base_numbered, refers_from, how_refers, target, entry_name, name_bytes, column_from, column_entry};
ghost use Rattle.catalog.specs.Tidied.{database_tidied};
ghost use Rattle.catalog.specs.Renewed.{known_bytes, twos_bytes, rest_bytes};

use super::{
    KIND, TABLE_COUNT, high, is_mutable, kind, low, maximum, minimum, name_of, put_six, refers,
    table_count, target,
};
use model::{ENTRY, Entry};

// An entry with the name of another and nothing else.
pub fn named(e: &Entry) -> Entry
    requires { get_or e.now 0 0 ≤ most_text_bytes }
    ensures { result ≡ name_bytes (entry_name e.now) ++ replicate (entry_bytes - atom_bytes) 0 }
{
    let mut out = [0u8; ENTRY];
    out[0] = e[0];
    octets::put_bytes(&mut out[1..], name_of(e));
    out
}

// The number of a base type, as it is read.
#[tactic(auto, unfolding(model::specs::Catalog::base_numbered, model::specs::SchemaText::base_number))]
fn base_of(k: u8) -> u8
    ensures { result ≡ base_number (base_numbered k) }
{
    k.min(3)
}

// How a column refers, and to which table, as they are read.
#[tactic(auto, unfolding(model::specs::Catalog::refers_from))]
fn how_of(how: u8) -> u8
    ensures { result ≡ how_refers (refers_from how 0) }
{
    how.min(2)
}

#[tactic(auto, unfolding(model::specs::Catalog::refers_from))]
fn target_of(how: u8, t: u8) -> u8
    ensures { result ≡ target (refers_from how t) }
{
    if how == 0 { 0 } else { t }
}

// The six bytes behind a column's name.
fn put_known(out: &mut [u8], e: &Entry)
    requires { 6 ≤ length out.old }
    ensures { out.new ≡ known_bytes e.now ++ drop 6 out.old }
{
    let how = refers(e);
    put_six(
        out,
        base_of(kind(e)),
        how_of(how),
        target_of(how, target(e)),
        minimum(e),
        maximum(e),
        leaf::bit(is_mutable(e)),
    );
}

// A limit, which is eight bytes.
fn put_limit(out: &mut [u8], x: u64)
    requires { 8 ≤ length out.old }
    ensures { out.new ≡ twos_bytes x ++ drop 8 out.old }
{
    octets::put_number(out, x, 8);
}

// What follows the name of a column.
fn put_rest(out: &mut [u8], e: &Entry)
    requires { 22 ≤ length out.old }
    ensures { out.new ≡ rest_bytes e.now ++ drop 22 out.old }
{
    put_known(out, e);
    put_limit(&mut out[6..], low(e));
    put_limit(&mut out[14..], high(e));
}

// The entry of a column.
pub fn column_entry(e: &Entry) -> Entry
    requires { get_or e.now 0 0 ≤ most_text_bytes }
    ensures { result ≡ column_entry (column_from e.now) }
{
    let mut out = named(e);
    put_rest(&mut out[KIND..], e);
    out
}

// The entry of the database.
pub fn database_entry_of(e: &Entry) -> Entry
    requires { get_or e.now 0 0 ≤ most_text_bytes }
    ensures { result ≡ database_tidied e.now }
{
    let mut out = named(e);
    out[TABLE_COUNT] = table_count(e);
    out
}
