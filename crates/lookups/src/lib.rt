// The searches of `rows` for C, so that a host program can time them (tests/host/lookup). A call asks for many keys or ids at once; rows that are not in order have none.
#![tactic(auto)]

ghost use Rattle.std.specs.Prelude.{◌≡◌, map, length};
ghost use Rattle.model.specs.Octets.{value};
ghost use Rattle.model.specs.Schema.{Schema};
ghost use Rattle.model.specs.Rows.{has, has_id};
ghost use Rattle.inner.specs.Working.{working, Ordered};
ghost use Rattle.lookups.specs.Found.{count_true, keys_found, ids_found};

use model::{COUNTS_OFFSET, ID, ID_OFFSET, Row};

// A table and an id.
type Key = [u8; COUNTS_OFFSET];

// Whether there is a row of a key.
fn has_key(rows: &[Row], key: &Key) -> bool
    requires { Ordered (length rows.now) rows.now }
    ensures { (s : Schema) → result ≡ has (value key.now) (working s (length rows.now) rows.now) }
{
    rows::has_key(rows, rows.len(), key[0], &key[ID_OFFSET..])
}

// How many of these keys are those of rows that are in order.
fn count_keys(rows: &[Row], keys: &[Key]) -> u64
    requires { Ordered (length rows.now) rows.now }
    ensures { (s : Schema) → result ≡ count_true (λ k. has k (working s (length rows.now) rows.now)) (map value keys.now) }
{
    let mut count = 0;
    for key in keys {
        if has_key(rows, key) {
            count += 1;
        }
    }
    count
}

// How many of these ids are those of rows that are in order.
fn count_ids(rows: &[Row], ids: &[[u8; ID]]) -> u64
    requires { Ordered (length rows.now) rows.now }
    ensures { (s : Schema) → result ≡ count_true (λ i. has_id i (working s (length rows.now) rows.now)) (map value ids.now) }
{
    let mut count = 0;
    for id in ids {
        if rows::has_id(rows, rows.len(), id) {
            count += 1;
        }
    }
    count
}

// How many of these keys are those of rows.
#[unsafe(no_mangle)]
pub extern "C" fn lookups_keys(rows: &[Row], keys: &[Key]) -> u64
    ensures { (s : Schema) → result ≡ keys_found (working s (length rows.now) rows.now) (map value keys.now) }
{
    if !area::ascending(rows, rows.len()) {
        return 0;
    }
    count_keys(rows, keys)
}

// How many of these ids are those of rows, of any table.
#[unsafe(no_mangle)]
pub extern "C" fn lookups_ids(rows: &[Row], ids: &[[u8; ID]]) -> u64
    ensures { (s : Schema) → result ≡ ids_found (working s (length rows.now) rows.now) (map value ids.now) }
{
    if !area::ascending(rows, rows.len()) {
        return 0;
    }
    count_ids(rows, ids)
}
