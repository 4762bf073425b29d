// A table's indexes: judged, and written into the table's cell.
#![tactic(auto)]

ghost use Rattle.std.specs.Prelude.{◌≡◌, true, map, ◌≤◌, length};
ghost use Rattle.model.specs.Base.{all};
ghost use Rattle.inner.specs.Positions.{Says, well_at, tree_at};
ghost use Rattle.model.specs.Nav.{items_in, text_in};
ghost use Rattle.model.specs.Members.{members_in};
ghost use Rattle.model.specs.Catalog.{entry_name};
ghost use Rattle.model.specs.SchemaText.{names, is_id, is_lasting, is_indexed, index_fits, indexes_fit, place_or, index_of};
ghost use Rattle.indexes.specs.Indexes.{few_fit, is_short, short_index, short_indexes, Index, Stored};

use catalog::INDEX;
use model::{Entry, INDEX_COLUMNS, INDEXES, Kind};

// Whether the column at `at` is not ephemeral.
fn is_lasting(text: &[u8], ends: &[u16], at: usize) -> bool
    requires says { Says text.now ends.now }
    requires at_value { well_at text.now at ≡ true }
    ensures { result ≡ is_lasting (tree_at text.now at) }
{
    let f = text::find(text, ends, at, b"ephemeral");
    match f {
        Some(v) => {
            let t = nav::truth_at(text, v);
            !t
        }
        None => true,
    }
}

// Whether the value at `at` names one of the columns at `columns` that may be in an index.
fn is_indexed(text: &[u8], ends: &[u16], at: usize, columns: usize) -> bool
    requires says { Says text.now ends.now }
    requires columns_value { well_at text.now columns ≡ true }
    requires columns_value_2 { all is_id (names (members_in (tree_at text.now columns))) ≡ true }
    ensures { result ≡ is_indexed (members_in (tree_at text.now columns)) (tree_at text.now at) }
{
    let k = nav::kind_at(text, at);
    let t = leaf::is_kind(k, Kind::Text);
    if t {
        let name = names::name_at(text, at);
        let f = text::find(text, ends, columns, atom::text_of(&name));
        match f {
            Some(v) => return is_lasting(text, ends, v),
            None => return false,
        }
    }
    false
}

// Whether the value at `at` is an index: one to three columns.
fn index_fits(text: &[u8], ends: &[u16], at: usize, columns: usize) -> bool
    requires says { Says text.now ends.now }
    requires at_value { well_at text.now at ≡ true }
    requires columns_value { well_at text.now columns ≡ true }
    requires columns_value_2 { all is_id (names (members_in (tree_at text.now columns))) ≡ true }
    ensures { result ≡ index_fits (members_in (tree_at text.now columns)) (tree_at text.now at) }
{
    let mut n: usize = 0;
    let mut g = nav::first(text, at, b'[', b']');
    while let Some(p) = g {
        if INDEX_COLUMNS <= n {
            return false;
        }
        let ok = is_indexed(text, ends, p, columns);
        if ok {
            n += 1;
            g = nav::next_item(text, ends, p);
        } else {
            return false;
        }
    }
    1 <= n
}

// The most indexes that a table has.
const MOST_INDEXES: usize = INDEXES;

// Whether the items of the value at `at` are at most two indexes.
fn few_fit(text: &[u8], ends: &[u16], at: usize, columns: usize) -> bool
    requires says { Says text.now ends.now }
    requires at_value { well_at text.now at ≡ true }
    requires columns_value { well_at text.now columns ≡ true }
    requires columns_value_2 { all is_id (names (members_in (tree_at text.now columns))) ≡ true }
    ensures { result ≡ few_fit (members_in (tree_at text.now columns)) (tree_at text.now at) }
{
    let mut n: usize = 0;
    let mut g = nav::first(text, at, b'[', b']');
    while let Some(p) = g {
        if MOST_INDEXES <= n {
            return false;
        }
        let ok = index_fits(text, ends, p, columns);
        if ok {
            n += 1;
            g = nav::next_item(text, ends, p);
        } else {
            return false;
        }
    }
    true
}

// Whether the value at `at` lists the indexes of a table whose columns are at `columns`.
pub fn fits(text: &[u8], ends: &[u16], at: usize, columns: usize) -> bool
    requires says { Says text.now ends.now }
    requires at_value { well_at text.now at ≡ true }
    requires columns_value { well_at text.now columns ≡ true }
    requires columns_value_2 { all is_id (names (members_in (tree_at text.now columns))) ≡ true }
    ensures { result ≡ indexes_fit (members_in (tree_at text.now columns)) (tree_at text.now at) }
{
    let k = nav::kind_at(text, at);
    let a = leaf::is_kind(k, Kind::Array);
    if a {
        return few_fit(text, ends, at, columns);
    }
    false
}

// The number of the column that the string at `at` names.
fn number(text: &[u8], at: usize, columns: &[Entry]) -> u8
    requires at_value { is_short (tree_at text.now at) ≡ true }
    requires columns_len_bound { length columns.now ≤ 256 }
    ensures { result ≡ place_or (text_in (tree_at text.now at)) (map entry_name columns.now) }
{
    let name = names::name_at(text, at);
    let f = catalog::named(columns, atom::text_of(&name));
    match f {
        Some(k) => k as u8,
        None => 0,
    }
}

// An index as bytes: how many columns, and their numbers.
fn index(text: &[u8], ends: &[u16], at: usize, columns: &[Entry]) -> [u8; INDEX]
    requires says { Says text.now ends.now }
    requires at_value { well_at text.now at ≡ true }
    requires at_value_2 { short_index (tree_at text.now at) ≡ true }
    requires columns_len_bound { length columns.now ≤ 256 }
    ensures { Index result (index_of (map entry_name columns.now) (tree_at text.now at)) }
{
    let mut q = [0u8; INDEX];
    let mut n: usize = 0;
    let mut g = nav::first(text, at, b'[', b']');
    while let Some(p) = g {
        n += 1;
        q[n] = number(text, p, columns);
        g = nav::next_item(text, ends, p);
    }
    q[0] = n as u8;
    q
}

// The indexes that the value at `at` lists, in their bytes of a table's cell.
pub fn put(text: &[u8], ends: &[u16], at: usize, columns: &[Entry], cell: &mut Entry)
    requires says { Says text.now ends.now }
    requires at_value { well_at text.now at ≡ true }
    requires at_value_2 { short_indexes (tree_at text.now at) ≡ true }
    requires columns_len_bound { length columns.now ≤ 256 }
    ensures { Stored cell.old cell.new (map (index_of (map entry_name columns.now)) (items_in (tree_at text.now at))) }
{
    let old = *cell;
    let f = nav::first(text, at, b'[', b']');
    match f {
        Some(p) => {
            let a = index(text, ends, p, columns);
            let g = nav::next_item(text, ends, p);
            match g {
                Some(r) => {
                    let b = index(text, ends, r, columns);
                    *cell = catalog::with_indexes(old, 2, a, b);
                }
                None => {
                    *cell = catalog::with_indexes(old, 1, a, [0u8; INDEX]);
                }
            }
        }
        None => {
            *cell = catalog::with_indexes(old, 0, [0u8; INDEX], [0u8; INDEX]);
        }
    }
}
