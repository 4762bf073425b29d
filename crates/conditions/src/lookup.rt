// What a condition or a mutation is made of, by positions of a request's text: the column that a string names, and the three items of an array.
ghost use Rattle.std.specs.Prelude.{◌≡◌, true, map, ◌≤◌};
ghost use Rattle.inner.specs.Positions.{Says, well_at, tree_at};
ghost use Rattle.model.specs.Nav.{kind_of, is_text};
ghost use Rattle.model.specs.Limits.{most_tables};
ghost use Rattle.model.specs.Catalog.{column_from, packed_tables, table_count};
ghost use Rattle.conditions.specs.Lookup.{column_in, table_in, Triples, by_names};

use model::{Catalog, Entry, Kind};

// The place of the column that the value at `at` names.
pub fn column_at(text: &[u8], at: usize, columns: &[Entry]) -> Option<usize>
    ensures { result ≡ column_in (map column_from columns.now) (tree_at text.now at) }
{
    for (i, column) in columns.iter().enumerate() {
        if text::is_word(text, at, catalog::name_of(column)) {
            return Some(i);
        }
    }
    None
}

// Three places, where the first two are those of strings.
fn by_names(text: &[u8], a: usize, b: usize, c: usize) -> Option<(usize, usize, usize)>
    ensures { result ≡ by_names (is_text (kind_of (tree_at text.now a))) (is_text (kind_of (tree_at text.now b))) a b c }
{
    let k = nav::kind_at(text, a);
    let l = nav::kind_at(text, b);
    let x = leaf::is_kind(k, Kind::Text);
    let y = leaf::is_kind(l, Kind::Text);
    if x & y {
        return Some((a, b, c));
    }
    None
}

// The three items of the array at `at`.
pub fn triple_at(text: &[u8], ends: &[u16], at: usize) -> Option<(usize, usize, usize)>
    requires says { Says text.now ends.now }
    requires at_value { well_at text.now at ≡ true }
    ensures { Triples text.now result (tree_at text.now at) }
{
    let f = nav::first(text, at, b'[', b']');
    let Some(a) = f else {
        return None;
    };
    let g = nav::next_item(text, ends, a);
    let Some(b) = g else {
        return None;
    };
    let h = nav::next_item(text, ends, b);
    let Some(c) = h else {
        return None;
    };
    let l = nav::next_item(text, ends, c);
    match l {
        Some(_) => None,
        None => by_names(text, a, b, c),
    }
}

// The number of the table that the value at `at` names.
pub fn table_at(text: &[u8], at: usize, cells: &Catalog) -> Option<usize>
    requires { table_count cells.now ≤ most_tables }
    ensures { result ≡ table_in (packed_tables cells.now) (tree_at text.now at) }
{
    let all = &cells[..];
    let n = leaf::wide(catalog::table_count(&cells[0]));
    column_at(text, at, &all[1..1 + n])
}
