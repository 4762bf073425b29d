// References: which rows the elements of a row's columns name.
#![tactic(auto)]

ghost use Rattle.std.specs.Prelude.{◌≡◌, ◌++◌, ℕ, ◌+◌, ◌≤◌, ◌<◌, min, eqb, length, take, drop, Some};
ghost use Rattle.model.specs.Limits.{most_columns, most_elements};
ghost use Rattle.model.specs.Base.{any, all, keep};
ghost use Rattle.model.specs.Schema.{Schema, columns_of};
ghost use Rattle.model.specs.Value.{uuid_of, elements};
ghost use Rattle.model.specs.Rows.{key_of, has};
ghost use Rattle.model.specs.Commit.{keys_of, strong_of, present};
ghost use Rattle.model.specs.Areas.{row_from};
ghost use Rattle.model.specs.Catalog.{refers_from, packed_tables};
ghost use Rattle.inner.specs.Working.{working, key_in, value_in, Ordered};
ghost use Rattle.references.specs.Links.{pick, refers_at, referred};
ghost use Rattle.catalog.specs.Accepted.{Accepted};

use model::{Atom, Catalog, ELEMENTS, ID, Row};

// How many columns a table has.
pub fn width(schema: &Catalog, table: u8) -> usize
    requires { Accepted schema.now }
    ensures { result ≡ length (columns_of (packed_tables schema.now) table) }
{
    if catalog::table_count(&schema[0]) <= table {
        0
    } else {
        leaf::wide(catalog::width(&schema[1 + leaf::wide(table)]))
    }
}

// A reference of a kind (0 none, 1 strong, 2 weak) to a table, where strong ones (how 1) or weak ones are asked for.
fn picked(how: u8, kind: u8, table: u8) -> Option<u8>
    ensures { result ≡ pick how (refers_from kind table) }
{
    if kind != 0 && (kind == 1) == (how == 1) {
        Some(table)
    } else {
        None
    }
}

// The table that column c of a table refers to, strongly (how 1) or weakly.
pub fn refers(schema: &Catalog, table: u8, c: usize, how: u8) -> Option<u8>
    requires accepted { Accepted schema.now }
    requires c_in_bounds { c < length (columns_of (packed_tables schema.now) table) }
    ensures { result ≡ pick how (refers_at schema.now table c) }
{
    let column = catalog::column(schema, leaf::wide(table), c);
    picked(how, catalog::refers(column), catalog::target(column))
}

// Whether a row is the one of a table that an atom names.
pub fn is_named(table: u8, atom: &Atom, row: &Row) -> bool
    ensures { result ≡ eqb (key_of table (uuid_of atom.now)) (key_in row.now) }
{
    rows::same_keys(table, &atom[..ID], rows::key_of(row))
}

// Whether there is a row of a table that an atom names.
pub fn has_named(rows: &[Row], n: usize, table: u8, atom: &Atom) -> bool
    requires { Ordered n rows.now }
    ensures { (s : Schema) → result ≡ has (key_of table (uuid_of atom.now)) (working s n rows.now) }
{
    rows::has_key(rows, n, table, &atom[..ID])
}

// How many elements a value of this count has.
pub fn size(count: u8) -> usize
    ensures { result ≡ min count most_elements }
{
    leaf::wide(count).min(ELEMENTS)
}

// Whether one of the first atoms names a row of a table.
fn one_names(atoms: &[Atom], count: usize, table: u8, row: &Row) -> bool
    requires { count ≤ length atoms.now }
    ensures { result ≡ any (eqb (key_in row.now)) (keys_of (Some table) (take count atoms.now)) }
{
    atoms[..count].iter().any(|atom| is_named(table, atom, row))
}

// Whether each of the first atoms names a row of a table.
fn all_named(atoms: &[Atom], count: usize, table: u8, rows: &[Row], n: usize) -> bool
    requires { (count ≤ length atoms.now) × Ordered n rows.now }
    ensures { (s : Schema) → result ≡ all (λ (k : ℕ). has k (working s n rows.now)) (keys_of (Some table) (take count atoms.now)) }
{
    atoms[..count]
        .iter()
        .all(|atom| has_named(rows, n, table, atom))
}

// The first atoms that name a row of a table, in their order, put in front; and how many they are.
pub fn keep_named(
    atoms: &[Atom],
    count: usize,
    table: u8,
    rows: &[Row],
    n: usize,
    out: &mut [Atom],
) -> usize
    requires { (count ≤ length atoms.now) × (count ≤ length out.old) × Ordered n rows.now }
    ensures value { (s : Schema) → result ≡ length (keep (present (working s n rows.now) table) (take count atoms.now)) }
    ensures out_after { (s : Schema) → out.new ≡ keep (present (working s n rows.now) table) (take count atoms.now) ++ drop result out.old }
{
    let mut kept = 0;
    for k in 0..count {
        if has_named(rows, n, table, &atoms[k]) {
            out[kept] = atoms[k];
            kept += 1;
        }
    }
    kept
}

// Whether column c of a row refers to another row, as one to a table.
fn column_names(row: &Row, c: usize, to: Option<u8>, other: &Row) -> bool
    requires { c < most_columns }
    ensures { result ≡ any (eqb (key_in other.now)) (keys_of to (elements (value_in c row.now))) }
{
    match to {
        Some(t) => one_names(
            rows::atoms_in(row, c),
            size(rows::count_of(row, c)),
            t,
            other,
        ),
        None => false,
    }
}

// Whether each element of column c names a row, as one of a column that refers to a table.
fn column_found(row: &Row, c: usize, to: Option<u8>, rows: &[Row], n: usize) -> bool
    requires { (c < most_columns) × Ordered n rows.now }
    ensures { (s : Schema) → result ≡ all (λ (k : ℕ). has k (working s n rows.now)) (keys_of to (elements (value_in c row.now))) }
{
    match to {
        Some(t) => all_named(
            rows::atoms_in(row, c),
            size(rows::count_of(row, c)),
            t,
            rows,
            n,
        ),
        None => true,
    }
}

// Whether a row refers strongly to another.
pub fn refers_to(row: &Row, schema: &Catalog, other: &Row) -> bool
    requires { Accepted schema.now }
    ensures { result ≡ any (eqb (key_in other.now)) (strong_of (packed_tables schema.now) (row_from (packed_tables schema.now) row.now)) }
{
    let table = rows::table_of(row);
    let w = width(schema, table);
    for c in 0..w {
        let to = refers(schema, table, c, 1);
        if column_names(row, c, to, other) {
            return true;
        }
    }
    false
}

// Whether every row that a row refers to, strongly (how 1) or weakly, is there.
pub fn row_found(row: &Row, schema: &Catalog, how: u8, rows: &[Row], n: usize) -> bool
    requires accepted { Accepted schema.now }
    requires ordered { Ordered n rows.now }
    ensures { result ≡ referred (packed_tables schema.now) how (working (packed_tables schema.now) n rows.now) (row_from (packed_tables schema.now) row.now) }
{
    let table = rows::table_of(row);
    let w = width(schema, table);
    for c in 0..w {
        let to = refers(schema, table, c, how);
        if !column_found(row, c, to, rows, n) {
            return false;
        }
    }
    true
}
