// What a commit leaves of the working rows: rows that nothing holds go, and weak references to absent rows.
#![tactic(auto)]

pub mod counts;

ghost use Rattle.std.specs.Prelude.{◌≡◌, not, [], ◌++◌, ◌+◌, ◌-◌, ◌≤◌, ◌<◌, eqb, length, drop, get_or, set};
ghost use Rattle.model.specs.Limits.{most_columns, most_elements};
ghost use Rattle.model.specs.Base.{any, all, keep};
ghost use Rattle.model.specs.Schema.{Schema, Table, is_root};
ghost use Rattle.model.specs.Value.{elements};
ghost use Rattle.model.specs.Rows.{Row};
ghost use Rattle.model.specs.Commit.{present, loose, collect};
ghost use Rattle.model.specs.Areas.{row_from};
ghost use Rattle.model.specs.Catalog.{packed_tables};
ghost use Rattle.inner.specs.Working.{working, key_in, value_in, Ordered, place};
ghost use Rattle.catalog.specs.Accepted.{Accepted};
ghost use Rattle.garbage.specs.Loose.{holds, LooseAt, Collected};
ghost use Rattle.garbage.specs.Weak.{ColumnWeak, RowWeak, Weakened};

use model::{ATOM, Atom, Catalog, ELEMENTS, Row};

// Whether a table says that it is root.
fn some_root(schema: &Catalog) -> bool
    requires { Accepted schema.now }
    ensures { result ≡ any (λ (x : Table). x.root) (packed_tables schema.now) }
{
    let n = leaf::wide(catalog::table_count(&schema[0]));
    schema[1..1 + n]
        .iter()
        .any(|table| catalog::says_root(table))
}

// Whether a table is root: all are, if none says so.
fn is_root(schema: &Catalog, table: u8) -> bool
    requires { Accepted schema.now }
    ensures { result ≡ is_root (packed_tables schema.now) table }
{
    catalog::table_count(&schema[0]) <= table
        || catalog::says_root(&schema[1 + leaf::wide(table)])
        || !some_root(schema)
}

// Whether two rows are the same, by table and id.
fn same_row(a: &Row, b: &Row) -> bool
    ensures { result ≡ eqb (key_in a.now) (key_in b.now) }
{
    rows::same_keys(rows::table_of(a), rows::id_of(a), rows::key_of(b))
}

// Whether a row is a different one that refers strongly to another.
#[tactic(auto, using(inner::proofs::Working::row_key), unfolding(crate::specs::Loose::holds))]
fn holds_row(schema: &Catalog, row: &Row, other: &Row) -> bool
    requires { Accepted schema.now }
    ensures { result ≡ holds (packed_tables schema.now) (key_in other.now) (row_from (packed_tables schema.now) row.now) }
{
    !same_row(row, other) && references::refers_to(row, schema, other)
}

// Whether a different row refers strongly to this one.
fn is_held(schema: &Catalog, rows: &[Row], n: usize, row: &Row) -> bool
    requires accepted { Accepted schema.now }
    requires n_in_bounds { n ≤ length rows.now }
    ensures { result ≡ any (holds (packed_tables schema.now) (key_in row.now)) (working (packed_tables schema.now) n rows.now) }
{
    rows[..n].iter().any(|other| holds_row(schema, other, row))
}

// Whether a row of a table that is not root is held by no other.
#[tactic(auto, using(inner::proofs::Working::row_key, inner::proofs::Working::row_table), unfolding(crate::specs::Loose::holds))]
fn is_loose(schema: &Catalog, rows: &[Row], n: usize, row: &Row) -> bool
    requires accepted { Accepted schema.now }
    requires n_in_bounds { n ≤ length rows.now }
    ensures { result ≡ loose (packed_tables schema.now) (working (packed_tables schema.now) n rows.now) (row_from (packed_tables schema.now) row.now) }
{
    !is_root(schema, rows::table_of(row)) && !is_held(schema, rows, n, row)
}

// The place of the first loose row.
pub fn first_loose(schema: &Catalog, rows: &[Row], n: usize) -> Option<usize>
    requires accepted { Accepted schema.now }
    requires ordered { Ordered n rows.now }
    ensures { LooseAt (packed_tables schema.now) (working (packed_tables schema.now) n rows.now) result }
{
    for i in 0..n {
        if is_loose(schema, rows, n, &rows[i]) {
            return Some(i);
        }
    }
    None
}

// Removes the first loose row and calls itself, until there is none. The rows fall by one at each call; those that are left are counted. It is
// the twin of the definition, the collection that document 01 names; `counts::collect_by_counts` promises the same, and a commit calls that.
pub fn collect(schema: &Catalog, rows: &mut [Row], n: usize) -> usize
    requires accepted { Accepted schema.now }
    requires ordered { Ordered n rows.old }
    ensures { Collected (packed_tables schema.now) n result rows.old rows.new }
{
    let found = first_loose(schema, rows, n);
    let Some(i) = found else {
        return n;
    };
    rows::remove_at(rows, n, i);
    collect(schema, rows, n - 1)
}

// The elements of column c of row i that name a row of a table, in their order, put in front; and how many they are.
fn keep_column(rows: &[Row], n: usize, i: usize, c: usize, table: u8, out: &mut [Atom]) -> usize
    requires { (c < most_columns) × (i < n) × (most_elements ≤ length out.old) × Ordered n rows.now }
    ensures value { (s : Schema) → result ≡ length (keep (present (working s n rows.now) table) (elements (value_in c (get_or rows.now i [])))) }
    ensures out_after { (s : Schema) → out.new ≡ keep (present (working s n rows.now) table) (elements (value_in c (get_or rows.now i []))) ++ drop result out.old }
{
    let row = &rows[i];
    let count = references::size(rows::count_of(row, c));
    references::keep_named(rows::atoms_in(row, c), count, table, rows, n, out)
}

// Column c of row i keeps the elements that name a row of a table, in their order; another column stays, and so do the other rows.
fn weaken_column(rows: &mut [Row], n: usize, i: usize, c: usize, to: Option<u8>)
    requires { (c < most_columns) × (i < n) × Ordered n rows.old }
    ensures rows_after { rows.new ≡ set rows.old i (get_or rows.new i []) }
    ensures column_weak { ColumnWeak to c n rows.old (get_or rows.old i []) (get_or rows.new i []) }
{
    match to {
        Some(t) => {
            let mut kept = [[0u8; ATOM]; ELEMENTS];
            let k = keep_column(rows, n, i, c, t, &mut kept);
            rows::set_column(&mut rows[i], c, k as u8, &kept);
        }
        None => {}
    }
}

// Row i without its weak references to absent rows; the other rows stay.
fn weaken_row(rows: &mut [Row], n: usize, i: usize, schema: &Catalog)
    requires accepted { Accepted schema.now }
    requires i_lt_n { (i < n) × Ordered n rows.old }
    ensures rows_after { rows.new ≡ set rows.old i (get_or rows.new i []) }
    ensures row_weak { RowWeak (packed_tables schema.now) n rows.old (get_or rows.old i []) (get_or rows.new i []) }
{
    let table = rows::table_of(&rows[i]);
    let w = references::width(schema, table);
    for c in 0..w {
        let to = references::refers(schema, table, c, 2);
        weaken_column(rows, n, i, c, to);
    }
}

// The rows without their weak references to absent rows.
pub fn weaken(schema: &Catalog, rows: &mut [Row], n: usize)
    requires accepted { Accepted schema.now }
    requires ordered { Ordered n rows.old }
    ensures { Weakened (packed_tables schema.now) n rows.old rows.new }
{
    for i in 0..n {
        weaken_row(rows, n, i, schema);
    }
}
