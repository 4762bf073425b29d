// The limits of a commit: a column's minimum, a table's rows, and indexes.
#![tactic(auto)]

ghost use Rattle.std.specs.Prelude.{◌≡◌, [], ◌+◌, ◌≤◌, ◌<◌, length, take, drop, get_or};
ghost use Rattle.model.specs.Base.{any, all, keep};
ghost use Rattle.model.specs.Schema.{columns_of};
ghost use Rattle.model.specs.Rows.{of_table};
ghost use Rattle.model.specs.Commit.{all_enough, not_over, table_good, tables_good};
ghost use Rattle.model.specs.Areas.{row_from};
ghost use Rattle.model.specs.Catalog.{column_place, column_from, table_from, packed_tables, max_rows_from};
ghost use Rattle.inner.specs.Working.{working};
ghost use Rattle.catalog.specs.Accepted.{Accepted};
ghost use Rattle.limits.specs.Alike.{of_t, same_cells, unique_cells, row_enough, IndexFits};

use model::{Catalog, Entry, Row};

// The minimum of column c of a table.
fn minimum(schema: &Catalog, table: u8, c: usize) -> u8
    requires accepted { Accepted schema.now }
    requires c_in_bounds { c < length (columns_of (packed_tables schema.now) table) }
    ensures { result ≡ (column_from (get_or schema.now (column_place table c) [])).min }
{
    catalog::minimum(catalog::column(schema, leaf::wide(table), c))
}

// Whether every column of a row has its minimum.
fn row_enough(row: &Row, schema: &Catalog) -> bool
    requires { Accepted schema.now }
    ensures { result ≡ row_enough (packed_tables schema.now) (row_from (packed_tables schema.now) row.now) }
{
    let table = rows::table_of(row);
    let w = references::width(schema, table);
    for c in 0..w {
        if rows::count_of(row, c) < minimum(schema, table, c) {
            return false;
        }
    }
    true
}

// Whether every column of every row has its minimum.
pub fn all_enough(schema: &Catalog, rows: &[Row], n: usize) -> bool
    requires accepted { Accepted schema.now }
    requires n_in_bounds { n ≤ length rows.now }
    ensures { result ≡ all_enough (packed_tables schema.now) (working (packed_tables schema.now) n rows.now) }
{
    rows[..n].iter().all(|row| row_enough(row, schema))
}

// Whether a row is one of a table.
fn is_of(table: u8, row: &Row) -> bool
    ensures { result ≡ of_t table row.now }
{
    table == rows::table_of(row)
}

// How many rows a table has.
fn rows_of(rows: &[Row], n: usize, table: u8) -> usize
    requires { n ≤ length rows.now }
    ensures { result ≡ length (keep (of_t table) (take n rows.now)) }
{
    rows[..n].iter().filter(|row| is_of(table, *row)).count()
}

// Whether so many rows are within a table's limit, if it has one.
fn within(entry: &Entry, k: usize) -> bool
    ensures { result ≡ not_over (max_rows_from entry.now) k }
{
    !catalog::is_limited(entry) || k as u64 <= catalog::max_rows(entry)
}

// Whether two rows are equal in the columns of an index.
fn same_in(index: &[u8], x: &Row, y: &Row) -> bool
    requires { IndexFits index.now }
    ensures { result ≡ same_cells index.now x.now y.now }
{
    for c in index {
        if !rows::same_column(x, y, leaf::wide(*c)) {
            return false;
        }
    }
    true
}

// Whether a row of a table after the i-th is equal to it in an index.
fn again(index: &[u8], rows: &[Row], n: usize, table: u8, i: usize) -> bool
    requires index_fits { IndexFits index.now }
    requires i_lt_n { (i < n) × (n ≤ length rows.now) }
    ensures { result ≡ any (same_cells index.now (get_or rows.now i [])) (keep (of_t table) (drop (i + 1) (take n rows.now))) }
{
    let row = &rows[i];
    rows[i + 1..n]
        .iter()
        .any(|next| is_of(table, next) && same_in(index, row, next))
}

// Whether no two rows of a table are equal in an index.
fn unique(index: &[u8], rows: &[Row], n: usize, table: u8) -> bool
    requires index_fits { IndexFits index.now }
    requires n_in_bounds { n ≤ length rows.now }
    ensures { result ≡ unique_cells index.now (keep (of_t table) (take n rows.now)) }
{
    for i in 0..n {
        if is_of(table, &rows[i]) && again(index, rows, n, table, i) {
            return false;
        }
    }
    true
}

// Whether a table has no more rows than it may, and no two that are equal in an index.
fn table_good(schema: &Catalog, table: u8, rows: &[Row], n: usize) -> bool
    requires accepted { Accepted schema.now }
    requires table_in_bounds { table < length (packed_tables schema.now) }
    requires n_in_bounds { n ≤ length rows.now }
    ensures { result ≡ table_good (table_from schema.now table) (of_table table (working (packed_tables schema.now) n rows.now)) }
{
    let entry = &schema[1 + leaf::wide(table)];
    let count = catalog::index_count(entry);
    within(entry, rows_of(rows, n, table))
        && (count == 0
            || unique(catalog::first_index(entry), rows, n, table)
                && (count == 1 || unique(catalog::second_index(entry), rows, n, table)))
}

// Whether every table has no more rows than it may, and no two that are equal in an index.
pub fn tables_good(schema: &Catalog, rows: &[Row], n: usize) -> bool
    requires accepted { Accepted schema.now }
    requires n_in_bounds { n ≤ length rows.now }
    ensures { result ≡ tables_good 0 (packed_tables schema.now) (working (packed_tables schema.now) n rows.now) }
{
    let k = catalog::table_count(&schema[0]);
    for t in 0..k {
        if !table_good(schema, t, rows, n) {
            return false;
        }
    }
    true
}
