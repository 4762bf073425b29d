// A catalog written anew from what its entries say, so that every unused byte is zero.
ghost use Rattle.std.specs.Prelude.{◌≡◌, true, List, [], ℕ, ◌+◌, ◌≤◌, ◌<◌, leb, length, get_or};
ghost use Rattle.model.specs.Base.{all};
ghost use Rattle.model.specs.Limits.{most_tables, most_columns, most_text_bytes, most_index_columns, entry_count};
ghost use Rattle.model.specs.Catalog.{entry_name, column_from, indexes_from, column_entry, database_from, catalog_of, column_place};
ghost use Rattle.catalog.specs.Tidied.{database_tidied, table_tidied, Readable};

use model::{COLUMNS, Catalog, ENTRIES, ENTRY, Entry, TABLES};

// The entry of a database, whose name has its place.
fn database_of(e: &Entry) -> Entry
    requires { length (entry_name e.now) ≤ most_text_bytes }
    ensures { result ≡ database_tidied e.now }
{
    super::tidied_columns::database_entry_of(e)
}

// The entry of a table.
fn table_of(e: &Entry) -> Entry
    requires e_len_bound { length (entry_name e.now) ≤ most_text_bytes }
    requires e_value { all (λ (l : List ℕ). leb (length l) most_index_columns) (indexes_from e.now) ≡ true }
    ensures { result ≡ table_tidied e.now }
{
    super::tidied_tables::table_entry(e)
}

// The entry of a column.
fn column_of(e: &Entry) -> Entry
    requires { length (entry_name e.now) ≤ most_text_bytes }
    ensures { result ≡ column_entry (column_from e.now) }
{
    super::tidied_columns::column_entry(e)
}

// The entry of table t written anew, zeros where there is no such table.
fn table_anew(cells: &Catalog, t: usize) -> Entry
    requires readable { Readable cells.now }
    requires t_lt_most_tables { t < most_tables }
    ensures { result ≡ get_or (catalog_of (database_from cells.now)) (1 + t) [] }
{
    if t < leaf::wide(super::table_count(&cells[0])) {
        table_of(&cells[1 + t])
    } else {
        [0u8; ENTRY]
    }
}

// The entry of column c of table t written anew, zeros where there is no such column.
fn column_anew(cells: &Catalog, t: usize, c: usize) -> Entry
    requires readable { Readable cells.now }
    requires t_lt_most_tables { (t < most_tables) × (c < most_columns) }
    ensures { result ≡ get_or (catalog_of (database_from cells.now)) (column_place t c) [] }
{
    let tables = leaf::wide(super::table_count(&cells[0]));
    if t < tables && c < leaf::wide(super::width(&cells[1 + t])) {
        column_of(&cells[super::FIRST_COLUMN + COLUMNS * t + c])
    } else {
        [0u8; ENTRY]
    }
}

// Entry i written anew: the database's, a table's or a column's.
fn entry_anew(cells: &Catalog, i: usize) -> Entry
    requires readable { Readable cells.now }
    requires i_lt_entry_count { i < entry_count }
    ensures { result ≡ get_or (catalog_of (database_from cells.now)) i [] }
{
    if i == 0 {
        database_of(&cells[0])
    } else if i <= TABLES {
        table_anew(cells, i - 1)
    } else {
        let k = i - 1 - TABLES;
        column_anew(cells, k / COLUMNS, k % COLUMNS)
    }
}

// All entries written anew.
pub fn tidied(cells: &Catalog) -> Catalog
    requires { Readable cells.now }
    ensures { result ≡ catalog_of (database_from cells.now) }
{
    let mut out = [[0u8; ENTRY]; ENTRIES];
    for i in 0..ENTRIES {
        out[i] = entry_anew(cells, i);
    }
    out
}
