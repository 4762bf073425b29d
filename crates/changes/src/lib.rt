// The change records of a commit: all gone rows, then each new row with all its columns and each changed row with its changed columns, then the end. One walk writes and counts them.
// The rows before the commit are those that the store's area has until it is written; those after it are working rows. Both are in order.
#![tactic(auto)]

ghost use Rattle.std.specs.Prelude.{◌≡◌, [], ◌∷◌, map, ◌+◌, ◌*◌, ◌%◌, ◌≤◌, ◌<◌, min, length};
ghost use Rattle.model.specs.Limits.{most_rows, most_columns, id_bytes, store_bytes, last_number, end_bytes, row_record_bytes, column_record_bytes, least_records};
ghost use Rattle.model.specs.Octets.{value, filled};
ghost use Rattle.model.specs.Base.{flat};
ghost use Rattle.model.specs.Schema.{Schema, columns_of};
ghost use Rattle.model.specs.Areas.{row_from};
ghost use Rattle.model.specs.Catalog.{packed_tables};
ghost use Rattle.inner.specs.Positions.{is_nothing};
ghost use Rattle.inner.specs.Working.{working, table_in, id_in, key_in, value_in, Ordered, place};
ghost use Rattle.area.specs.Layout.{rows_at};
ghost use Rattle.model.specs.Records.{born, gone, column, end, gones, writes, walk, diff, number_from, encode};
ghost use Rattle.catalog.specs.Accepted.{Accepted};
ghost use Rattle.changes.specs.Walk.{Room, Recorded, Old, old_cells, skips, area_rows, working_rows, columns_written, fore, row_written, row_most};

use model::{COUNTS_OFFSET, Catalog, ID_OFFSET, LAST_NUMBER, Row};
use record::{Born, Column, End, Gone};

// Where the next record goes: how many there are already, and where their bytes end.
#[derive(Clone, Copy)]
pub struct Cursor {
    pub count: usize,
    pub at: usize,
}

// How the records of a commit are numbered: the store's run, and the number of the last record before them.
#[derive(Clone, Copy)]
pub struct Numbering {
    pub run: u32,
    pub number: u32,
}

// How many numbers the bytes of one hold.
const NUMBERS: usize = LAST_NUMBER as usize + 1;

// The number of the record that comes after `count` others, as its bytes hold it.
fn next(number: u32, count: usize) -> u32
    requires { count ≤ least_records }
    ensures { result ≡ (number + count + 1) % (last_number + 1) }
{
    ((number as usize + count + 1) % NUMBERS) as u32
}

// A row that went, by its table and id.
fn put_gone(table: u8, id: &[u8], by: Numbering, to: Cursor, records: &mut [u8]) -> Cursor
    requires id_len { length id.now ≡ id_bytes }
    requires room { Room row_record_bytes to (length records.old) }
    ensures { Recorded by.run by.number (gone table (value id.now) ∷ []) row_record_bytes to records.old result records.new }
{
    let at = to.at;
    let n = next(by.number, to.count);
    Gone::new(by.run, n, table).write(id, &mut records[at..]);
    Cursor {
        count: to.count + 1,
        at: at + Gone::LEN,
    }
}

// A new row, by its table and id.
fn put_born(table: u8, id: &[u8], by: Numbering, to: Cursor, records: &mut [u8]) -> Cursor
    requires id_len { length id.now ≡ id_bytes }
    requires room { Room row_record_bytes to (length records.old) }
    ensures { Recorded by.run by.number (born table (value id.now) ∷ []) row_record_bytes to records.old result records.new }
{
    let at = to.at;
    let n = next(by.number, to.count);
    Born::new(by.run, n, table).write(id, &mut records[at..]);
    Cursor {
        count: to.count + 1,
        at: at + Born::LEN,
    }
}

// Column c of a row.
fn put_column(row: &Row, c: usize, by: Numbering, to: Cursor, records: &mut [u8]) -> Cursor
    requires room { Room column_record_bytes to (length records.old) }
    requires c_lt_most_columns { c < most_columns }
    ensures { Recorded by.run by.number (column (table_in row.now) (id_in row.now) c (value_in c row.now) ∷ []) column_record_bytes to records.old result records.new }
{
    let at = to.at;
    let n = next(by.number, to.count);
    let table = rows::table_of(row);
    let count = rows::count_of(row, c);
    let atoms = rows::atoms_in(row, c);
    Column::new(by.run, n, table, c as u8, count).write(
        rows::id_of(row),
        atoms,
        &mut records[at..],
    );
    Cursor {
        count: to.count + 1,
        at: at + Column::LEN,
    }
}

// The end of a commit.
fn put_end(by: Numbering, to: Cursor, records: &mut [u8]) -> Cursor
    requires { Room end_bytes to (length records.old) }
    ensures { Recorded by.run by.number (end ∷ []) end_bytes to records.old result records.new }
{
    let at = to.at;
    let n = next(by.number, to.count);
    End::new(by.run, n).write(&mut records[at..]);
    Cursor {
        count: to.count + 1,
        at: at + End::LEN,
    }
}

// Whether column c of a row is left out: never of a new row, and of one that the area has at a place where it is like there.
fn is_left(area: &[u8], old: Option<usize>, row: &Row, c: usize) -> bool
    requires old { Old area.now old }
    requires c_lt_most_columns { c < most_columns }
    ensures { result ≡ skips (is_nothing old) (value_in c (old_cells area.now old row.now)) (value_in c row.now) }
{
    match old {
        Some(i) => area::same_column(area, i, row, c),
        None => false,
    }
}

// The table of a row before the commit.
fn table_of(area: &[u8], old: Option<usize>, row: &Row) -> u8
    requires { Old area.now old }
    ensures { result ≡ table_in (old_cells area.now old row.now) }
{
    match old {
        Some(i) => {
            let key = area::key_at(area, i);
            key[0]
        }
        None => rows::table_of(row),
    }
}

// How many columns a row has both before and after the commit.
fn width_of(schema: &Catalog, area: &[u8], old: Option<usize>, row: &Row) -> usize
    requires accepted { Accepted schema.now }
    requires old { Old area.now old }
    ensures { result ≡ min (length (columns_of (packed_tables schema.now) (table_in (old_cells area.now old row.now)))) (length (columns_of (packed_tables schema.now) (table_in row.now))) }
{
    let before = references::width(schema, table_of(area, old, row));
    let after = references::width(schema, rows::table_of(row));
    before.min(after)
}

// The columns of a row in schema order: all of a new row, the changed ones of one that the area has.
fn put_columns(
    schema: &Catalog,
    area: &[u8],
    old: Option<usize>,
    row: &Row,
    by: Numbering,
    start: Cursor,
    records: &mut [u8],
) -> Cursor
    requires accepted { Accepted schema.now }
    requires old { Old area.now old }
    requires room { Room (most_columns * column_record_bytes) start (length records.old) }
    ensures { Recorded by.run by.number (columns_written schema.now area.now old row.now) (most_columns * column_record_bytes) start records.old result records.new }
{
    let w = width_of(schema, area, old, row);
    let mut to = start;
    for c in 0..w {
        if !is_left(area, old, row, c) {
            to = put_column(row, c, by, to, records);
        }
    }
    to
}

// The rows of an area that are gone: those that the rows after the commit lack.
fn put_gones(
    area: &[u8],
    m: usize,
    after: &[Row],
    n: usize,
    by: Numbering,
    start: Cursor,
    records: &mut [u8],
) -> Cursor
    requires store_bytes_in_bounds { (store_bytes ≤ length area.now) × (m ≤ most_rows) }
    requires ordered { Ordered n after.now }
    requires room { Room (row_record_bytes * m) start (length records.old) }
    ensures { (s : Schema) → Recorded by.run by.number (gones (working s n after.now) (working s m (rows_at m area.now))) (row_record_bytes * m) start records.old result records.new }
{
    let mut to = start;
    for i in 0..m {
        let key = area::key_at(area, i);
        let table = key[0];
        let id = &key[ID_OFFSET..COUNTS_OFFSET];
        if !rows::has_key(after, n, table, id) {
            to = put_gone(table, id, by, to, records);
        }
    }
    to
}

// The place of the first row of an area, from j on, that does not lie before a row.
fn skip(area: &[u8], m: usize, j: usize, row: &Row) -> usize
    requires store_bytes_in_bounds { (store_bytes ≤ length area.now) × (m ≤ most_rows) }
    requires j_bound { (s : Schema) → j ≤ fore (key_in row.now) (working s m (rows_at m area.now)) }
    ensures { (s : Schema) → result ≡ fore (key_in row.now) (working s m (rows_at m area.now)) }
{
    let key = rows::key_of(row);
    // A counted loop: the new form is no plainer, since the place where it stops is the answer, found or not.
    let mut k = j;
    while k < m && rows::less_keys(area::key_at(area, k), key) {
        k += 1;
    }
    k
}

// Where an area has a row, if it has it: at the place of the first that does not lie before it.
fn old_place(area: &[u8], m: usize, at: usize, row: &Row) -> Option<usize>
    requires store_bytes_in_bounds { (store_bytes ≤ length area.now) × (m ≤ most_rows) }
    requires ordered { Ordered m (rows_at m area.now) }
    requires at_value { (s : Schema) → at ≡ fore (key_in row.now) (working s m (rows_at m area.now)) }
    ensures { (s : Schema) → result ≡ place (key_in row.now) (working s m (rows_at m area.now)) }
{
    if m <= at {
        return None;
    }
    if rows::same_keys(
        rows::table_of(row),
        rows::id_of(row),
        area::key_at(area, at),
    ) {
        return Some(at);
    }
    None
}

// What a row after the commit writes: born with all its columns, where the area lacks it, else its changed columns.
fn put_row(
    schema: &Catalog,
    area: &[u8],
    m: usize,
    old: Option<usize>,
    row: &Row,
    by: Numbering,
    to: Cursor,
    records: &mut [u8],
) -> Cursor
    requires accepted { Accepted schema.now }
    requires store_bytes_in_bounds { (store_bytes ≤ length area.now) × (m ≤ most_rows) }
    requires value { old ≡ place (key_in row.now) (working (packed_tables schema.now) m (rows_at m area.now)) }
    requires room { Room row_most to (length records.old) }
    ensures { Recorded by.run by.number (row_written (packed_tables schema.now) (area_rows schema.now m area.now) (row_from (packed_tables schema.now) row.now)) row_most to records.old result records.new }
{
    match old {
        Some(_) => put_columns(schema, area, old, row, by, to, records),
        None => {
            let table = rows::table_of(row);
            let to = put_born(table, rows::id_of(row), by, to, records);
            put_columns(schema, area, old, row, by, to, records)
        }
    }
}

// The new and the changed rows after the commit. Rows and area are both in order: one walk over both.
fn put_rows(
    schema: &Catalog,
    area: &[u8],
    m: usize,
    after: &[Row],
    n: usize,
    by: Numbering,
    start: Cursor,
    records: &mut [u8],
) -> Cursor
    requires accepted { Accepted schema.now }
    requires store_bytes_in_bounds { (store_bytes ≤ length area.now) × (m ≤ most_rows) }
    requires ordered { Ordered m (rows_at m area.now) × Ordered n after.now }
    requires room { Room (row_most * n) start (length records.old) }
    ensures { Recorded by.run by.number (walk (packed_tables schema.now) (area_rows schema.now m area.now) (working_rows schema.now n after.now)) (row_most * n) start records.old result records.new }
{
    let mut to = start;
    let mut j = 0;
    for i in 0..n {
        let at = skip(area, m, j, &after[i]);
        let old = old_place(area, m, at, &after[i]);
        to = put_row(schema, area, m, old, &after[i], by, to, records);
        j = at;
    }
    to
}

// The records of a commit from the rows that an area has to the rows after it, numbered on from `number`, and zeros behind them; and how many they are.
// Their numbers are as their bytes hold them: where more are asked for than are left, the caller refuses.
pub fn write(
    schema: &Catalog,
    area: &[u8],
    m: usize,
    after: &[Row],
    n: usize,
    run: u32,
    number: u32,
    records: &mut [u8],
) -> usize
    requires accepted { Accepted schema.now }
    requires store_bytes_in_bounds { (store_bytes ≤ length area.now) × (m ≤ most_rows) × (n ≤ most_rows) × (least_records ≤ length records.old) }
    requires ordered { Ordered m (rows_at m area.now) × Ordered n after.now }
    ensures value { result ≡ length (diff (packed_tables schema.now) (area_rows schema.now m area.now) (working_rows schema.now n after.now)) }
    ensures records_after { records.new ≡ filled (length records.old) (flat (map encode (number_from run number (diff (packed_tables schema.now) (area_rows schema.now m area.now) (working_rows schema.now n after.now))))) }
{
    octets::clear(records);
    let by = Numbering { run, number };
    let to = Cursor { count: 0, at: 0 };
    let to = put_gones(area, m, after, n, by, to, records);
    let to = put_rows(schema, area, m, after, n, by, to, records);
    if to.count == 0 {
        return 0;
    }
    let to = put_end(by, to, records);
    to.count
}
