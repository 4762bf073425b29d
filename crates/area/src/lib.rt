// The areas of a store and a mirror: rows read and written, and what an area leaves unused.
#![tactic(auto)]

ghost use Rattle.std.specs.Prelude.{◌≡◌, ◌&&◌, List, [], ◌∷◌, ◌++◌, ℕ, ◌+◌, ◌*◌, ◌-◌, ◌≤◌, ◌<◌, length, take, drop, get_or, replicate};
ghost use Rattle.model.specs.Octets.{big, value, part};
ghost use Rattle.model.specs.Limits.{most_columns, most_elements, most_rows, atom_bytes, number_bytes, row_cell_count, row_bytes, entry_bytes, entry_count, catalog_bytes, run_offset, number_offset, count_offset, rows_offset, store_bytes, top_offset, mirror_bytes};
ghost use Rattle.model.specs.Base.{all, flat};
ghost use Rattle.model.specs.Schema.{Schema, Database};
ghost use Rattle.model.specs.Rows.{has_id};
ghost use Rattle.model.specs.Value.{zeros, canonical_for, same_value};
ghost use Rattle.model.specs.Records.{cut};
ghost use Rattle.model.specs.Catalog.{column_from, catalog_of};
ghost use Rattle.model.specs.Areas.{ascends, distinct_ids, encode_store, entries_in};
ghost use Rattle.inner.specs.Working.{working, id_in, value_in, Tidy};
ghost use Rattle.catalog.specs.Accepted.{Accepted};
ghost use Rattle.rows.specs.Post.{KeyBytes};
ghost use Rattle.area.specs.Layout.{rows_in, row_at, Rows, tidy_from, canonical_from, row_good, rows_good, RowsFit, PartRead};
ghost use Rattle.area.specs.Writing.{tail_good, tail_bytes, placed, rows_part, store_in};

use model::{
    ATOM, Atom, Atoms, CATALOG_OFFSET, CELLS, COUNT_OFFSET, COUNTS_OFFSET, Catalog, ELEMENTS,
    ENTRIES, ENTRY, Entry, HEARD_OFFSET, NUMBER, NUMBER_OFFSET, ROW_BYTES, ROWS, ROWS_OFFSET,
    RUN_OFFSET, Row, STORE_BYTES, TOP_OFFSET, WHOLE_OFFSET,
};

// The N bytes at a place.
fn bytes_at<const N: usize>(area: &[u8], at: usize) -> [u8; N]
    requires { at + N ≤ length area.now }
    ensures { result ≡ part at N area.now }
{
    let mut bytes = [0u8; N];
    bytes.copy_from_slice(&area[at..at + N]);
    bytes
}

// A row in an area.
fn row_at(area: &[u8], at: usize) -> Row
    requires { at + row_bytes ≤ length area.now }
    ensures { result ≡ cut row_cell_count (drop at area.now) }
{
    let mut row = [[0u8; ATOM]; CELLS];
    for j in 0..CELLS {
        row[j] = bytes_at(area, at + ATOM * j);
    }
    row
}

// The rows of an area, read from a place on into the first n rows; the others stay.
pub fn read_rows(area: &[u8], at: usize, rows: &mut [Row], n: usize)
    requires { (at + row_bytes * n ≤ length area.now) × (n ≤ length rows.old) }
    ensures { rows.new ≡ rows_in n (drop at area.now) ++ drop n rows.old }
{
    for i in 0..n {
        rows[i] = row_at(area, at + ROW_BYTES * i);
    }
}

// The table and the id of row i of an area, lent.
pub fn key_at<'a>(area: &'a [u8], i: usize) -> &'a [u8]
    requires { (store_bytes ≤ length area.now) × (i < most_rows) }
    ensures { KeyBytes result.now (row_at area.now i) }
{
    let at = ROWS_OFFSET + ROW_BYTES * i;
    &area[at..at + COUNTS_OFFSET]
}

// The atoms of a column in an area.
fn atoms_at(area: &[u8], at: usize) -> Atoms
    requires { at + atom_bytes * most_elements ≤ length area.now }
    ensures { result ≡ cut most_elements (drop at area.now) }
{
    [
        bytes_at(area, at),
        bytes_at(area, at + ATOM),
        bytes_at(area, at + 2 * ATOM),
        bytes_at(area, at + 3 * ATOM),
    ]
}

// Whether column c of row i of an area is that of another row.
pub fn same_column(area: &[u8], i: usize, row: &Row, c: usize) -> bool
    requires { (store_bytes ≤ length area.now) × (i < most_rows) × (c < most_columns) }
    ensures { result ≡ same_value (value_in c (row_at area.now i)) (value_in c row.now) }
{
    let at = ROWS_OFFSET + ROW_BYTES * i;
    if area[at + COUNTS_OFFSET + c] != rows::count_of(row, c) {
        return false;
    }
    let atoms = atoms_at(area, at + ATOM * (1 + ELEMENTS * c));
    value::equal(&atoms, rows::atoms_in(row, c))
}

// A row written to the front of a buffer.
fn put_row(out: &mut [u8], row: &[Atom])
    requires { (length row.now ≡ row_cell_count) × (row_bytes ≤ length out.old) }
    ensures { (out.new ≡ flat row.now ++ drop row_bytes out.old) × (length (flat row.now) ≡ row_bytes) }
{
    for j in 0..CELLS {
        let at = ATOM * j;
        // From a copy of its own: 32 rows then take 4933 instructions, and 12262 straight from the row.
        let cell = row[j];
        out[at..at + ATOM].copy_from_slice(&cell);
    }
}

// Rows written to the front of a buffer, one after another.
fn put_rows(out: &mut [u8], rows: &[Row], n: usize)
    requires { (n ≤ length rows.now) × (row_bytes * n ≤ length out.old) }
    ensures { Rows n rows.now out.old out.new }
{
    for i in 0..n {
        put_row(&mut out[ROW_BYTES * i..], &rows[i]);
    }
}

// Whether all bytes from a place on are zero, by a loop with no early end: it is compiled to compares of many bytes.
pub fn zeros_from(area: &[u8], at: usize) -> bool
    ensures { result ≡ zeros (drop at area.now) }
{
    let mut ok = true;
    for i in at..area.len() {
        ok &= area[i] == 0;
    }
    ok
}

// Whether cells from a place on are zero.
fn blank_cells(cells: &[Atom], at: usize) -> bool
    requires { at ≤ length cells.now }
    ensures { result ≡ all zeros (drop at cells.now) }
{
    cells[at..].iter().all(|cell| atom::blank_from(cell, 0))
}

// Whether a row with k columns leaves its other counts and cells zero.
pub fn tidy_row(row: &Row, k: usize) -> bool
    requires { k ≤ most_columns }
    ensures { result ≡ tidy_from k row.now }
{
    atom::blank_from(&row[0], COUNTS_OFFSET + k) && blank_cells(row, 1 + ELEMENTS * k)
}

// Whether rows are in the order of their keys.
pub fn ascending(rows: &[Row], n: usize) -> bool
    requires { n ≤ length rows.now }
    ensures { (s : Schema) → result ≡ ascends (working s n rows.now) }
{
    for i in 1..n {
        if !rows::less(&rows[i - 1], &rows[i]) {
            return false;
        }
    }
    true
}

// Whether a row from a place on has the id of a row.
fn again(rows: &[Row], n: usize, row: &Row, at: usize) -> bool
    requires { (n ≤ length rows.now) × (at ≤ n) }
    ensures { (s : Schema) → result ≡ has_id (id_in row.now) (drop at (working s n rows.now)) }
{
    // A counted loop: slower as `any` over a part of the rows, 4876 instructions in place of 3943 for the ids of 32 rows.
    for i in at..n {
        if rows::same_id(row, &rows[i]) {
            return true;
        }
    }
    false
}

// Whether all ids are different.
pub fn distinct(rows: &[Row], n: usize) -> bool
    requires { n ≤ length rows.now }
    ensures { (s : Schema) → result ≡ distinct_ids (working s n rows.now) }
{
    for i in 0..n {
        if again(rows, n, &rows[i], i + 1) {
            return false;
        }
    }
    true
}

// Whether a column of a row is in canonical form, by the column's cell of the schema.
fn canonical_column(cell: &Entry, row: &Row, c: usize) -> bool
    requires { c < most_columns }
    ensures { result ≡ canonical_for (column_from cell.now) (value_in c row.now) }
{
    value::canonical(
        catalog::kind(cell),
        catalog::is_scalar(cell),
        rows::count_of(row, c),
        rows::atoms_in(row, c),
    )
}

// Whether the columns of a row are in canonical form, by their cells of the schema.
fn canonical_row(cells: &[Entry], row: &Row) -> bool
    requires { length cells.now ≤ most_columns }
    ensures { result ≡ canonical_from 0 cells.now row.now }
{
    for (c, cell) in cells.iter().enumerate() {
        if !canonical_column(cell, row, c) {
            return false;
        }
    }
    true
}

// Whether a row passes: a table of the schema, an id, canonical values, and nothing in what it leaves unused.
fn row_good(schema: &Catalog, row: &Row) -> bool
    requires { Accepted schema.now }
    ensures { result ≡ row_good schema.now row.now }
{
    let t = rows::table_of(row);
    if catalog::table_count(&schema[0]) <= t {
        return false;
    }
    let cells = catalog::columns_of(schema, leaf::wide(t));
    rows::has_some_id(row) && tidy_row(row, cells.len()) && canonical_row(cells, row)
}

// Whether each row passes.
fn each_good(schema: &Catalog, rows: &[Row], n: usize) -> bool
    requires accepted { Accepted schema.now }
    requires n_in_bounds { n ≤ length rows.now }
    ensures { result ≡ all (row_good schema.now) (take n rows.now) }
{
    rows[..n].iter().all(|row| row_good(schema, row))
}

// Whether rows pass: each by itself, in order, and with ids all different.
pub fn rows_good(schema: &Catalog, rows: &[Row], n: usize) -> bool
    requires accepted { Accepted schema.now }
    requires n_in_bounds { n ≤ length rows.now }
    ensures { result ≡ rows_good schema.now n rows.now }
{
    each_good(schema, rows, n) && ascending(rows, n) && distinct(rows, n)
}

// How many rows there are.
pub fn row_count(area: &[u8]) -> usize
    requires { store_bytes ≤ length area.now }
    ensures { result ≡ get_or area.now count_offset 0 }
{
    leaf::wide(area[COUNT_OFFSET])
}

// Whether what the rows leave is zero.
fn rest_blank(area: &[u8], n: usize) -> bool
    requires { (store_bytes ≤ length area.now) × (n ≤ most_rows) }
    ensures { result ≡ zeros (part (rows_offset + row_bytes * n) (row_bytes * (most_rows - n)) area.now) }
{
    zeros_from(&area[ROWS_OFFSET + ROW_BYTES * n..STORE_BYTES], 0)
}

// The catalog of an area, read into entries.
pub fn read_catalog(area: &[u8], catalog: &mut [Entry])
    requires { (store_bytes ≤ length area.now) × (length catalog.old ≡ entry_count) }
    ensures { catalog.new ≡ entries_in area.now }
{
    for j in 0..ENTRIES {
        catalog[j] = bytes_at(area, CATALOG_OFFSET + ENTRY * j);
    }
}

// Whether the rows of the part of an area that stores and mirrors share are in good order, by its catalog. They are read on the way, unless there are too many of them or the rest is not zero.
pub fn part_good(area: &[u8], schema: &Catalog, rows: &mut [Row]) -> bool
    requires accepted { Accepted schema.now }
    requires store_bytes_in_bounds { (store_bytes ≤ length area.now) × RowsFit area.now rows.old }
    ensures { PartRead area.now schema.now rows.old rows.new result }
{
    let n = row_count(area);
    if ROWS < n || !rest_blank(area, n) {
        return false;
    }
    read_rows(area, ROWS_OFFSET, rows, n);
    rows_good(schema, rows, n)
}

// The number in four bytes at a place.
fn word_at(area: &[u8], at: usize) -> u32
    requires { at + number_bytes ≤ length area.now }
    ensures { result ≡ value (part at number_bytes area.now) }
{
    octets::number(&area[at..], NUMBER) as u32
}

// The run.
pub fn run_of(area: &[u8]) -> u32
    requires { store_bytes ≤ length area.now }
    ensures { result ≡ value (part run_offset number_bytes area.now) }
{
    word_at(area, RUN_OFFSET)
}

// The number: a store's last, a mirror's n.
pub fn number_of(area: &[u8]) -> u32
    requires { store_bytes ≤ length area.now }
    ensures { result ≡ value (part number_offset number_bytes area.now) }
{
    word_at(area, NUMBER_OFFSET)
}

// The highest number that a mirror has heard.
pub fn top_of(area: &[u8]) -> u32
    requires { mirror_bytes ≤ length area.now }
    ensures { result ≡ value (part top_offset number_bytes area.now) }
{
    word_at(area, TOP_OFFSET)
}

// Whether a mirror's own bytes are in good order.
#[tactic(auto, unfolding(crate::specs::Writing::tail_good))]
pub fn mirror_part(area: &[u8]) -> bool
    requires { mirror_bytes ≤ length area.now }
    ensures { result ≡ tail_good area.now }
{
    let n = number_of(area);
    let top = top_of(area);
    let heard = area[HEARD_OFFSET];
    let whole = area[WHOLE_OFFSET];
    heard <= 1 && whole <= 1 && n <= top && (heard == 1 || top == 0) && (whole == 1 || n != 0)
}

// The first n bytes are zero.
fn put_zeros(out: &mut [u8], n: usize)
    requires { n ≤ length out.old }
    ensures { out.new ≡ replicate n 0 ++ drop n out.old }
{
    octets::clear(&mut out[..n]);
}

// A catalog to the front of a buffer.
fn put_catalog(out: &mut [u8], catalog: &[Entry])
    requires { (length catalog.now ≡ entry_count) × (catalog_bytes ≤ length out.old) }
    ensures { (out.new ≡ flat catalog.now ++ drop catalog_bytes out.old) × (length (flat catalog.now) ≡ catalog_bytes) }
{
    for j in 0..ENTRIES {
        let at = ENTRY * j;
        // From a copy of its own, as a cell.
        let entry = catalog[j];
        out[at..at + ENTRY].copy_from_slice(&entry);
    }
}

// Rows to the front of a buffer: how many, the rows, zeros.
fn put_counted(out: &mut [u8], rows: &[Row], n: usize)
    requires { (n ≤ length rows.now) × (n ≤ most_rows) × (1 + row_bytes * most_rows ≤ length out.old) }
    ensures { out.new ≡ rows_part n rows.now ++ drop (1 + row_bytes * most_rows) out.old }
{
    leaf::put_byte(out, n as u8);
    put_rows(&mut out[1..], rows, n);
    put_zeros(&mut out[1 + ROW_BYTES * n..], ROW_BYTES * (ROWS - n));
}

// A store, or the part of a mirror that is like it, written whole.
pub fn write_store(
    area: &mut [u8],
    run: u32,
    number: u32,
    catalog: &Catalog,
    rows: &[Row],
    n: usize,
)
    requires store_bytes_in_bounds { store_bytes ≤ length area.old }
    requires n_in_bounds { (n ≤ length rows.now) × (n ≤ most_rows) }
    ensures { (d : Database) → catalog_of d ≡ catalog.now → Tidy d.tables (take n rows.now) → area.new ≡ encode_store (store_in d run number n rows.now) ++ drop store_bytes area.old }
{
    octets::put_number(area, run as u64, NUMBER);
    octets::put_number(&mut area[NUMBER_OFFSET..], number as u64, NUMBER);
    put_catalog(&mut area[CATALOG_OFFSET..], &catalog[..]);
    put_counted(&mut area[COUNT_OFFSET..], rows, n);
}

// The number of an area written anew.
pub fn write_number(area: &mut [u8], number: u32)
    requires { store_bytes ≤ length area.old }
    ensures { area.new ≡ placed number_offset number_bytes (big number_bytes number) area.old }
{
    octets::put_number(&mut area[NUMBER_OFFSET..], number as u64, NUMBER);
}

// The rows of an area written anew.
pub fn write_rows(area: &mut [u8], rows: &[Row], n: usize)
    requires { (n ≤ length rows.now) × (n ≤ most_rows) × (store_bytes ≤ length area.old) }
    ensures { area.new ≡ placed count_offset (1 + row_bytes * most_rows) (rows_part n rows.now) area.old }
{
    put_counted(&mut area[COUNT_OFFSET..], rows, n);
}

// A mirror's own bytes to the front of a buffer.
fn put_tail(out: &mut [u8], top: u32, heard: u8, whole: u8)
    requires { number_bytes + 2 ≤ length out.old }
    ensures { out.new ≡ (big number_bytes top ++ heard ∷ whole ∷ []) ++ drop (number_bytes + 2) out.old }
{
    octets::put_number(out, top as u64, NUMBER);
    leaf::put_byte(&mut out[NUMBER..], heard);
    leaf::put_byte(&mut out[NUMBER + 1..], whole);
}

// A mirror's own bytes written anew.
pub fn write_tail(area: &mut [u8], top: u32, heard: bool, whole: bool)
    requires { mirror_bytes ≤ length area.old }
    ensures { area.new ≡ placed top_offset (number_bytes + 2) (tail_bytes top heard whole) area.old }
{
    let h = leaf::bit(heard);
    let w = leaf::bit(whole);
    put_tail(&mut area[TOP_OFFSET..], top, h, w);
}
