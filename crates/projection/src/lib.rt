// The object of a selected row: "_uuid" first, then the columns in schema order, of each what is shown.
#![tactic(auto)]

ghost use Rattle.std.specs.Prelude.{◌≡◌, true, ◌+◌, ◌*◌, ◌^◌, ◌<◌, ◌≤◌, length};
ghost use Rattle.model.specs.Limits.{most_tables, most_columns, entry_bytes, entry_count};
ghost use Rattle.model.specs.Catalog.{entry_name, column_count};
ghost use Rattle.json_writer.specs.Put.{Put};
ghost use Rattle.json_writer.specs.Texts.{joined};
ghost use Rattle.projection.specs.Shown.{name_text, column_text, row_id_text, shown_text, shown_from, row_shown};
ghost use Rattle.projection.specs.Most.{name_most, column_most, shown_most, row_id_most, columns_most, row_most};

use model::{COLUMNS, Catalog, Entry, Row, TABLES};

// Flags for what is shown: "_uuid", and each column.
pub const SHOWN: usize = 1 + COLUMNS;

// The name in a schema's cell.
pub fn name_of<'c>(cell: &'c Entry) -> &'c [u8]
    ensures { (result.now ≡ entry_name cell.now) × (length result.now < entry_bytes) }
{
    catalog::name_of(cell)
}

// A name and the colon.
fn put_name(out: &mut [u8], at: usize, cell: &Entry) -> usize
    requires { at + name_most < 2 ^ 64 }
    ensures { Put name_most out.old at (name_text (entry_name cell.now)) result out.new }
{
    let r = json_writer::put_quoted(out, at, name_of(cell));
    json_writer::put_byte(out, r, b':')
}

// A column's name and value.
fn put_column(out: &mut [u8], at: usize, cell: &Entry, row: &Row, c: usize) -> usize
    requires { (at + column_most < 2 ^ 64) × (c < most_columns) }
    ensures { Put column_most out.old at (column_text cell.now row.now c) result out.new }
{
    let r = put_name(out, at, cell);
    let count = rows::count_of(row, c);
    let atoms = rows::atoms_in(row, c);
    json_writer::put_value(out, r, catalog::kind(cell), count, atoms)
}

// A column where it is shown, after a comma if others came before.
fn put_shown(
    out: &mut [u8],
    at: usize,
    show: bool,
    first: bool,
    cell: &Entry,
    row: &Row,
    c: usize,
) -> usize
    requires { (at + shown_most < 2 ^ 64) × (c < most_columns) }
    ensures { Put shown_most out.old at (shown_text show first (column_text cell.now row.now c)) result out.new }
{
    if !show {
        return at;
    }
    let r = json_writer::put_comma(out, at, first);
    put_column(out, r, cell, row, c)
}

// The id where it is shown.
fn put_row_id(out: &mut [u8], at: usize, show: bool, row: &Row) -> usize
    requires { at + row_id_most < 2 ^ 64 }
    ensures { Put row_id_most out.old at (shown_text show true (row_id_text row.now)) result out.new }
{
    if !show {
        return at;
    }
    let r = json_writer::put_bytes(out, at, b"\"_uuid\":");
    json_writer::put_id(out, r, rows::id_of(row))
}

// The columns that are shown, of n whose cells begin at `from`.
fn put_columns(
    out: &mut [u8],
    at: usize,
    none: bool,
    schema: &Catalog,
    from: usize,
    n: usize,
    row: &Row,
    shown: &[bool; SHOWN],
) -> usize
    requires { (at + columns_most < 2 ^ 64) × (n ≤ most_columns) × (from + n ≤ entry_count) }
    ensures { Put columns_most out.old at (joined none (shown_from schema.now from row.now shown.now 0 n)) result out.new }
{
    let mut first = none;
    let mut r = at;
    for c in 0..n {
        let show = shown[c + 1];
        r = put_shown(out, r, show, first, &schema[from + c], row, c);
        first = !show & first;
    }
    r
}

// The object of a row of a table.
pub fn put_row(
    out: &mut [u8],
    at: usize,
    schema: &Catalog,
    table: usize,
    row: &Row,
    shown: &[bool; SHOWN],
) -> usize
    requires { (at + row_most < 2 ^ 64) × (table < most_tables) × (column_count schema.now table ≤ most_columns) }
    ensures { Put row_most out.old at (row_shown schema.now table row.now shown.now) result out.new }
{
    let n = leaf::wide(catalog::width(&schema[1 + table]));
    let from = 1 + TABLES + COLUMNS * table;
    let show = shown[0];
    let r = json_writer::put_byte(out, at, b'{');
    let i = put_row_id(out, r, show, row);
    let e = put_columns(out, i, !show, schema, from, n, row, shown);
    json_writer::put_byte(out, e, b'}')
}
