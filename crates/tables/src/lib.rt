// Tables as a schema writes them, read into cells.
#![tactic(auto)]

ghost use Rattle.std.specs.Prelude.{◌≡◌, true, false, map, ◌≤◌, eqb, length, take};
ghost use Rattle.model.specs.Limits.{most_tables, most_columns, entry_count};
ghost use Rattle.model.specs.Base.{all};
ghost use Rattle.inner.specs.Positions.{Says, well_at, tree_at};
ghost use Rattle.model.specs.Members.{members_in};
ghost use Rattle.model.specs.Catalog.{entry_name};
ghost use Rattle.model.specs.SchemaText.{names, is_id};
ghost use Rattle.members.specs.Fields.{slot_tree};
ghost use Rattle.columns.specs.Columns.{ColumnsRead};
ghost use Rattle.tables.specs.Tables.{rest_allowed, IndexesIn, NameOnly, TableRead, head_at, Heads, EachRead, TablesRead};

use catalog::FIRST_COLUMN;
use members::{Places, WORDS};
use model::{COLUMNS, ENTRY, Entry, Kind, TABLES, Whole};

// A table: whether it fits, and its cell.
#[derive(Clone, Copy)]
pub struct Read {
    pub fits: bool,
    pub cell: Entry,
}

// The columns in a slot, at the front of some cells: how many, 9 where they do not fit.
fn columns_in(text: &[u8], ends: &[u16], p: usize, tables: &[Entry], cells: &mut [Entry]) -> usize
    requires says { Says text.now ends.now }
    requires p_value { eqb p 0 ≡ false → well_at text.now p ≡ true }
    requires tables_value { all is_id (map entry_name tables.now) ≡ true }
    requires tables_len_bound { length tables.now ≤ most_tables }
    requires most_columns_in_bounds { most_columns ≤ length cells.old }
    ensures { ColumnsRead (map entry_name tables.now) (slot_tree text.now p) result cells.old cells.new }
{
    if p == 0 {
        9
    } else {
        columns::read_columns(text, ends, p, tables, cells)
    }
}

// The indexes in the slot p, in their bytes of a table's cell; the table's columns are at q and in cells.
fn indexes_in(
    text: &[u8],
    ends: &[u16],
    p: usize,
    q: usize,
    columns: &[Entry],
    cell: &mut Entry,
) -> bool
    requires says { Says text.now ends.now }
    requires p_value { eqb p 0 ≡ false → well_at text.now p ≡ true }
    requires q_value { well_at text.now q ≡ true }
    requires q_value_2 { all is_id (names (members_in (tree_at text.now q))) ≡ true }
    requires columns_len_bound { length columns.now ≤ most_columns }
    ensures { IndexesIn text.now p (members_in (tree_at text.now q)) (map entry_name columns.now) result cell.old cell.new }
{
    if p == 0 {
        return true;
    }
    let ok = indexes::fits(text, ends, p, q);
    if ok {
        indexes::put(text, ends, p, columns, cell);
        return true;
    }
    false
}

// Whether the other members fit: f has the table's slots, w is the integer that its maxRows is.
fn rest_fits(text: &[u8], f: Places, w: Whole) -> bool
    ensures { result ≡ rest_allowed text.now f w }
{
    let a = column_types::is_within(1, 9223372036854775807, w);
    let k = members::kind_in(text, f[2]);
    let b = leaf::is_kind(k, Kind::Truth);
    (f[WORDS] == 0) & (((f[1] == 0) | a) & ((f[2] == 0) | b))
}

// The table at `at`, whose name is in a cell, with its columns at the front of some cells.
fn read_table(
    text: &[u8],
    ends: &[u16],
    at: usize,
    name: Entry,
    tables: &[Entry],
    columns: &mut [Entry],
) -> Read
    requires says { Says text.now ends.now }
    requires at_value { well_at text.now at ≡ true }
    requires name_only { NameOnly name }
    requires tables_value { all is_id (map entry_name tables.now) ≡ true }
    requires tables_len_bound { length tables.now ≤ most_tables }
    requires most_columns_in_bounds { most_columns ≤ length columns.old }
    ensures { TableRead (map entry_name tables.now) (entry_name name) (tree_at text.now at) result columns.old columns.new }
{
    let f = members::fields(
        text,
        ends,
        at,
        b"\x07columns\x07maxRows\x06isRoot\x07indexes",
    );
    let n = columns_in(text, ends, f[0], tables, columns);
    if COLUMNS < n {
        return Read {
            fits: false,
            cell: name,
        };
    }
    let w = members::whole_in(text, ends, f[1]);
    let root = members::truth_in(text, f[2], false);
    let most = column_types::size_or(0, w);
    let mut cell = name;
    catalog::put_head(&mut cell, n as u8, root, f[1] != 0, most);
    let a = rest_fits(text, f, w);
    let b = indexes_in(text, ends, f[3], f[0], &columns[..n], &mut cell);
    Read { fits: a & b, cell }
}

// The names of the first n members at some places, in cells.
fn name_cells(text: &[u8], places: &[usize], n: usize) -> [Entry; TABLES]
    requires n_le_most_tables { n ≤ most_tables }
    requires n_in_bounds { n ≤ length places.now }
    ensures { (length result ≡ most_tables) × (take n result ≡ map (head_at text.now) (take n places.now)) }
{
    let mut cells = [[0u8; ENTRY]; TABLES];
    for i in 0..n {
        let name = names::name_at(text, places[i]);
        cells[i] = catalog::name_entry(&name);
    }
    cells
}

// Each of the tables whose names are in cells, from the last to the first: whether all fit.
fn read_each(
    text: &[u8],
    ends: &[u16],
    places: &[usize],
    heads: &[Entry],
    cells: &mut [Entry],
) -> bool
    requires says { Says text.now ends.now }
    requires heads { Heads text.now places.now heads.now }
    requires cells_len { length cells.old ≡ entry_count }
    ensures { EachRead text.now places.now heads.now result cells.old cells.new }
{
    for i in (0..heads.len()).rev() {
        let v = nav::member_value(text, ends, places[i]);
        let first = FIRST_COLUMN + COLUMNS * i;
        let r = read_table(text, ends, v, heads[i], heads, &mut cells[first..]);
        if !r.fits {
            return false;
        }
        let cell = r.cell;
        cells[1 + i] = cell;
    }
    true
}

// The tables in the object at `at`, read into a schema's cells: how many, 9 where they do not fit.
pub fn read_tables(text: &[u8], ends: &[u16], at: usize, cells: &mut [Entry]) -> usize
    requires says { Says text.now ends.now }
    requires at_value { well_at text.now at ≡ true }
    requires cells_len { length cells.old ≡ entry_count }
    ensures { TablesRead (tree_at text.now at) result cells.old cells.new }
{
    let mut places = [0usize; COLUMNS];
    let n = columns::collect(text, ends, at, TABLES, &mut places);
    if TABLES < n {
        return 9;
    }
    let heads = name_cells(text, &places, n);
    if read_each(text, ends, &places, &heads[..n], cells) {
        n
    } else {
        9
    }
}
