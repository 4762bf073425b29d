// A row as written in insert and update, read once: its fault, a row with what it says, and rows changed by that.
#![tactic(auto)]

ghost use Rattle.std.specs.Prelude.{◌≡◌, true, List, map, ◌≤◌, ◌<◌, length, Option};
ghost use Rattle.model.specs.Limits.{most_columns, most_elements, most_rows};
ghost use Rattle.model.specs.Octets.{value};
ghost use Rattle.inner.specs.Positions.{Says, well_at, tree_at};
ghost use Rattle.model.specs.Members.{members_in};
ghost use Rattle.model.specs.Value.{Value};
ghost use Rattle.model.specs.Operations.{known_names};
ghost use Rattle.model.specs.Catalog.{column_from};
ghost use Rattle.uuids.specs.Named.{names_at, Running};
ghost use Rattle.request_rows.specs.Assigned.{absent_by, named_by, written_row, Puts, ColumnRead, ColumnsRead, RowRead, Born, Template, RowAssigned, Updates};

use model::{ATOM, Atoms, COLUMNS, ELEMENTS, Entry, Fault, ID, ROWS, Row};
use request_values::Given;

// How a column is judged that is not named: in an insert by its default.
fn absent_fault(insert: bool, column: &Entry) -> Fault
    ensures { result ≡ absent_by insert (column_from column.now) }
{
    if insert && catalog::minimum(column) != 0 && !element_sets::within(column, &[0u8; ATOM]) {
        return Fault::Constraint;
    }
    Fault::Fine
}

// How a column is judged that is named, besides its value: in an update it must be mutable.
fn named_fault(insert: bool, column: &Entry) -> Fault
    ensures { result ≡ named_by insert (column_from column.now) }
{
    if insert || catalog::is_mutable(column) {
        return Fault::Fine;
    }
    Fault::Constraint
}

// What one column of a row as written gives: how it is judged, and whether it is named.
#[derive(Clone, Copy)]
struct Taken {
    fault: Fault,
    given: bool,
}

// A value put into column c of a row, if it fits.
fn put_value(row: &mut Row, c: usize, v: Given, atoms: &Atoms)
    requires c_lt_most_columns { c < most_columns }
    requires count_le_most_elements { v.fits ≡ true → v.count ≤ most_elements }
    ensures { Puts v.fits c (record { count = v.count; atoms = atoms.now }) row.old row.new }
{
    // lent for what is known of its length
    let key = rows::key_of(row);
    if v.fits {
        rows::set_column(row, c, v.count as u8, atoms);
    }
}

// One column of the row at `at`, read into column c of a row.
fn read_column(
    text: &[u8],
    ends: &[u16],
    names: &[u8],
    insert: bool,
    column: &Entry,
    at: usize,
    c: usize,
    row: &mut Row,
) -> Taken
    requires running { Running text.now ends.now names.now }
    requires at_value { well_at text.now at ≡ true }
    requires c_lt_most_columns { c < most_columns }
    ensures { ColumnRead insert (names_at text.now names.now) (members_in (tree_at text.now at)) (column_from column.now) c result.fault result.given row.old row.new }
{
    let f = text::find(text, ends, at, catalog::name_of(column));
    match f {
        Some(p) => {
            let mut atoms = [[0u8; ATOM]; ELEMENTS];
            let v = request_values::row_value(text, ends, names, column, p, &mut atoms);
            put_value(row, c, v, &atoms);
            let u = v.fault;
            let w = named_fault(insert, column);
            let g = leaf::earlier(u, w);
            Taken {
                fault: g,
                given: true,
            }
        }
        None => {
            let g = absent_fault(insert, column);
            Taken {
                fault: g,
                given: false,
            }
        }
    }
}

// All columns of the row at `at`, read into a row and flagged where they are named.
fn read_columns(
    text: &[u8],
    ends: &[u16],
    names: &[u8],
    insert: bool,
    columns: &[Entry],
    at: usize,
    row: &mut Row,
    given: &mut [bool; COLUMNS],
) -> Fault
    requires running { Running text.now ends.now names.now }
    requires at_value { well_at text.now at ≡ true }
    requires columns_len_bound { length columns.now ≤ most_columns }
    ensures { ColumnsRead insert (names_at text.now names.now) (members_in (tree_at text.now at)) (map column_from columns.now) result row.old row.new given.new }
{
    *given = [false; COLUMNS];
    let mut f = Fault::Fine;
    for (c, column) in columns.iter().enumerate() {
        let r = read_column(text, ends, names, insert, column, at, c, row);
        given[c] = r.given;
        let g = r.fault;
        f = leaf::earlier(f, g);
    }
    f
}

// Whether each member of the object at `at` has the name of a column.
fn known(text: &[u8], ends: &[u16], columns: &[Entry], at: usize) -> bool
    requires says { Says text.now ends.now }
    requires at_value { well_at text.now at ≡ true }
    ensures { result ≡ known_names (map column_from columns.now) (members_in (tree_at text.now at)) }
{
    let mut g = nav::first(text, at, b'{', b'}');
    while let Some(p) = g {
        let c = conditions::lookup::column_at(text, p, columns);
        let Some(_) = c else {
            return false;
        };
        g = nav::next_member(text, ends, p);
    }
    true
}

// The row at `at` of an insert or an update, read into a row and flagged where a column is named: how it is judged.
pub fn read_row(
    text: &[u8],
    ends: &[u16],
    names: &[u8],
    insert: bool,
    columns: &[Entry],
    at: usize,
    row: &mut Row,
    given: &mut [bool; COLUMNS],
) -> Fault
    requires running { Running text.now ends.now names.now }
    requires at_value { well_at text.now at ≡ true }
    requires columns_len_bound { length columns.now ≤ most_columns }
    ensures { RowRead (written_row insert text.now names.now columns.now at) result row.old row.new given.new }
{
    let k = known(text, ends, columns, at);
    if k {
        return read_columns(text, ends, names, insert, columns, at, row, given);
    }
    Fault::Syntax
}

// A new row of a table, all of whose columns have their initial values.
pub fn new_row(columns: &[Entry], table: u8, id: &[u8; ID]) -> Row
    requires { length columns.now ≤ most_columns }
    ensures { Born (map column_from columns.now) table (value id.now) result }
{
    let mins = catalog::minimums_of(columns);
    rows::new_row(table, id, &mins)
}

// The first k columns of a row that are flagged, put over those of another.
fn put_columns(row: &Row, given: &[bool; COLUMNS], k: usize, to: &mut Row)
    requires { k ≤ most_columns }
    ensures { (os : List (Option Value)) → length os ≡ k → Template os row.now given.now → RowAssigned os to.old to.new }
{
    for c in 0..k {
        if given[c] {
            let n = rows::count_of(row, c);
            rows::set_column(to, c, n, &rows::atoms_of(row, c));
        }
    }
}

// The first k columns of a row that are flagged, put over those of the rows that are marked.
pub fn update_rows(
    row: &Row,
    given: &[bool; COLUMNS],
    k: usize,
    marks: &[bool; ROWS],
    rows: &mut [Row],
    n: usize,
)
    requires k_le_most_columns { k ≤ most_columns }
    requires n_le_most_rows { n ≤ most_rows }
    requires n_in_bounds { n ≤ length rows.old }
    ensures { Updates k row.now given.now marks.now n rows.old rows.new }
{
    for i in 0..n {
        if marks[i] {
            put_columns(row, given, k, &mut rows[i]);
        }
    }
}
