// The columns that a select names, and the rows that it answers.
#![tactic(auto)]

ghost use Rattle.std.specs.Prelude.{◌≡◌, Bool, true, not, ◌&&◌, ◌||◌, List, [], map, ℕ, ◌+◌, ◌^◌, ◌≤◌, ◌<◌, length, get_or};
ghost use Rattle.model.specs.Limits.{most_tables, most_columns, most_rows};
ghost use Rattle.inner.specs.Positions.{Says, tree_at, items_from};
ghost use Rattle.model.specs.Operations.{names_in, shown_fault, columns_fault, shows};
ghost use Rattle.model.specs.Catalog.{column_from, table_count, column_count};
ghost use Rattle.model.specs.Value.{same_value};
ghost use Rattle.inner.specs.Working.{value_in};
ghost use Rattle.json_writer.specs.Put.{Put};
ghost use Rattle.json_writer.specs.Texts.{joined};
ghost use Rattle.catalog.specs.Accepted.{Accepted};
ghost use Rattle.catalog.specs.Entries.{columns_at};
ghost use Rattle.projection.specs.Shown.{shown_text, row_shown};
ghost use Rattle.request_rows.specs.Assigned.{slotted};
ghost use Rattle.selection.specs.Most.{picked_most, rows_most, result_most};
ghost use Rattle.selection.specs.Picks.{same_from, same_by, repeated, picked_from, Selected};
ghost use Rattle.selection.specs.Shown.{slot_well, among, fair_name, with_name, Flagged, ColumnsRead};

use model::{Catalog, Entry, Fault, Kind, ROWS, Row};
use projection::SHOWN;

// What the columns of a select come to: how they are judged, and flags of what is shown, "_uuid" and each column. After a fault
// the flags are free.
#[derive(Clone, Copy)]
pub struct Columns {
    pub fault: Fault,
    pub flags: [bool; SHOWN],
}

// Whether the value at `at` names what can be shown, and it is not shown yet.
fn is_fair(text: &[u8], at: usize, columns: &[Entry], flags: &[bool; SHOWN]) -> bool
    requires { length columns.now ≤ most_columns }
    ensures { (show : List ℕ → Bool) → Flagged show columns.now flags.now → result ≡ fair_name (map column_from columns.now) show (tree_at text.now at) }
{
    if text::is_word(text, at, b"_uuid") {
        return !flags[0];
    }
    let f = conditions::lookup::column_at(text, at, columns);
    match f {
        Some(c) => !flags[c + 1],
        None => false,
    }
}

// Flags with the name at `at` shown too.
fn with_name(text: &[u8], at: usize, columns: &[Entry], flags: [bool; SHOWN]) -> [bool; SHOWN]
    requires { length columns.now ≤ most_columns }
    ensures { (show : List ℕ → Bool) → Flagged show columns.now flags → Flagged (with_name show (tree_at text.now at)) columns.now result }
{
    let mut more = flags;
    let id = text::is_word(text, at, b"_uuid");
    more[0] = id | flags[0];
    for (c, column) in columns.iter().enumerate() {
        let same = text::is_word(text, at, catalog::name_of(column));
        more[c + 1] = same | flags[c + 1];
    }
    more
}

// What the names from f on come to.
fn names_at(text: &[u8], ends: &[u16], columns: &[Entry], f: Option<usize>) -> Columns
    requires says { Says text.now ends.now }
    requires columns_len_bound { length columns.now ≤ most_columns }
    ensures { ColumnsRead (shown_fault (map column_from columns.now) (names_in (items_from text.now f))) (among (items_from text.now f)) columns.now result }
{
    let mut flags = [false; SHOWN];
    let mut g = f;
    while let Some(p) = g {
        let ok = is_fair(text, p, columns, &flags);
        if !ok {
            return Columns {
                fault: Fault::Syntax,
                flags: flags,
            };
        }
        let more = with_name(text, p, columns, flags);
        flags = more;
        g = nav::next_item(text, ends, p);
    }
    Columns {
        fault: Fault::Fine,
        flags: flags,
    }
}

// What the columns at p come to; 0 where they are not given, and all are shown.
pub fn columns_at(text: &[u8], ends: &[u16], columns: &[Entry], p: usize) -> Columns
    requires says { Says text.now ends.now }
    requires p_value { slot_well text.now p ≡ true }
    requires columns_len_bound { length columns.now ≤ most_columns }
    ensures { ColumnsRead (columns_fault (map column_from columns.now) (slotted text.now p)) (shows (slotted text.now p)) columns.now result }
{
    if p == 0 {
        return Columns {
            fault: Fault::Fine,
            flags: [true; SHOWN],
        };
    }
    let k = nav::kind_at(text, p);
    let a = leaf::is_kind(k, Kind::Array);
    if a {
        let f = nav::first(text, p, b'[', b']');
        return names_at(text, ends, columns, f);
    }
    Columns {
        fault: Fault::Syntax,
        flags: [false; SHOWN],
    }
}

// Whether two rows differ in column c, where it is shown.
fn differ(show: bool, x: &Row, y: &Row, c: usize) -> bool
    requires { c < most_columns }
    ensures { result ≡ not (not show || same_value (value_in c x.now) (value_in c y.now)) }
{
    show && !rows::same_column(x, y, c)
}

// Whether two rows have the same values for the first k columns, of those that are shown.
fn same_columns(x: &Row, y: &Row, flags: &[bool; SHOWN], k: usize) -> bool
    requires { k ≤ most_columns }
    ensures { result ≡ same_from flags.now x.now y.now 0 k }
{
    for c in 0..k {
        if differ(flags[c + 1], x, y, c) {
            return false;
        }
    }
    true
}

// Whether two rows show the same.
#[tactic(auto, unfolding(crate::specs::Picks::same_by))]
fn same_shown(x: &Row, y: &Row, flags: &[bool; SHOWN], k: usize) -> bool
    requires { k ≤ most_columns }
    ensures { result ≡ same_by flags.now k x.now y.now }
{
    (!flags[0] || rows::same_id(x, y)) && same_columns(x, y, flags, k)
}

// The same, of a row y that is marked.
fn same_marked(mark: bool, x: &Row, y: &Row, flags: &[bool; SHOWN], k: usize) -> bool
    requires { k ≤ most_columns }
    ensures { result ≡ (mark && same_by flags.now k x.now y.now) }
{
    mark && same_shown(x, y, flags, k)
}

// Whether a marked row before the one at i shows the same.
fn repeats(rows: &[Row], marks: &[bool; ROWS], i: usize, flags: &[bool; SHOWN], k: usize) -> bool
    requires { (i < length rows.now) × (i < most_rows) × (k ≤ most_columns) }
    ensures { result ≡ repeated flags.now k marks.now rows.now (get_or rows.now i []) i }
{
    for j in (0..i).rev() {
        if same_marked(marks[j], &rows[i], &rows[j], flags, k) {
            return true;
        }
    }
    false
}

// A row's object where it is picked, after a comma if others came before.
fn put_picked(
    out: &mut [u8],
    at: usize,
    pick: bool,
    first: bool,
    schema: &Catalog,
    table: usize,
    row: &Row,
    flags: &[bool; SHOWN],
) -> usize
    requires { (at + picked_most < 2 ^ 64) × (table < most_tables) × (column_count schema.now table ≤ most_columns) }
    ensures { Put picked_most out.old at (shown_text pick first (row_shown schema.now table row.now flags.now)) result out.new }
{
    if !pick {
        return at;
    }
    let r = json_writer::put_comma(out, at, first);
    projection::put_row(out, r, schema, table, row, flags)
}

// The objects of the rows that are answered.
fn put_rows(
    out: &mut [u8],
    at: usize,
    schema: &Catalog,
    table: usize,
    rows: &[Row],
    flags: &[bool; SHOWN],
    marks: &[bool; ROWS],
) -> usize
    requires rows_most_bound { (at + rows_most < 2 ^ 64) × (table < most_tables) × (column_count schema.now table ≤ most_columns) }
    requires rows_len_bound { length rows.now ≤ most_rows }
    ensures { Put rows_most out.old at (joined true (picked_from schema.now table flags.now (length (columns_at schema.now table)) marks.now rows.now 0 (length rows.now))) result out.new }
{
    let columns = catalog::columns_of(schema, table);
    let k = columns.len();
    let mut first = true;
    let mut r = at;
    for (i, row) in rows.iter().enumerate() {
        let again = repeats(rows, marks, i, flags, k);
        let pick = marks[i] & !again;
        r = put_picked(out, r, pick, first, schema, table, row, flags);
        first = !pick & first;
    }
    r
}

// What a select answers: the rows of a table that are marked, by flags of what is shown.
pub fn select_rows(
    schema: &Catalog,
    table: u8,
    rows: &[Row],
    flags: &[bool; SHOWN],
    marks: &[bool; ROWS],
    out: &mut [u8],
    at: usize,
) -> usize
    requires accepted { Accepted schema.now }
    requires table_bound { table < table_count schema.now }
    requires rows_len_bound { (length rows.now ≤ most_rows) × (at + result_most < 2 ^ 64) }
    ensures { Selected schema.now table rows.now flags.now marks.now out.old at result out.new }
{
    let t = leaf::wide(table);
    let a = json_writer::put_bytes(out, at, b"{\"rows\":[");
    let b = put_rows(out, a, schema, t, rows, flags, marks);
    json_writer::put_bytes(out, b, b"]}")
}
