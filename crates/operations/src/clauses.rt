// The members of an operation by the slots that keep their places: each is judged, and conditions, mutations and rows are read on the way.
ghost use Rattle.std.specs.Prelude.{◌≡◌, List, map, ℕ, ◌≤◌, length};
ghost use Rattle.model.specs.Limits.{most_columns, most_rows};
ghost use Rattle.inner.specs.Positions.{tree_at, word_in};
ghost use Rattle.model.specs.Operations.{name_fault};
ghost use Rattle.model.specs.Catalog.{column_from};
ghost use Rattle.uuids.specs.Named.{names_bytes, Running};
ghost use Rattle.conditions.specs.Tests.{TestsNarrowed};
ghost use Rattle.mutations.specs.Rows.{MarkedMutated};
ghost use Rattle.request_rows.specs.Assigned.{slotted, RowRead};
ghost use Rattle.operations.specs.Clauses.{SlotFine, where_at, mutations_in, row_at, Earlier, taken_fault};

use model::{COLUMNS, Entry, Fault, Kind, ROWS, Row};

// The conditions of a slot: how they are judged; where none has a fault, marks of a table's rows become those of its rows that meet all of them. After a fault they are free.
pub fn read_where(
    text: &[u8],
    ends: &[u16],
    names: &[u8],
    columns: &[Entry],
    p: usize,
    rows: &[Row],
    marks: &mut [bool; ROWS],
) -> Fault
    requires running { Running text.now ends.now names.now }
    requires slot_fine { SlotFine text.now p }
    requires columns_len_bound { (length columns.now ≤ most_columns) × (length rows.now ≤ most_rows) }
    ensures { TestsNarrowed (map column_from columns.now) (where_at text.now names.now columns.now p) result rows.now marks.old marks.new }
{
    let k = members::kind_in(text, p);
    let a = leaf::is_kind(k, Kind::Array);
    if a {
        let f = nav::first(text, p, b'[', b']');
        return conditions::mark_rows(text, ends, names, columns, f, rows, marks);
    }
    Fault::Syntax
}

// The mutations of a slot, put on the rows that are marked, of the first n: the fault of the mutations as read, or else that of the first row on which a step fails. After a fault these rows are free, but in order.
pub fn mutate_rows(
    text: &[u8],
    ends: &[u16],
    names: &[u8],
    columns: &[Entry],
    p: usize,
    rows: &mut [Row],
    n: usize,
    marks: &[bool; ROWS],
) -> Fault
    requires running { Running text.now ends.now names.now }
    requires slot_fine { SlotFine text.now p }
    requires columns_len_bound { length columns.now ≤ most_columns }
    requires n_le_most_rows { (n ≤ most_rows) × (n ≤ length rows.old) }
    ensures { MarkedMutated (map column_from columns.now) (mutations_in text.now names.now columns.now p) n marks.now result rows.old rows.new }
{
    let k = members::kind_in(text, p);
    let a = leaf::is_kind(k, Kind::Array);
    if a {
        let f = nav::first(text, p, b'[', b']');
        return mutations::mutate_rows(text, ends, names, columns, f, rows, n, marks);
    }
    Fault::Syntax
}

// The row of a slot, of an insert or of an update, read into a row and flags of the columns that it names; these are free after a fault.
pub fn read_row(
    text: &[u8],
    ends: &[u16],
    names: &[u8],
    insert: bool,
    columns: &[Entry],
    p: usize,
    row: &mut Row,
    given: &mut [bool; COLUMNS],
) -> Fault
    requires running { Running text.now ends.now names.now }
    requires slot_fine { SlotFine text.now p }
    requires columns_len_bound { length columns.now ≤ most_columns }
    ensures { RowRead (row_at insert text.now names.now columns.now p) result row.old row.new given.new }
{
    let k = members::kind_in(text, p);
    let o = leaf::is_kind(k, Kind::Object);
    if o {
        return request_rows::read_row(text, ends, names, insert, columns, p, row, given);
    }
    Fault::Syntax
}

// How the name at p is judged, which operation i gives: by whether an earlier one gave it.
fn taken_fault(text: &[u8], names: &[u8], i: usize, p: usize) -> Fault
    requires { length names.now ≡ names_bytes }
    ensures { result ≡ taken_fault text.now names.now i (word_in (tree_at text.now p)) }
{
    let f = uuids::place_of(text, names, p);
    match f {
        Some(k) => {
            if k < i {
                return Fault::Duplicate;
            }
            Fault::Fine
        }
        None => Fault::Fine,
    }
}

// How the uuid-name of a slot is judged, in operation i.
pub fn name_fault(text: &[u8], names: &[u8], i: usize, p: usize) -> Fault
    requires { length names.now ≡ names_bytes }
    ensures { (given : List (List ℕ)) → Earlier text.now names.now i given → result ≡ name_fault given (slotted text.now p) }
{
    if p == 0 {
        return Fault::Fine;
    }
    let k = nav::kind_at(text, p);
    let t = leaf::is_kind(k, Kind::Text);
    if t {
        let cell = names::name_at(text, p);
        let name = atom::text_of(&cell);
        let id = catalog::rules::is_id(name);
        if id {
            return taken_fault(text, names, i, p);
        }
        return Fault::Syntax;
    }
    Fault::Syntax
}
