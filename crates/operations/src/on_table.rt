// Operations on a table: insert, select, update, mutate and delete, each judged whole and then done on the working rows.
ghost use Rattle.std.specs.Prelude.{◌≡◌, ◌+◌, ◌^◌, ◌<◌, length};
ghost use Rattle.model.specs.Limits.{most_operations};
ghost use Rattle.model.specs.Catalog.{table_count};
ghost use Rattle.catalog.specs.Accepted.{Accepted};
ghost use Rattle.members.specs.Fields.{words_of};
ghost use Rattle.uuids.specs.Named.{names_bytes};
ghost use Rattle.selection.specs.Most.{result_most};
ghost use Rattle.fresh.specs.Fresh.{FreshId};
ghost use Rattle.operations.specs.declared.on_table.Operation.TheVariants.{Insert, Select, Update, Mutate, Delete};
ghost use Rattle.operations.specs.Ran.{Ready, Words, TableColumns, Matching, Effect, Silent, listed_fault, count_unless, room_fault};

use members::Places;
use model::{ATOM, CELLS, COLUMNS, Catalog, Entry, Fault, ID, ROWS, Row};

// What an operation is, by its "op" and its table.
#[derive(Clone, Copy)]
pub enum Operation {
    Insert,
    Select,
    Update,
    Mutate,
    Delete,
    Comment,
    Abort,
    Unknown,
}

// An operation of a request: its number, its place in the text, its table where it is on one, and how many rows there are before it.
#[derive(Clone, Copy)]
pub struct Call {
    pub operation: Operation,
    pub number: usize,
    pub at: usize,
    pub table: u8,
    pub count: usize,
}

// What an operation answers: {}, a count, its own fresh id, or rows, which are in the answer then, up to that place.
#[derive(Clone, Copy)]
pub enum Reply {
    Empty,
    Count(usize),
    Id,
    Rows(usize),
}

// An operation's fault, how many rows there are then, and what it answers where there is no fault.
#[derive(Clone, Copy)]
pub struct Done {
    pub fault: Fault,
    pub count: usize,
    pub reply: Reply,
}

// What the conditions of a call come to: the places of its members, the fault of members that it does not have and of the conditions, and where there is none marks of the rows that match.
#[derive(Clone, Copy)]
pub struct Matched {
    pub slots: Places,
    pub fault: Fault,
    pub marks: [bool; ROWS],
}

// The fault of a member that the operation does not have, by the slot for those.
fn listed(p: usize) -> Fault
    ensures { result ≡ listed_fault p }
{
    if p == 0 {
        return Fault::Fine;
    }
    Fault::Syntax
}

// The columns of a table of the schema.
fn table_columns<'s>(schema: &'s Catalog, table: u8) -> &'s [Entry]
    requires accepted { Accepted schema.now }
    requires table_bound { table < table_count schema.now }
    ensures { TableColumns schema.now table result.now }
{
    catalog::columns_of(schema, leaf::wide(table))
}

// The rows that a call is about: those of its table that match its conditions. Its members may have the words, of which the third is "where".
fn match_rows(
    text: &[u8],
    ends: &[u16],
    names: &[u8],
    schema: &Catalog,
    call: Call,
    words: &[u8],
    rows: &[Row],
) -> Matched
    requires ready { Ready text.now ends.now names.now schema.now call rows.now }
    requires words { Words (words_of words.now) }
    ensures { Matching text.now names.now schema.now (words_of words.now) call rows.now result }
{
    let columns = table_columns(schema, call.table);
    let slots = members::fields(text, ends, call.at, words);
    let l = listed(slots[9]);
    let n = call.count;
    let front = &rows[..n];
    let mut marks = marks::of_table(call.table, front);
    let p = slots[2];
    let w = super::clauses::read_where(text, ends, names, columns, p, front, &mut marks);
    let f = leaf::earlier(l, w);
    Matched {
        slots: slots,
        fault: f,
        marks: marks,
    }
}

// Delete: the rows that match are taken out.
pub fn run_delete(
    text: &[u8],
    ends: &[u16],
    names: &[u8],
    schema: &Catalog,
    call: Call,
    rows: &mut [Row],
) -> Done
    requires { Ready text.now ends.now names.now schema.now call rows.old }
    ensures { Silent Delete text.now names.now schema.now call rows.old rows.new result }
{
    let m = match_rows(
        text,
        ends,
        names,
        schema,
        call,
        b"\x02op\x05table\x05where",
        rows,
    );
    let f = m.fault;
    let n = call.count;
    if leaf::is_fine(f) {
        let marks = m.marks;
        let k = marks::count(&marks, n);
        let left = marks::delete_rows(&marks, rows, n);
        return Done {
            fault: Fault::Fine,
            count: left,
            reply: Reply::Count(k),
        };
    }
    Done {
        fault: f,
        count: n,
        reply: Reply::Empty,
    }
}

// Update: the columns that the row names are set in the rows that match.
pub fn run_update(
    text: &[u8],
    ends: &[u16],
    names: &[u8],
    schema: &Catalog,
    call: Call,
    rows: &mut [Row],
) -> Done
    requires { Ready text.now ends.now names.now schema.now call rows.old }
    ensures { Silent Update text.now names.now schema.now call rows.old rows.new result }
{
    let columns = table_columns(schema, call.table);
    let words = b"\x02op\x05table\x05where\x03row";
    let m = match_rows(text, ends, names, schema, call, words, rows);
    let mut row = [[0u8; ATOM]; CELLS];
    let mut given = [false; COLUMNS];
    let slots = m.slots;
    let q = slots[3];
    let v = super::clauses::read_row(text, ends, names, false, columns, q, &mut row, &mut given);
    let w = m.fault;
    let f = leaf::earlier(w, v);
    let n = call.count;
    if leaf::is_fine(f) {
        let marks = m.marks;
        let k = marks::count(&marks, n);
        request_rows::update_rows(&row, &given, columns.len(), &marks, rows, n);
        return Done {
            fault: Fault::Fine,
            count: n,
            reply: Reply::Count(k),
        };
    }
    Done {
        fault: f,
        count: n,
        reply: Reply::Empty,
    }
}

// A count, or 0 where there is a fault.
fn count_unless(f: Fault, n: usize) -> usize
    ensures { result ≡ count_unless f n }
{
    if leaf::is_fine(f) {
        return n;
    }
    0
}

// Mutate: the mutations, one after another, on each row that matches. After a fault the rows are free.
pub fn run_mutate(
    text: &[u8],
    ends: &[u16],
    names: &[u8],
    schema: &Catalog,
    call: Call,
    rows: &mut [Row],
) -> Done
    requires { Ready text.now ends.now names.now schema.now call rows.old }
    ensures { Silent Mutate text.now names.now schema.now call rows.old rows.new result }
{
    let columns = table_columns(schema, call.table);
    let words = b"\x02op\x05table\x05where\x09mutations";
    let m = match_rows(text, ends, names, schema, call, words, rows);
    let slots = m.slots;
    let marks = m.marks;
    let w = m.fault;
    let n = call.count;
    let q = slots[3];
    let e = count_unless(w, n);
    let v = super::clauses::mutate_rows(text, ends, names, columns, q, rows, e, &marks);
    let f = leaf::earlier(w, v);
    let k = marks::count(&marks, n);
    Done {
        fault: f,
        count: n,
        reply: Reply::Count(k),
    }
}

// The fault of a table of rows that is full.
fn room(n: usize) -> Fault
    ensures { result ≡ room_fault n }
{
    if n < ROWS {
        return Fault::Fine;
    }
    Fault::Resources
}

// Fresh id i, of the table of uuid-names.
fn new_id(names: &[u8], i: usize) -> [u8; ID]
    requires names_len { length names.now ≡ names_bytes }
    requires i_lt_most_operations { i < most_operations }
    ensures { FreshId names.now i result }
{
    let mut id = [0u8; ID];
    octets::put_bytes(&mut id, fresh::id_at(names, i));
    id
}

// Insert: a new row with what is written for it; the operation's own fresh id is its id.
pub fn run_insert(
    text: &[u8],
    ends: &[u16],
    names: &[u8],
    schema: &Catalog,
    call: Call,
    rows: &mut [Row],
) -> Done
    requires { Ready text.now ends.now names.now schema.now call rows.old }
    ensures { Silent Insert text.now names.now schema.now call rows.old rows.new result }
{
    let n = call.count;
    let columns = table_columns(schema, call.table);
    let slots = members::fields(text, ends, call.at, b"\x02op\x05table\x03row\x09uuid-name");
    let l = listed(slots[9]);
    let id = new_id(names, call.number);
    let mut row = request_rows::new_row(columns, call.table, &id);
    let mut given = [false; COLUMNS];
    let q = slots[2];
    let v = super::clauses::read_row(text, ends, names, true, columns, q, &mut row, &mut given);
    let r = room(n);
    let m = super::clauses::name_fault(text, names, call.number, slots[3]);
    let a = leaf::earlier(r, m);
    let b = leaf::earlier(v, a);
    let f = leaf::earlier(l, b);
    if leaf::is_fine(f) {
        rows::add(rows, n, &row);
        return Done {
            fault: Fault::Fine,
            count: n + 1,
            reply: Reply::Id,
        };
    }
    Done {
        fault: f,
        count: n,
        reply: Reply::Empty,
    }
}

// Select: the rows that match, with the columns that are asked for, written to the answer.
pub fn run_select(
    text: &[u8],
    ends: &[u16],
    names: &[u8],
    schema: &Catalog,
    call: Call,
    rows: &[Row],
    answer: &mut [u8],
    at: usize,
) -> Done
    requires ready { Ready text.now ends.now names.now schema.now call rows.now }
    requires result_most_bound { at + result_most < 2 ^ 64 }
    ensures { Effect Select text.now names.now schema.now call rows.now rows.now at answer.old answer.new result }
{
    let columns = table_columns(schema, call.table);
    let words = b"\x02op\x05table\x05where\x07columns";
    let m = match_rows(text, ends, names, schema, call, words, rows);
    let slots = m.slots;
    let c = selection::columns_at(text, ends, columns, slots[3]);
    let w = m.fault;
    let v = c.fault;
    let f = leaf::earlier(w, v);
    let n = call.count;
    if leaf::is_fine(f) {
        let flags = c.flags;
        let marks = m.marks;
        let front = &rows[..n];
        let e = selection::select_rows(schema, call.table, front, &flags, &marks, answer, at);
        return Done {
            fault: Fault::Fine,
            count: n,
            reply: Reply::Rows(e),
        };
    }
    Done {
        fault: f,
        count: n,
        reply: Reply::Empty,
    }
}
